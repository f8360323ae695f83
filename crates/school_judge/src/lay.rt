// What is found in a log, laid out task by task.
ghost use Rattle.std.specs.Prelude.{ℕ, Bool, ◌≡◌, cond, ◌<◌, ◌≤◌};
ghost use Rattle.book_view.specs.View.{laid};
ghost use Rattle.school_judge.specs.Private.Laid.{known_in, right_in, tick_in};

use school_read::{Found, Noted};

// 1 for each task of which the test holds.
fn marked<F: Fn(usize) -> bool>(tasks: usize, test: F) -> [u8; 64]
    requires few { tasks ≤ 64 }
    requires callable { (i : ℕ) → i < tasks → F.pre test i }
    ensures { (p : ℕ → Bool) → ((i : ℕ) (r : Bool) → i < tasks → F.post test i r → r ≡ p i) → result ≡ laid tasks (λ i. cond (p i) 1 0) }
{
    let mut marks = [0u8; 64];
    for i in 0..tasks {
        marks[i] = u8::from(test(i));
    }
    marks
}

// 1 for each task with one start and one end.
pub(crate) fn known_tasks(found: &Found, tasks: usize) -> [u8; 64]
    requires { tasks ≤ 64 }
    ensures { result ≡ laid tasks (known_in found.now) }
{
    marked(
        tasks,
        |i| (found.starts.many[i] == 1) & (found.ends.many[i] == 1),
    )
}

// Of these 1 for each with both on its board.
pub(crate) fn right_tasks(
    found: &Found,
    known: &[u8; 64],
    board: &[u8; 64],
    tasks: usize,
) -> [u8; 64]
    requires { tasks ≤ 64 }
    ensures { result ≡ laid tasks (right_in known.now board.now found.now) }
{
    marked(tasks, |i| {
        let own = u32::from(board[i]);
        (known[i] == 1) & ((found.starts.board[i] == own) & (found.ends.board[i] == own))
    })
}

// The ticks of those that are known. Not one walk with `marked`: what `laid` lays out are numbers, and values of a type parameter are none.
pub(crate) fn known_ticks(known: &[u8; 64], noted: &Noted, tasks: usize) -> [u32; 64]
    requires { tasks ≤ 64 }
    ensures { result ≡ laid tasks (tick_in known.now noted.now) }
{
    let mut ticks = [0u32; 64];
    for i in 0..tasks {
        ticks[i] = if known[i] == 1 { noted.tick[i] } else { 0 };
    }
    ticks
}
