// From a task to its cause, and on from there.
ghost use Rattle.std.specs.Prelude.{◌≡◌, ◌&&◌, map, ◌+◌, ◌≤◌, ◌<◌, eqb, length};
ghost use Rattle.std.proofs.lemmas.List.Edits.{sets};
ghost use Rattle.laws.specs.Scan.{scan_to};
ghost use Rattle.plan.specs.Value.{at};
ghost use Rattle.theory.specs.Book.{due};
ghost use Rattle.theory.specs.Chain.{chain_of};
ghost use Rattle.ask_why.specs.Asked.{plan_by, seen_in};
ghost use Rattle.ask_why.specs.Private.Asked.{below, cause_in};

use book::Book;
use book_view::is_in;

// Does task i wait for task j, which is planned to start before it?
fn awaits(book: &Book, waits: &[u64; 64], i: usize, j: usize) -> bool
    requires { (i < 64) × (j < 64) }
    ensures { result ≡ (plan_by 64 book.now waits.now).waits i j }
{
    is_in(waits[i], j) & (book.begin[j] < book.begin[i])
}

// The latest end of those that task i waits for.
fn due_at(book: &Book, waits: &[u64; 64], tasks: usize, i: usize) -> u32
    requires { (tasks ≤ 64) × (i < tasks) }
    ensures { result ≡ due (plan_by tasks book.now waits.now) (at book.now.end) i }
{
    let mut last: u32 = 0;
    for j in 0..tasks {
        if awaits(book, waits, i, j) {
            last = last.max(book.end[j]);
        }
    }
    last
}

// The lowest of them that ended then.
fn lowest_at(book: &Book, waits: &[u64; 64], tasks: usize, i: usize, due: u32) -> Option<usize>
    requires { (tasks ≤ 64) × (i < tasks) }
    ensures { result ≡ below tasks (scan_to (λ j. (plan_by tasks book.now waits.now).waits i j && eqb (at book.now.end j) due) tasks (λ j. j) 0 tasks) }
{
    for j in 0..tasks {
        if awaits(book, waits, i, j) & (book.end[j] == due) {
            return Some(j);
        }
    }
    None
}

// The task whose end let task i start, if one did.
fn cause_of(book: &Book, waits: &[u64; 64], tasks: usize, i: usize) -> Option<usize>
    requires { (tasks ≤ 64) × (i < tasks) }
    ensures { result ≡ cause_in (plan_by tasks book.now waits.now) (seen_in book.now) i }
{
    let due = due_at(book, waits, tasks, i);
    if (book.start[i] == 0) | (!(book.dropped[i] == 1) & (due < book.ready[i])) {
        return None;
    }
    lowest_at(book, waits, tasks, i, due)
}

// A cause is planned to start before the task it let go, so the planned start falls from call to call; in arrays that say otherwise such a task is not waited for.
pub(crate) fn follow(
    links: &mut [u8; 64],
    book: &Book,
    waits: &[u64; 64],
    tasks: usize,
    i: usize,
    count: usize,
) -> usize
    requires { (tasks ≤ 64) × (i < tasks) × (count + length (chain_of (plan_by tasks book.now waits.now) (seen_in book.now) i) ≤ 64) }
    ensures { (result ≡ count + length (chain_of (plan_by tasks book.now waits.now) (seen_in book.now) i)) × (links.new ≡ sets links.old count (map (λ k. k + 1) (chain_of (plan_by tasks book.now waits.now) (seen_in book.now) i))) }
{
    links[count] = (i + 1) as u8;
    let Some(cause) = cause_of(book, waits, tasks, i) else {
        return count + 1;
    };
    follow(links, book, waits, tasks, cause, count + 1)
}
