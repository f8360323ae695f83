// The test of code 9 of a book where it stands, whatever its arrays hold.
#![tactic(auto)]

ghost use Rattle.std.specs.Prelude.{◌≡◌, not, ◌<◌, ◌≤◌};
ghost use Rattle.laws.specs.Bits.{has, set_of};
ghost use Rattle.laws.specs.Every.{every, any};
ghost use Rattle.laws.specs.Picked.{latest};
ghost use Rattle.theory.specs.Book.{ended, task_test};
ghost use Rattle.plan.specs.Value.{at};
ghost use Rattle.plan.specs.View.{viewed};
ghost use Rattle.book_view.specs.Shown.{book_shown};
ghost use Rattle.book_sound.specs.Sound.{nothing_past, sound_on, sound_waits};
ghost use Rattle.book_sound.specs.Private.Lent.{plan_by};

use book_view::{BookView, bit_of, is_in, later, latest_end, limit_of, start_of};
use book_waits::wait_sets;
use plan_ranges::is_blank;

// The tasks that have not ended.
fn unended_set(book: &BookView<'_>) -> u64
    requires { book.now.plan.tasks ≤ 64 }
    ensures { result ≡ set_of book.now.plan.tasks (λ j. not (ended (at book.now.mark.now) j)) }
{
    let mut set: u64 = 0;
    for j in 0..book.plan.tasks as usize {
        set = set | bit_of(book.mark[j] != 2, j);
    }
    set
}

// The greatest end; 0 where nothing has ended, as the rule of the clock has it. A walk that gathers, as those beside it.
fn last_end(book: &BookView<'_>) -> u32
    requires { book.now.plan.tasks ≤ 64 }
    ensures { result ≡ latest book.now.plan.tasks (ended (at book.now.mark.now)) (at book.now.end.now) }
{
    let mut last = 0;
    for j in 0..book.plan.tasks as usize {
        last = later(book.mark[j] == 2, book.end[j], last);
    }
    last
}

// Is one of the tasks in a set?
fn waits_at_all(awaited: u64, tasks: usize) -> bool
    requires { tasks ≤ 64 }
    ensures { result ≡ any tasks (has awaited) }
{
    let mut some = false;
    for j in 0..tasks {
        some = is_in(awaited, j) | some;
    }
    some
}

// Is the task's state as the rules say?
fn task_sound(book: &BookView<'_>, waits: &[u64; 64], unended: u64, i: usize) -> bool
    requires { (book.now.plan.tasks ≤ 64) × (i < 64) × (unended ≡ set_of book.now.plan.tasks (λ j. not (ended (at book.now.mark.now) j))) }
    ensures { result ≡ task_test (plan_by book.now waits.now) (book_shown book.now) i }
{
    let tasks = book.plan.tasks as usize;
    let state = book.mark[i];
    let gone = book.dropped[i];
    let started = book.start[i];
    let over = book.end[i];
    let ready_at = book.plan.ready[i];
    let awaited = waits[i];
    let free = awaited & unended == 0;
    if state == 0 {
        return (gone <= 1) & (!free & ((started == 0) & (over == 0)));
    }
    let due = latest_end(awaited, book.end, tasks);
    let from = start_of(ready_at, due);
    if gone == 1 {
        let some = waits_at_all(awaited, tasks);
        let at_once = (started == due) & ((over == started) & (over <= book.clock));
        return (state == 2) & (some & (free & at_once));
    }
    let limit = limit_of(book.plan.begin[i], book.plan.finish[i], started);
    if state == 1 {
        let runs = (started == from) & ((over == 0) & (u64::from(book.clock) <= limit));
        return (gone == 0) & (free & runs);
    }
    let in_time = (started < over) & ((u64::from(over) <= limit) & (over <= book.clock));
    (state == 2) & ((gone == 0) & (free & ((started == from) & in_time)))
}

fn tasks_sound(book: &BookView<'_>, waits: &[u64; 64], unended: u64) -> bool
    requires { (book.now.plan.tasks ≤ 64) × (unended ≡ set_of book.now.plan.tasks (λ j. not (ended (at book.now.mark.now) j))) }
    ensures { result ≡ every book.now.plan.tasks (task_test (plan_by book.now waits.now) (book_shown book.now)) }
{
    for i in 0..book.plan.tasks as usize {
        if !task_sound(book, waits, unended, i) {
            return false;
        }
    }
    true
}

// Places past the tasks hold nothing.
fn past_nothing(book: &BookView<'_>) -> bool
    ensures { result ≡ nothing_past book.now.plan.tasks book.now.mark.now book.now.start.now book.now.end.now book.now.dropped.now }
{
    let tasks = book.plan.tasks as usize;
    // an array that a field shows is lent as a slice by a variable: the checker asks for the copies of the references
    let (start, end) = (book.start, book.end);
    let (mark, dropped) = (book.mark, book.dropped);
    let ticks = is_blank(0, start, tasks) & is_blank(0, end, tasks);
    ticks & (is_blank(0, mark, tasks) & is_blank(0, dropped, tasks))
}

// By the wait sets of its tasks.
fn is_sound(book: &BookView<'_>, waits: &[u64; 64]) -> bool
    requires { book.now.plan.tasks ≤ 64 }
    ensures { result ≡ sound_on (plan_by book.now waits.now) book.now.mark.now book.now.start.now book.now.end.now book.now.dropped.now book.now.clock }
{
    if !past_nothing(book) {
        return false;
    }
    let unended = unended_set(book);
    if !tasks_sound(book, waits, unended) {
        return false;
    }
    book.clock == last_end(book)
}

// The wait sets of a book's tasks by its rule: the test of code 9, in one call. Where the book is not sound they are the refusal,
// which has none where its plan is not accepted or its rule is none of the two.
pub fn sound_waits(book: &BookView<'_>) -> Result<[u64; 64], Option<[u64; 64]>>
    ensures { result ≡ sound_waits book.now.rule (viewed book.now.plan) book.now.mark.now book.now.start.now book.now.end.now book.now.dropped.now book.now.clock }
{
    let Some(waits) = wait_sets(book.rule, &book.plan) else {
        return Err(None);
    };
    if is_sound(book, &waits) {
        return Ok(waits);
    }
    Err(Some(waits))
}
