// The exact figure of a book: the largest that is still true. It does not run ahead: one step from the started tasks gives the same number.
#![tactic(auto)]

ghost use Rattle.std.specs.Prelude.{◌≡◌, [], ◌<◌, ◌≤◌};
ghost use Rattle.laws.specs.Bits.{has};
ghost use Rattle.laws.specs.Picked.{latest, least};
ghost use Rattle.plan.specs.Value.{at};
ghost use Rattle.book_view.specs.View.{laid};
ghost use Rattle.book.specs.View.{book_view};
ghost use Rattle.theory.specs.Exact.{not_started, latest_end, step_early};
ghost use Rattle.ask_exact.specs.Figure.{exact_of};
ghost use Rattle.ask_exact.specs.Step.{handed, plan_by};
ghost use Rattle.ask_exact.specs.Private.Step.{early_step, answered_by};

use book::{Book, judged};
use book_view::{is_in, limit_of, places};
use plan::{Answer, Refusal, granted};

// Has the task not started at the clock?
fn not_started(book: &Book, i: usize) -> bool
    requires { i < 64 }
    ensures { result ≡ not_started (book_view book.now) i }
{
    (book.mark[i] == 0) | (book.clock < book.start[i])
}

// The end of an ended task and the limit of a running one; 0 of one that has not started at the clock.
fn end_at_latest(book: &Book, j: usize) -> u64
    requires { j < 64 }
    ensures { result ≡ latest_end (plan_by book.now []) (book_view book.now) j }
{
    if not_started(book, j) {
        return 0;
    }
    if book.mark[j] == 2 {
        return u64::from(book.end[j]);
    }
    limit_of(book.begin[j], book.finish[j], book.start[j])
}

fn ends_at_latest(book: &Book, tasks: usize) -> [u64; 64]
    requires { tasks ≤ 64 }
    ensures { result ≡ laid tasks (latest_end (plan_by book.now []) (book_view book.now)) }
{
    let mut ends = [0u64; 64];
    for j in 0..tasks {
        ends[j] = end_at_latest(book, j);
    }
    ends
}

// The latest of those in a set. A limit may lie past a u32, so this is book_view's `latest_end` with wider ends:
// what `latest` looks at are numbers, and values of a type parameter are none.
fn due_at(awaited: u64, ends: &[u64; 64], tasks: usize) -> u64
    requires { tasks ≤ 64 }
    ensures { result ≡ latest tasks (has awaited) (at ends.now) }
{
    let mut last: u64 = 0;
    for j in 0..tasks {
        if is_in(awaited, j) {
            last = last.max(ends[j]);
        }
    }
    last
}

// How early task i is at the least: its planned start less the later of its ready tick, not of a dropped one, and what is due by the ends of the started tasks.
fn early_at(book: &Book, waits: &[u64; 64], ends: &[u64; 64], n: usize, i: usize) -> u32
    requires { (n ≤ 64) × (i < 64) }
    ensures { result ≡ early_step book.now waits.now ends.now n i }
{
    let since = if book.dropped[i] == 1 {
        0
    } else {
        book.ready[i]
    };
    let from = u64::from(since).max(due_at(waits[i], ends, n));
    u64::from(book.begin[i]).saturating_sub(from) as u32
}

// The least of those of the first n tasks that have not started.
fn least_of(book: &Book, waits: &[u64; 64], ends: &[u64; 64], n: usize) -> Option<u32>
    requires { n ≤ 64 }
    ensures { result ≡ handed (least n (not_started (book_view book.now)) (early_step book.now waits.now ends.now n)) }
{
    let mut found: Option<u32> = None;
    for i in 0..n {
        if not_started(book, i) {
            let this = early_at(book, waits, ends, n, i);
            found = Some(found.unwrap_or(this).min(this));
        }
    }
    found
}

// The figure by wait sets, whatever they and the book hold, so that who has judged a book need not judge it again.
pub fn step_early(book: &Book, waits: &[u64; 64]) -> Option<u32>
    ensures { result ≡ handed (step_early (plan_by book.now waits.now) (book_view book.now)) }
{
    let n = places(book.tasks, &book.mark);
    // a task without a place waits, and is planned at 0
    if n < usize::from(book.tasks) {
        return Some(0);
    }
    let ends = ends_at_latest(book, n);
    least_of(book, waits, &ends, n)
}

// An answer, and the figure or "none", which is not known, with 0.
#[repr(C)]
#[derive(Drop)]
pub struct Exact {
    pub answer: Answer,
    pub known: bool,
    pub early: u32,
}

// The C interface has a flag beside the figure.
fn answered(answer: Answer, figure: Option<u32>) -> Exact
    ensures { result ≡ answered_by answer figure }
{
    Exact {
        answer,
        known: figure.is_some(),
        early: figure.unwrap_or(0),
    }
}

pub fn exact_early(book: Book) -> Exact
    ensures { result ≡ exact_of book }
{
    let Ok(waits) = judged(&book) else {
        return answered(Refusal::Unsound.answer(0, 0), None);
    };
    answered(granted(), step_early(&book, &waits))
}
