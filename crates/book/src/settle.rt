// After a task has ended, and at opening: dropped tasks that may go are skipped, then whoever may go starts.
ghost use Rattle.std.specs.Prelude.{◌≡◌, ◌<◌, set};
ghost use Rattle.theory.specs.Report.{skip_times, let_go, blank};
ghost use Rattle.plan.specs.Value.{at};
ghost use Rattle.book.specs.Private.Table.{plan_by, seen_as, moved_to, Fit};

use crate::skip::skip_free;
use crate::start::start_free;
use crate::table::last_tasks;
use crate::{Book, StepArrays};

pub(crate) fn settle(book: &Book, waits: &[u64; 64], moved: StepArrays, clock: u32) -> StepArrays
    requires { Fit (plan_by book.now waits.now) (at book.now.board) (seen_as moved book.now.dropped clock) }
    ensures { result ≡ moved_to book.now.tasks (let_go (plan_by book.now waits.now) (skip_times book.now.tasks (plan_by book.now waits.now) (seen_as moved book.now.dropped clock))) }
{
    let last = last_tasks(book, waits, &moved.mark);
    let skipped = skip_free(moved, book, &last, clock);
    start_free(skipped, book, &last, clock)
}

// Nothing is known yet of any task.
pub(crate) fn unmoved() -> StepArrays
    ensures { result ≡ moved_to 0 blank }
{
    StepArrays {
        mark: [0; 64],
        start: [0; 64],
        end: [0; 64],
    }
}

// Task k has ended at the tick.
pub(crate) fn ended_at(book: &Book, k: usize, tick: u32) -> StepArrays
    requires { k < 64 }
    ensures { result ≡ record { mark = set book.now.mark k 2; start = book.now.start; end = set book.now.end k tick } }
{
    let mut moved = StepArrays {
        mark: book.mark,
        start: book.start,
        end: book.end,
    };
    moved.mark[k] = 2;
    moved.end[k] = tick;
    moved
}
