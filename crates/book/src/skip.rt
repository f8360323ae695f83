// Dropped tasks take no time: once all they wait for have ended they start and end at the clock, and others may follow.
ghost use Rattle.std.specs.Prelude.{◌≡◌, ◌&&◌, ◌<◌, ◌≤◌, eqb};
ghost use Rattle.theory.specs.Book.{waiting};
ghost use Rattle.plan.specs.Value.{at};
ghost use Rattle.book.specs.Private.Table.{row_ended, SmallRow, SmallTable, skipped_by, rounds_by};

use crate::start::may_go;
use crate::{Book, StepArrays};

// A dropped task that may go.
fn may_skip(mark: &[u8; 64], book: &Book, row: [u8; 8], i: usize) -> bool
    requires i_bound { i < 64 }
    requires small_row { at mark.now i ≡ 0 → SmallRow row }
    ensures { result ≡ (eqb (at book.now.dropped i) 1 && (waiting (at mark.now) i && row_ended (at mark.now) row)) }
{
    if book.dropped[i] != 1 {
        return false;
    }
    may_go(mark, row, i)
}

// Whoever may be skipped by the marks as they were; none where nobody may.
fn skip_round(old: StepArrays, book: &Book, last: &[[u8; 8]; 64], clock: u32) -> Option<StepArrays>
    requires { (book.now.tasks ≤ 64) × SmallTable (at old.mark) book.now.tasks last.now }
    ensures { result ≡ skipped_by book.now.dropped last.now clock book.now.tasks old }
{
    let mut next = old;
    let mut some = false;
    for i in 0..usize::from(book.tasks) {
        if may_skip(&old.mark, book, last[i], i) {
            next.mark[i] = 2;
            next.start[i] = clock;
            next.end[i] = clock;
            some = true;
        }
    }
    if some { Some(next) } else { None }
}

// Round after round, until nobody was skipped.
pub(crate) fn skip_free(
    old: StepArrays,
    book: &Book,
    last: &[[u8; 8]; 64],
    clock: u32,
) -> StepArrays
    requires { (book.now.tasks ≤ 64) × SmallTable (at old.mark) book.now.tasks last.now }
    ensures { result ≡ rounds_by book.now.tasks book.now.dropped last.now clock book.now.tasks old }
{
    let mut next = old;
    for _n in 0..usize::from(book.tasks) {
        match skip_round(next, book, last, clock) {
            None => return next,
            Some(moved) => next = moved,
        }
    }
    next
}
