// The start rule: whoever waits and by the table waits for nobody any more starts, at its ready tick or the clock.
ghost use Rattle.std.specs.Prelude.{◌≡◌, ◌&&◌, ◌<◌, ◌≤◌};
ghost use Rattle.theory.specs.Book.{waiting};
ghost use Rattle.plan.specs.Value.{at};
ghost use Rattle.book.specs.Private.Table.{has_ended, row_ended, SmallRow, SmallTable, starts_by};

use crate::{Book, StepArrays};
use book_view::start_of;

fn has_ended(mark: &[u8; 64], held: u8) -> bool
    requires { held ≤ 64 }
    ensures { result ≡ has_ended (at mark.now) held }
{
    if held == 0 {
        return true;
    }
    let p = usize::from(held - 1);
    mark[p] == 2
}

// Have the last tasks of all boards ended?
fn row_ended(mark: &[u8; 64], row: [u8; 8]) -> bool
    requires { SmallRow row }
    ensures { result ≡ row_ended (at mark.now) row }
{
    for j in 0..8 {
        if !has_ended(mark, row[j]) {
            return false;
        }
    }
    true
}

pub(crate) fn may_go(mark: &[u8; 64], row: [u8; 8], i: usize) -> bool
    requires i_bound { i < 64 }
    requires small_row { at mark.now i ≡ 0 → SmallRow row }
    ensures { result ≡ (waiting (at mark.now) i && row_ended (at mark.now) row) }
{
    if mark[i] != 0 {
        return false;
    }
    row_ended(mark, row)
}

// Whoever may go by the marks as they were: its start is fixed, even if it lies past the clock.
pub(crate) fn start_free(
    old: StepArrays,
    book: &Book,
    last: &[[u8; 8]; 64],
    clock: u32,
) -> StepArrays
    requires { (book.now.tasks ≤ 64) × SmallTable (at old.mark) book.now.tasks last.now }
    ensures { result ≡ starts_by (at book.now.ready) last.now clock book.now.tasks old }
{
    let mut next = old;
    for i in 0..usize::from(book.tasks) {
        if may_go(&old.mark, last[i], i) {
            next.start[i] = start_of(book.ready[i], clock);
            next.mark[i] = 1;
        }
    }
    next
}
