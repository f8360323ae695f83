// For every task and every board, the last task waited for, counted from 1; 0 for none: a byte a cell, where an `Option` would take two.
ghost use Rattle.std.specs.Prelude.{◌≡◌, ◌<◌, ◌≤◌};
ghost use Rattle.laws.specs.Private.Last.{later_of};
ghost use Rattle.plan.specs.Value.{at};
ghost use Rattle.book.specs.Private.Table.{plan_by, OnEight, RowTo, TableTo};

use crate::Book;
use book_view::is_in;

// k + 1 where the place holds nobody or one whose key is less, else what the place holds.
pub(crate) fn later_of(key: &[u32; 64], held: u8, k: usize) -> u8
    requires { (held ≤ 64) × (k < 64) }
    ensures { result ≡ later_of (at key.now) held k }
{
    let this = (k + 1) as u8;
    if held == 0 {
        return this;
    }
    let p = usize::from(held - 1);
    if key[p] < key[k] {
        return this;
    }
    held
}

// For every board, the last task that the task waits for.
fn row_of(book: &Book, waits: &[u64; 64], i: usize) -> [u8; 8]
    requires tasks_bound { (book.now.tasks ≤ 64) × (i < 64) }
    requires on_eight { OnEight (plan_by book.now waits.now) (at book.now.board) }
    ensures { RowTo (plan_by book.now waits.now) (at book.now.board) i book.now.tasks result }
{
    let awaited = waits[i];
    let mut row = [0u8; 8];
    for k in 0..usize::from(book.tasks) {
        if is_in(awaited, k) {
            let j = usize::from(book.board[k] - 1);
            row[j] = later_of(&book.finish, row[j], k);
        }
    }
    row
}

// The rows of those who wait; nobody asks for the others.
pub(crate) fn last_tasks(book: &Book, waits: &[u64; 64], mark: &[u8; 64]) -> [[u8; 8]; 64]
    requires tasks_bound { book.now.tasks ≤ 64 }
    requires on_eight { OnEight (plan_by book.now waits.now) (at book.now.board) }
    ensures { TableTo (plan_by book.now waits.now) (at book.now.board) (at mark.now) book.now.tasks result }
{
    let mut last = [[0u8; 8]; 64];
    for i in 0..usize::from(book.tasks) {
        if mark[i] == 0 {
            last[i] = row_of(book, waits, i);
        }
    }
    last
}
