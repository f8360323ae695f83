// The `start` and `skip` lines, where the caller has seen that there is room.
ghost use Rattle.std.specs.Prelude.{◌+◌, ◌*◌, ◌≤◌, length};
ghost use Rattle.log_write.specs.Private.Wrote.{Wrote};
ghost use Rattle.log_run.specs.Private.Writes.{starts_in, started};

use book::Book;
use log_write::put_start;

// Of the tasks that waited by the marks `old` and wait no longer, by rising number.
pub(crate) fn put_starts(out: &mut [u8], at: usize, old: &[u8; 64], book: &Book) -> usize
    requires { (book.now.tasks ≤ 64) × (at + 3328 ≤ length out.old) }
    ensures { Wrote out.old at (starts_in old.now book.now book.now.tasks) (52 * started old.now book.now) out.new result }
{
    // A book that a loop reads is kept whole on the stack, so its arrays are taken out first.
    let mark = book.mark;
    let dropped = book.dropped;
    let board = book.board;
    let begin = book.begin;
    let start = book.start;
    let mut place = at;
    for i in 0..book.tasks as usize {
        if (old[i] != 0) | (mark[i] == 0) {
            continue;
        }
        place = put_start(
            out,
            place,
            dropped[i],
            i as u32 + 1,
            board[i],
            begin[i],
            start[i],
        );
    }
    place
}
