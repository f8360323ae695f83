// Which tasks run now, a start past the clock too.
ghost use Rattle.std.specs.Prelude.{◌≡◌, ◌+◌, ◌-◌, ◌<◌, ◌≤◌, length};
ghost use Rattle.log_write.specs.Answers.{Answered};
ghost use Rattle.desk_answers.specs.Answers.{now_answer};
ghost use Rattle.desk_answers.specs.Private.Arrays.{LimitsFit, Running};

use crate::answer_refused;
use crate::lines::{put_now, put_runs};
use book::{Book, is_sound};
use book_view::limit_of;
use log_write::ANSWER_MOST;
use plan::Refusal;

// The place after the lines, and how many there are.
#[derive(Drop)]
pub(crate) struct LinesWritten {
    pub place: usize,
    pub count: u32,
}

fn short_limit(begin: u32, finish: u32, start: u32) -> u32
    requires { start + (finish - begin) < 4294967296 }
    ensures { result ≡ start + (finish - begin) }
{
    limit_of(begin, finish, start) as u32
}

// A line for each task that runs, by rising number.
fn put_running(out: &mut [u8], book: &Book) -> LinesWritten
    requires { (book.now.tasks ≤ 64) × (3328 ≤ length out.old) × LimitsFit book.now }
    ensures { Running book.now out.old book.now.tasks out.new result.place result.count }
{
    let mut place = 0;
    let mut count = 0;
    let tasks = usize::from(book.tasks);
    for i in 0..tasks {
        if book.mark[i] == 1 {
            let limit = short_limit(book.begin[i], book.finish[i], book.start[i]);
            place = put_runs(
                out,
                place,
                (i + 1) as u32,
                book.board[i],
                book.start[i],
                limit,
            );
            count += 1;
        }
    }
    LinesWritten { place, count }
}

#[inline(never)]
pub fn answer_now(book: &Book, out: &mut [u8; ANSWER_MOST]) -> usize
    ensures { Answered out.old (now_answer book.now) out.new result }
{
    if !is_sound(book) {
        return answer_refused(Refusal::Unsound.answer(0, 0), out);
    }
    let written = put_running(out, book);
    put_now(out, written.place, book.clock, written.count)
}
