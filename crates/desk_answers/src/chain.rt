// Why a task started, link by link.
ghost use Rattle.std.specs.Prelude.{◌≡◌, ◌+◌, ◌*◌, ◌≤◌, length, slice_index_or};
ghost use Rattle.std.specs.Bool.{then_some};
ghost use Rattle.theory.specs.Book.{ended};
ghost use Rattle.plan.specs.Value.{at};
ghost use Rattle.log_write.specs.Answers.{Answered};
ghost use Rattle.log_write.specs.Private.Wrote.{Wrote};
ghost use Rattle.desk_answers.specs.Questions.{link_line, why_answer};
ghost use Rattle.desk_answers.specs.Answers.{lines_each};

use crate::lines::{put_link, put_why};
use crate::{answer_refused, refusal};
use book::Book;
use log_write::ANSWER_MOST;

// What an array has at a place, or what is given for a place past its end.
fn at_or<T: Copy>(array: &[T], i: usize, otherwise: T) -> T
    ensures { result ≡ slice_index_or array.now i otherwise }
{
    array.get(i).copied().unwrap_or(otherwise)
}

// The end of an ended task.
fn end_of(book: &Book, i: usize) -> Option<u32>
    ensures { result ≡ then_some (ended (at book.now.mark) i) (at book.now.end i) }
{
    (at_or(&book.mark, i, 0) == 2).then_some(at_or(&book.end, i, 0))
}

fn put_one(out: &mut [u8], at: usize, task: u8, book: &Book) -> usize
    requires { at + 52 ≤ length out.old }
    ensures { Wrote out.old at (link_line book.now task) 52 out.new result }
{
    let i = usize::from(task).saturating_sub(1);
    put_link(
        out,
        at,
        u32::from(task),
        at_or(&book.board, i, 0),
        at_or(&book.start, i, 0),
        end_of(book, i),
    )
}

fn put_links(out: &mut [u8], links: &[u8], book: &Book) -> usize
    requires { (length links.now ≤ 64) × (3328 ≤ length out.old) }
    ensures { Wrote out.old 0 (lines_each (link_line book.now) links.now) (52 * length links.now) out.new result }
{
    let mut place = 0;
    for &task in links {
        place = put_one(out, place, task, book);
    }
    place
}

#[inline(never)]
pub fn answer_why(book: &Book, task: u32, out: &mut [u8; ANSWER_MOST]) -> usize
    ensures { Answered out.old (why_answer book.now task) out.new result }
{
    let chain = ask_why::why(*book, task);
    if let Some(answer) = refusal(chain.answer) {
        return answer_refused(answer, out);
    }
    // a chain has room for 64 links
    let count = chain.count.min(64) as usize;
    let place = put_links(out, &chain.links[..count], book);
    put_why(out, place, task, chain.count)
}
