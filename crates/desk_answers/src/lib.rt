// The answers to questions about a book, one of its drives or one of its tasks, into lent bytes that are always long enough.
#![tactic(auto)]

pub mod chain;
pub mod drive;
mod lines;
pub mod running;

ghost use Rattle.std.specs.Prelude.{◌≡◌, cond};
ghost use Rattle.plan.specs.Answer.{is_granted};
ghost use Rattle.log_write.specs.Lines.{refused_line};
ghost use Rattle.log_write.specs.Answers.{Answered};
ghost use Rattle.desk_answers.specs.Answers.{early_answer, exact_answer};

use crate::lines::put_exact;
use ask_exact::exact_early;
use book::Book;
use log_write::{ANSWER_MOST, put_early, put_refused};
use plan::Answer;

// The answer, if it refuses.
fn refusal(answer: Answer) -> Option<Answer>
    ensures { result ≡ cond (is_granted answer) None (Some answer) }
{
    if answer.code == 0 {
        return None;
    }
    Some(answer)
}

// The `refused` line as the whole answer.
pub fn answer_refused(answer: Answer, out: &mut [u8; ANSWER_MOST]) -> usize
    ensures { Answered out.old (refused_line answer) out.new result }
{
    put_refused(out, 0, answer)
}

// A question is a call of its own: its copies of a book are given back before a step needs its part of the stack.
#[inline(never)]
pub fn answer_early(book: &Book, out: &mut [u8; ANSWER_MOST]) -> usize
    ensures { Answered out.old (early_answer book.now) out.new result }
{
    let figure = book.minimum_early();
    if let Some(answer) = refusal(figure.answer) {
        return answer_refused(answer, out);
    }
    put_early(out, 0, book.clock, figure.early)
}

#[inline(never)]
pub fn answer_exact(book: &Book, out: &mut [u8; ANSWER_MOST]) -> usize
    ensures { Answered out.old (exact_answer book.now) out.new result }
{
    let exact = exact_early(*book);
    if let Some(answer) = refusal(exact.answer) {
        return answer_refused(answer, out);
    }
    put_exact(out, 0, book.clock, exact.known.then_some(exact.early))
}
