// What is printed for one line, or at opening, into lent bytes that are always long enough.
ghost use Rattle.std.specs.Prelude.{◌≡◌};
ghost use Rattle.log_read.specs.Said.{said};
ghost use Rattle.log_write.specs.Answers.{Answered};
ghost use Rattle.log_run.specs.Answers.{within, entry_log, logged_of, opening_log, opening_logged};

use crate::told::{early_after, put_opened, put_told, tell_entry};
use crate::{LogResult, StepOutcome};
use book::{Book, BookResult, Rule, open_book};
use log_read::{Entry, LineFault};
use log_write::{ANSWER_MOST, put_refused};
use plan::Plan;

// What a line prints.
pub fn log_entry(
    line: u32,
    book: &Book,
    entry: &Result<Entry, LineFault>,
    out: &mut [u8; ANSWER_MOST],
) -> LogResult
    ensures { (result ≡ logged_of line book.now (within (said entry.now))) × Answered out.old (entry_log line book.now (within (said entry.now))) out.new result.length }
{
    let told = tell_entry(line, book, entry);
    let length = put_told(out, 0, entry, &book.mark, &told);
    let StepOutcome { answer, book, .. } = told;
    LogResult {
        answer,
        book,
        length,
    }
}

// A plan that is not accepted has its `refused` line.
pub fn log_opening(plan: Plan, rule: Rule, out: &mut [u8; ANSWER_MOST]) -> LogResult
    ensures { (result ≡ opening_logged plan rule) × Answered out.old (opening_log plan rule) out.new result.length }
{
    let BookResult { answer, book } = open_book(plan, rule);
    let length = if answer.code != 0 {
        put_refused(out, 0, answer)
    } else {
        put_opened(out, &book, early_after(answer, &book))
    };
    LogResult {
        answer,
        book,
        length,
    }
}
