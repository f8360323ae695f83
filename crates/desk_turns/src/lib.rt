// One line at the desk: what is answered, whether it is kept, and the morning after it.
#![tactic(auto)]

ghost use Rattle.std.specs.Prelude.{◌≡◌, ◌+◌, ◌≤◌, leb};
ghost use Rattle.book.specs.View.{plan_in};
ghost use Rattle.log_read.specs.Said.{said};
ghost use Rattle.log_run.specs.Private.Writes.{Short};
ghost use Rattle.log_write.specs.Lines.{refused_line};
ghost use Rattle.desk_turns.specs.Turns.{saying, entry_turn, rule_turn, turn_of, Took};
ghost use Rattle.desk_turns.specs.Private.Taken.{unmoved, taken_or, full_answer};

use book::{Book, BookResult, Rule, open_book};
use desk_answers::chain::answer_why;
use desk_answers::drive::answer_drive;
use desk_answers::running::answer_now;
use desk_answers::{answer_early, answer_exact, answer_refused};
use desk_read::{DeskLine, read_asked};
use log_read::{Entry, LineFault};
use log_run::answers::{log_entry, log_opening};
use log_run::told::tell_entry;
use log_run::{LogResult, StepOutcome};
use log_write::ANSWER_MOST;
use plan::{Answer, Plan, Refusal};
use text::TEXT_MOST;

// The book, and how many bytes ends.txt has.
#[derive(Clone, Copy)]
pub struct Morning {
    pub book: Book,
    pub kept: usize,
}

// The morning after a line, how many bytes its answer has, and whether the line is kept: one that is not has all three too.
#[derive(Drop)]
pub struct Turn {
    pub morning: Morning,
    pub length: usize,
    pub keeps: bool,
}

// Has ends.txt room for a line of so many bytes and its LF? A sum could wrap.
fn has_room(kept: usize, length: usize) -> bool
    ensures { result ≡ leb (kept + length + 1) 32768 }
{
    if TEXT_MOST <= length {
        return false;
    }
    kept <= TEXT_MOST - 1 - length
}

// A question or a refusal changes nothing. The length comes first: the answer is written from the morning's book.
fn said(length: usize, morning: Morning) -> Turn
    ensures { result ≡ unmoved morning length }
{
    Turn {
        morning,
        length,
        keeps: false,
    }
}

// What is accepted is kept; what is refused is not.
fn taken(morning: Morning, answer: Answer, book: Book, size: usize, length: usize) -> Turn
    requires { morning.kept + size + 1 ≤ 32768 }
    ensures { result ≡ taken_or morning answer book size length }
{
    if answer.code != 0 {
        return said(length, morning);
    }
    let kept = morning.kept + size + 1;
    let after = Morning { book, kept };
    Turn {
        morning: after,
        length,
        keeps: true,
    }
}

// Where ends.txt has no room, what would be accepted is refused by 1.
fn full(morning: Morning, answer: Answer, out: &mut [u8; ANSWER_MOST]) -> Turn
    ensures { Took out.old (saying morning (refused_line (full_answer answer))) out.new result }
{
    if answer.code != 0 {
        return said(answer_refused(answer, out), morning);
    }
    said(
        answer_refused(Refusal::TextTooLong.answer(0, 0), out),
        morning,
    )
}

// Line `number`, of so many bytes, as one of ends.txt.
fn take_entry(
    morning: Morning,
    number: u32,
    size: usize,
    entry: Result<Entry, LineFault>,
    out: &mut [u8; ANSWER_MOST],
) -> Turn
    requires { Short (said entry) }
    ensures { Took out.old (entry_turn morning number size (said entry)) out.new result }
{
    if !has_room(morning.kept, size) {
        let StepOutcome { answer, .. } = tell_entry(number, &morning.book, &entry);
        return full(morning, answer, out);
    }
    let LogResult {
        answer,
        book,
        length,
    } = log_entry(number, &morning.book, &entry, out);
    taken(morning, answer, book, size, length)
}

// The plan that a book is on.
fn plan_of(book: &Book) -> Plan
    ensures { result ≡ plan_in book.now }
{
    let Book {
        edition,
        boards,
        tasks,
        board,
        ready,
        begin,
        finish,
        holds,
        after,
        ..
    } = *book;
    Plan {
        edition,
        boards,
        tasks,
        board,
        ready,
        begin,
        finish,
        holds,
        after,
    }
}

fn take_rule(morning: Morning, size: usize, out: &mut [u8; ANSWER_MOST]) -> Turn
    ensures { Took out.old (rule_turn morning size) out.new result }
{
    let plan = plan_of(&morning.book);
    if !has_room(morning.kept, size) {
        let BookResult { answer, .. } = open_book(plan, Rule::Clash);
        return full(morning, answer, out);
    }
    let LogResult {
        answer,
        book,
        length,
    } = log_opening(plan, Rule::Clash, out);
    taken(morning, answer, book, size, length)
}

// Line `number` of standard input without its LF, and whether it had one.
pub fn take_line(
    morning: Morning,
    number: u32,
    line: &[u8],
    ended: bool,
    out: &mut [u8; ANSWER_MOST],
) -> Turn
    ensures { Took out.old (turn_of morning number ended line.now) out.new result }
{
    match read_asked(line, ended, morning.kept == 0) {
        Ok(DeskLine::Step(entry)) => take_entry(morning, number, line.len(), Ok(entry), out),
        Ok(DeskLine::Rule) => take_rule(morning, line.len(), out),
        Ok(DeskLine::Early) => said(answer_early(&morning.book, out), morning),
        Ok(DeskLine::Exact) => said(answer_exact(&morning.book, out), morning),
        Ok(DeskLine::Now) => said(answer_now(&morning.book, out), morning),
        Ok(DeskLine::Drive(drive)) => said(answer_drive(&morning.book, drive, out), morning),
        Ok(DeskLine::Why(task)) => said(answer_why(&morning.book, task, out), morning),
        Err(fault) => take_entry(morning, number, line.len(), Err(fault), out),
    }
}
