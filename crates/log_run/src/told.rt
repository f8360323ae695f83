// What a line of ends.txt is answered, and what it prints; likewise of opening.
ghost use Rattle.std.specs.Prelude.{◌≡◌, cond, eqb, true, ◌+◌, ◌*◌, ◌<◌, ◌≤◌, min, length};
ghost use Rattle.book.specs.Early.{figure_of};
ghost use Rattle.plan.specs.Answer.{refuse};
ghost use Rattle.book.specs.Sound.{is_sound};
ghost use Rattle.log_read.specs.Said.{said};
ghost use Rattle.log_write.specs.Private.Wrote.{Wrote};
ghost use Rattle.log_run.specs.Answers.{within};
ghost use Rattle.log_run.specs.Log.{shown_after, told_of};
ghost use Rattle.log_run.specs.Private.Writes.{started, opened_in, ended_in, Named, lines_in, lines_most, told_in, told_most};

use crate::StepOutcome;
use crate::starts::put_starts;
use book::{Book, drop_in_place, report_in_place};
use book_codes::least_early;
use log_read::{Entry, LineFault};
use log_write::{put_drop, put_early, put_end, put_refused, put_run};
use plan::{Answer, granted, refuse};

// What is answered by 0 has a sound book, so the book is not judged again for its figure.
pub(crate) fn early_after(answer: Answer, book: &Book) -> u32
    requires { answer.code ≡ 0 → is_sound book.now ≡ true }
    ensures { result ≡ cond (eqb answer.code 0) (figure_of book.now).early 0 }
{
    if answer.code != 0 {
        return 0;
    }
    least_early(&book.view())
}

// The answer to a step that is made, beside the book after it.
fn show(told: &mut StepOutcome, answer: Answer)
    requires { answer.code ≡ 0 → is_sound told.old.book ≡ true }
    ensures { told.new ≡ shown_after answer told.old.book }
{
    let early = early_after(answer, &told.book);
    told.answer = answer;
    told.early = early;
}

// The answer to a line with this fault: a column past 32 bits is told as the greatest number.
fn refused(line: u32, fault: &LineFault) -> Answer
    ensures { result ≡ refuse fault.now.number line (min fault.now.column 4294967295) }
{
    let column = fault.column.min(u32::MAX as usize);
    refuse(fault.number, line, column as u32)
}

// The step is made where the book stands, so that the stack holds one.
pub(crate) fn tell_in_place(line: u32, told: &mut StepOutcome, entry: &Result<Entry, LineFault>)
    ensures { told.new ≡ told_of line told.old.book (within (said entry.now)) }
{
    match entry {
        Ok(Entry::End(task, tick)) => {
            let answer = report_in_place(&mut told.book, *task, *tick);
            show(told, answer);
        }
        Ok(Entry::Drop(task)) => {
            let answer = drop_in_place(&mut told.book, *task);
            show(told, answer);
        }
        Err(fault) => {
            told.answer = refused(line, fault);
            told.early = 0;
        }
    }
}

// A book that was told nothing yet.
pub(crate) fn untold(book: &Book) -> StepOutcome
    ensures { result ≡ record { answer = refuse 0 0 0; book = book.now; early = 0 } }
{
    StepOutcome {
        answer: granted(),
        book: *book,
        early: 0,
    }
}

// What a line is answered.
pub fn tell_entry(line: u32, book: &Book, entry: &Result<Entry, LineFault>) -> StepOutcome
    ensures { result ≡ told_of line book.now (within (said entry.now)) }
{
    let mut told = untold(book);
    tell_in_place(line, &mut told, entry);
    told
}

// Opened: the `run` line, the starts that are known then, and an `early` line.
pub(crate) fn put_opened(out: &mut [u8], book: &Book, early: u32) -> usize
    requires { (book.now.tasks ≤ 64) × (3432 ≤ length out.old) }
    ensures { Wrote out.old 0 (opened_in book.now early) 3432 out.new result }
{
    let next = put_run(out, 0, book.rule, book.boards, book.tasks);
    let last = put_starts(out, next, &[0; 64], book);
    put_early(out, last, book.clock, early)
}

// The `end` line of a task, and the starts that it caused.
fn put_ended(out: &mut [u8], at: usize, task: u32, old: &[u8; 64], book: &Book) -> usize
    requires { (0 < task) × (task ≤ 64) × (book.now.tasks ≤ 64) × (at + 3380 ≤ length out.old) }
    ensures { Wrote out.old at (ended_in task old.now book.now) (52 + 52 * started old.now book.now) out.new result }
{
    let k = (task - 1) as usize;
    let next = put_end(out, at, task, book.board[k], book.finish[k], book.end[k]);
    put_starts(out, next, old, book)
}

// The lines that an accepted entry causes, but for the last.
fn put_lines(
    out: &mut [u8],
    at: usize,
    entry: &Result<Entry, LineFault>,
    old: &[u8; 64],
    book: &Book,
) -> usize
    requires { (at + 3380 ≤ length out.old) × Named (within (said entry.now)) book.now.tasks }
    ensures { Wrote out.old at (lines_in (within (said entry.now)) old.now book.now) (lines_most (within (said entry.now)) (started old.now book.now)) out.new result }
{
    match entry {
        Ok(Entry::End(task, _)) => put_ended(out, at, *task, old, book),
        Ok(Entry::Drop(task)) => put_drop(out, at, *task, book.board[(*task - 1) as usize]),
        Err(_) => at,
    }
}

// A `refused` line, or the lines of what is accepted and an `early` line.
pub(crate) fn put_told(
    out: &mut [u8],
    at: usize,
    entry: &Result<Entry, LineFault>,
    old: &[u8; 64],
    told: &StepOutcome,
) -> usize
    requires { (at + 3432 ≤ length out.old) × (told.now.answer.code ≡ 0 → Named (within (said entry.now)) told.now.book.tasks) }
    ensures { Wrote out.old at (told_in (within (said entry.now)) old.now told.now) (told_most (within (said entry.now)) old.now told.now) out.new result }
{
    if told.answer.code != 0 {
        return put_refused(out, at, told.answer);
    }
    let next = put_lines(out, at, entry, old, &told.book);
    put_early(out, next, told.book.clock, told.early)
}
