// The log of a morning, as bytes.
#![tactic(auto)]

pub mod answers;
mod ends;
mod starts;
pub mod told;

ghost use Rattle.std.specs.Prelude.{◌≡◌, ◌≤◌, length};
ghost use Rattle.std.proofs.lemmas.List.Edits.{sets};
ghost use Rattle.plan.specs.Read.{reading_of};
ghost use Rattle.book.specs.Open.{opening_of};
ghost use Rattle.log_read.specs.Said.{chosen};
ghost use Rattle.log_read.specs.Rules.{choice_of};
ghost use Rattle.log_write.specs.Private.Wrote.{Wrote};
ghost use Rattle.log_run.specs.Log.{chosen_log, log_most, log_in};
ghost use Rattle.log_run.specs.Private.Room.{LogFits};
ghost use Rattle.log_run.specs.Private.Writes.{rule_of};

use book::{Book, BookResult, Rule, open_book};
use ends::put_ends;
use log_read::Choice;
use log_read::rules::choose;
use log_write::put_refused;
use plan::{Answer, Plan, Reading, Refusal, refuse};
use plan_read::read_plan;
use text::TEXT_MOST;
use text::part::{LF, part_after};
use text_fields::FieldFault;
use told::{early_after, put_opened};

// A buffer of this length is always long enough.
pub const LOG_MOST: usize = 212992;

// An answer, the book after it, and that book's figure M. All count whatever the answer: a refused line leaves the book as it was.
#[derive(Clone, Copy)]
pub struct StepOutcome {
    pub answer: Answer,
    pub book: Book,
    pub early: u32,
}

// An answer, the book after it, and how many bytes were written. All count whatever the answer, as above.
#[derive(Drop)]
pub struct LogResult {
    pub answer: Answer,
    pub book: Book,
    pub length: usize,
}

// The rule that a book is opened by.
fn rule_of(choice: &Result<Choice, usize>) -> Rule
    ensures { result ≡ rule_of (chosen choice.now) }
{
    match choice {
        Ok(Choice::Chosen) => Rule::Clash,
        Ok(Choice::Unsaid) | Err(_) => Rule::EarlyStart,
    }
}

// Calls of their own: their parts of the stack are given back before the ends are read.
#[inline(never)]
fn read(plan: &[u8]) -> Reading
    ensures { result ≡ reading_of plan.now }
{
    read_plan(plan)
}

#[inline(never)]
fn open(plan: &Plan, rule: Rule) -> BookResult
    ensures { result ≡ opening_of plan.now rule }
{
    open_book(*plan, rule)
}

// In a call of its own, so that `run_log` holds nothing but what was read of the plan.
#[inline(never)]
fn run_chosen(plan: &Plan, ends: &[u8], out: &mut [u8]) -> usize
    requires { LogFits plan.now ends.now out.old }
    ensures { Wrote out.old 0 (chosen_log (choice_of ends.now) plan.now ends.now) log_most out.new result }
{
    let choice = choose(ends);
    let opening = open(plan, rule_of(&choice));
    let early = early_after(opening.answer, &opening.book);
    let at = put_opened(out, &opening.book, early);
    match choice {
        Ok(Choice::Unsaid) => put_ends(out, at, &opening.book, 1, ends),
        Ok(Choice::Chosen) => put_ends(out, at, &opening.book, 2, part_after(ends, LF)),
        Err(column) => put_refused(
            out,
            at,
            refuse(FieldFault::Misspelt.number(), 1, column as u32),
        ),
    }
}

// Nothing is written where the buffer is shorter than LOG_MOST.
#[inline(never)]
pub fn run_log(plan: &[u8], ends: &[u8], out: &mut [u8]) -> usize
    ensures { (result ≡ length (log_in (length out.old) plan.now ends.now)) × (out.new ≡ sets out.old 0 (log_in (length out.old) plan.now ends.now)) × (result ≤ log_most) }
{
    if out.len() < LOG_MOST {
        return 0;
    }
    let reading = read(plan);
    if reading.answer.code != 0 {
        return put_refused(out, 0, reading.answer);
    }
    if TEXT_MOST < ends.len() {
        return put_refused(out, 0, Refusal::TextTooLong.answer(0, 0));
    }
    run_chosen(&reading.plan, ends, out)
}
