// The lines of a plan text: the first line, then line by line, then nothing more.
ghost use Rattle.std.specs.Prelude.{◌≡◌, ◌≤◌, take};
ghost use Rattle.std.proofs.lemmas.List.Edits.{sets};
ghost use Rattle.text.specs.Line.{LF};
ghost use Rattle.laws.specs.Split.{index_of};
ghost use Rattle.plan.specs.Value.{zero_plan};
ghost use Rattle.plan.specs.Read.{lines_of};
ghost use Rattle.plan_read.specs.Mode.{mends, IsRead};
ghost use Rattle.plan_read.specs.Private.Editions.{edition_number, is_mended};
ghost use Rattle.plan_read.specs.Private.Fields.{next_line, with_line, line_said, line_in, FirstRead, ListFits, LineFits, LinesMade};

use crate::fields::{read_line, read_sizes};
use crate::{CutLine, Line, Mode, Sizes};
use plan::{Answer, Plan, Reading, Refusal, refuse};
use text::TEXT_MOST;
use text::part::{LF, find, part_after, part_before, past};
use text::put::put_text;
use text_fields::{Fault, Items};

// The k-th task line, which begins the rest of the text and ends at the first LF.
fn next_line(rest: &[u8], end: usize, sizes: Sizes, k: u32) -> Result<Line, Fault>
    requires { (sizes.tasks ≤ 64) × (end ≡ index_of LF rest.now) }
    ensures { line_in result ≡ next_line (is_mended sizes.edition) (edition_number sizes.edition) sizes.boards sizes.tasks rest.now k }
{
    let line = CutLine {
        text: &rest[..end],
        ended: end < rest.len(),
    };
    read_line(line, sizes, k)
}

pub(crate) fn zero_plan() -> Plan
    ensures { result ≡ zero_plan }
{
    Plan {
        edition: 0,
        boards: 0,
        tasks: 0,
        board: [0u8; 64],
        ready: [0u32; 64],
        begin: [0u32; 64],
        finish: [0u32; 64],
        holds: [0u8; 2048],
        after: [0u8; 4096],
    }
}

// A refused reading gives a plan of zeros.
pub fn refused(answer: Answer) -> Reading
    ensures { result ≡ record { answer = answer; plan = zero_plan } }
{
    Reading {
        answer,
        plan: zero_plan(),
    }
}

// A list's items from a place on.
fn put_items(out: &mut [u8], at: usize, list: Items)
    requires { ListFits out.old at list.count }
    ensures { out.new ≡ sets out.old at (take list.count list.items) }
{
    put_text(out, at, &list.items[..list.count]);
}

// What a line says, as the plan's i-th task from 0.
fn put_line(plan: &mut Plan, i: usize, line: Line)
    requires { LineFits i (line_said line) }
    ensures { plan.new ≡ with_line plan.old i (line_said line) }
{
    plan.board[i] = line.board as u8;
    plan.ready[i] = line.ready;
    plan.begin[i] = line.begin;
    plan.finish[i] = line.finish;
    put_items(&mut plan.holds, 32 * i, line.holds);
    put_items(&mut plan.after, 64 * i, line.after);
}

// The task lines, the rest of the text going on to the next line's reader.
fn read_tasks(plan: &mut Plan, text: &[u8], sizes: Sizes) -> Result<(), Answer>
    requires { (plan.old ≡ zero_plan) × FirstRead (is_mended sizes.edition) text.now (edition_number sizes.edition) sizes.boards sizes.tasks }
    ensures { LinesMade (lines_of (is_mended sizes.edition) text.now) plan.new result }
{
    plan.edition = sizes.edition.number();
    plan.boards = sizes.boards as u8;
    plan.tasks = sizes.tasks as u8;
    let mut rest = part_after(text, LF);
    for k in 0..sizes.tasks {
        let end = find(rest, LF);
        match next_line(rest, end, sizes, k + 1) {
            Ok(line) => put_line(plan, k as usize, line),
            Err(fault) => return Err(refuse(fault.kind.number(), k + 2, fault.column as u32)),
        }
        rest = past(rest, end);
    }
    if !rest.is_empty() {
        return Err(Refusal::BytesLeft.answer(sizes.tasks + 2, 0));
    }
    Ok(())
}

// The plan of zeros becomes the one that the lines make, unless they are refused.
fn fill_plan(plan: &mut Plan, text: &[u8], mode: Mode) -> Result<(), Answer>
    requires { plan.old ≡ zero_plan }
    ensures { LinesMade (lines_of (mends mode) text.now) plan.new result }
{
    if TEXT_MOST < text.len() {
        return Err(Refusal::TextTooLong.answer(0, 0));
    }
    if find(text, LF) == text.len() {
        return Err(Refusal::FirstLine.answer(1, 0));
    }
    let Some(sizes) = read_sizes(part_before(text, LF), mode) else {
        return Err(Refusal::FirstLine.answer(1, 0));
    };
    read_tasks(plan, text, sizes)
}

// The plan becomes the one that the lines make, or a plan of zeros beside the first refusal.
// Its pairs are not examined here. A reading that mends lets shared holds stand.
pub fn read_lines(plan: &mut Plan, text: &[u8], mode: Mode) -> Result<(), Answer>
    ensures { IsRead (lines_of (mends mode) text.now) plan.new result }
{
    *plan = zero_plan();
    match fill_plan(plan, text, mode) {
        Ok(()) => Ok(()),
        Err(answer) => {
            *plan = zero_plan();
            Err(answer)
        }
    }
}
