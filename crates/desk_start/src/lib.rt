// The desk's start: the log of the folder, whether the desk goes on, and the morning after ends.txt.
#![tactic(auto)]

ghost use Rattle.std.specs.Prelude.{◌≡◌, ◌≤◌, length};
ghost use Rattle.std.proofs.lemmas.List.Edits.{sets};
ghost use Rattle.std.specs.Prelude.{Ok};
ghost use Rattle.book.specs.Open.{opening_of};
ghost use Rattle.log_read.specs.Said.{said};
ghost use Rattle.log_run.specs.Log.{told_of, log_most};
ghost use Rattle.desk_start.specs.Start.{line_end, text_in, walk_from, walked_of, way_of, start_log, begun_of};

use book::{Book, BookResult, Rule, drop_in_place, open_book, report_in_place};
use desk_turns::Morning;
use log_read::rules::choose;
use log_read::{Choice, Entry, next_entry};
use log_run::{LOG_MOST, run_log};
use plan::{Plan, Reading};
use plan_read::read_plan;
use text::TEXT_MOST;
use text::part::{LF, part_after};

// A refused plan ends the desk; a log that stops in ends.txt is a failure; else the desk goes on.
#[derive(Drop)]
pub enum Way {
    Refused,
    Stops,
    Goes,
}

// Whether the log of a text stops in it, and the book that its lines lead to: a text that stops has one too.
#[derive(Drop)]
pub struct EndsResult {
    pub stops: bool,
    pub book: Book,
}

// How the desk goes on, how many bytes the log has, and the morning.
#[derive(Drop)]
pub struct DeskOpening {
    pub way: Way,
    pub length: usize,
    pub morning: Morning,
}

// The place after the last LF. By index: what the library says of `rposition` is a run, and not that its place is the last.
fn lines_end(ends: &[u8]) -> usize
    ensures { result ≡ line_end ends.now (length ends.now) }
{
    for i in (0..ends.len()).rev() {
        if ends[i] == LF {
            return i + 1;
        }
    }
    0
}

// Whether a text is too long is asked of the whole of it.
fn text_of<'a>(ends: &'a [u8]) -> &'a [u8]
    ensures { result.now ≡ text_in ends.now }
{
    if TEXT_MOST < ends.len() {
        return ends;
    }
    let end = lines_end(ends);
    &ends[..end]
}

// What a line says is done where the book stands.
fn take(book: &mut Book, entry: Entry)
    ensures { book.new ≡ (told_of 0 book.old (said (Ok entry))).book }
{
    match entry {
        Entry::End(task, tick) => {
            report_in_place(book, task, tick);
        }
        Entry::Drop(task) => {
            drop_in_place(book, task);
        }
    }
}

// Line by line, up to one that is refused by itself.
fn walk(mut book: Book, text: &[u8]) -> EndsResult
    ensures { result ≡ walk_from (length text.now) book text.now }
{
    for line in text.split_inclusive(|byte| *byte == LF) {
        let Ok(entry) = next_entry(line) else {
            return EndsResult { stops: true, book };
        };
        take(&mut book, entry);
    }
    EndsResult { stops: false, book }
}

fn opened(plan: Plan, rule: Rule) -> Book
    ensures { result ≡ (opening_of plan rule).book }
{
    let BookResult { book, .. } = open_book(plan, rule);
    book
}

fn walk_text(plan: Plan, text: &[u8]) -> EndsResult
    ensures { result ≡ walked_of plan text.now }
{
    match choose(text) {
        Ok(Choice::Unsaid) => walk(opened(plan, Rule::EarlyStart), text),
        Ok(Choice::Chosen) => walk(opened(plan, Rule::Clash), part_after(text, LF)),
        Err(_) => EndsResult {
            stops: true,
            book: opened(plan, Rule::EarlyStart),
        },
    }
}

// From here on the plan's code and the stop in ends.txt are one `Way`.
fn way_of(code: u32, stops: bool) -> Way
    ensures { result ≡ way_of code stops }
{
    if code != 0 {
        return Way::Refused;
    }
    if stops {
        return Way::Stops;
    }
    Way::Goes
}

pub fn begin(plan: &[u8], ends: &[u8], out: &mut [u8; LOG_MOST]) -> DeskOpening
    ensures { (result ≡ begun_of plan.now ends.now) × (out.new ≡ sets out.old 0 (start_log plan.now ends.now)) × (result.length ≤ log_most) }
{
    let text = text_of(ends);
    let length = run_log(plan, text, out);
    let Reading {
        answer,
        plan: planned,
    } = read_plan(plan);
    let EndsResult { stops, book } = walk_text(planned, text);
    let way = way_of(answer.code, (TEXT_MOST < ends.len()) | stops);
    DeskOpening {
        way,
        length,
        morning: Morning {
            book,
            kept: text.len(),
        },
    }
}
