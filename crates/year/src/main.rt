// The program: a list of folder names on standard input, each with plan.txt and log.txt; the report of their totals out.
#![tactic(auto)]

ghost use Rattle.std.specs.Prelude.{◌≡◌};
ghost use Rattle.year_rules.specs.Totals.{zero_totals};
ghost use Rattle.year_write.specs.Report.{year_text};

use files::both::READ_MOST;
use files::list::{Line, ListPart};
use files::say::{Say, Told};
use files::{NAME_MOST, print};
use std::fmt::InlineText;
use std::rt::Files;
use year_folders::add_folder;
use year_rules::{LOGS_MOST, Totals};
use year_write::{REPORT_MOST, write_report};

// How many logs are done between two notes.
const NOTED: u64 = 100;

// How much of the list is read at once.
const PART: usize = 4096;

// No note is longer.
const NOTE_MOST: usize = 64;

fn no_logs() -> Totals
    ensures { result ≡ zero_totals }
{
    Totals {
        accepted: 0,
        refused: 0,
        ended: [0; 8],
        sum: [0; 8],
        greatest: [0; 8],
        least: [0; 8],
    }
}

// The front of the buffer is the whole report, whatever the totals hold. `past` is whether names were left over: a fact handed on.
fn put_report<'o>(totals: Totals, past: bool, out: &'o mut [u8; REPORT_MOST]) -> &'o [u8]
    ensures { result.now ≡ year_text past totals }
{
    let length = write_report(totals, past, out);
    &out[..length]
}

fn logs_in(totals: &Totals) -> u64 {
    u64::from(totals.accepted) + u64::from(totals.refused)
}

// How many logs are done, which the command shows on a terminal. It is no failure, so it begins with a word of its own.
fn note(rt: &impl Say, done: u64) {
    if done % NOTED == 0 {
        let words: InlineText<NOTE_MOST> = InlineText::of(format_args!(
            "note: {done} logs are done\n"
        ));
        rt.say(words.as_str().as_bytes());
    }
}

// One line of the list; one that is longer than the room is said as far as it was read.
fn add_line(
    rt: &(impl Files + Say),
    line: Line<'_>,
    plan: &mut [u8],
    log: &mut [u8],
    totals: &mut Totals,
) -> Result<(), Told> {
    if line.is_over {
        rt.say(line.name);
        rt.say(b": longer than a path may be\n");
        return Err(Told);
    }
    add_folder(rt, line.name, plan, log, totals)?;
    note(rt, logs_in(totals));
    Ok(())
}

// Whether the list has more names than logs may be. From the 10,001st name on nothing is opened. A proved loop has to end, so the turns are counted.
fn read_list(rt: &(impl Input + Files + Say), totals: &mut Totals) -> Result<bool, Told> {
    let mut name = [0u8; NAME_MOST];
    let mut list = ListPart::new();
    let mut part = [0u8; PART];
    let mut plan = [0u8; READ_MOST];
    let mut log = [0u8; READ_MOST];
    for _ in 0..u64::MAX {
        let Some(line) = list.next_line(rt, &mut name, &mut part)? else {
            return Ok(false);
        };
        if line.name.is_empty() {
            rt.say(b"LIST: a line is empty\n");
            return Err(Told);
        }
        if LOGS_MOST <= logs_in(totals) {
            return Ok(true);
        }
        add_line(rt, line, &mut plan, &mut log, totals)?;
    }
    Ok(false)
}

// Nothing is printed before the whole list is read.
fn run(rt: &(impl Input + Files + Print + Say)) -> Result<(), Told> {
    let mut totals = no_logs();
    let past = read_list(rt, &mut totals)?;
    let mut out = [0u8; REPORT_MOST];
    print(rt, put_report(totals, past, &mut out))
}

// The exit status is 0 after a failure too.
fn main(rt: HostRuntime) {
    let _ = run(&rt);
}
