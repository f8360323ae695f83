// The program: plan.txt and ends.txt, then standard input line by line. Every byte that is printed comes from `begin` and `take_line`, and a line is kept before its answer is printed.
#![tactic(auto)]

mod keeping;

ghost use Rattle.std.specs.Prelude.{◌≡◌, ◌≤◌, take};
ghost use Rattle.io.specs.Counts.{IsPrefixLen};
ghost use Rattle.desk_turns.specs.Turns.{turn_of};
ghost use Rattle.desk_start.specs.Start.{start_log, begun_of};
ghost use Rattle.desk.specs.Printed.{TurnIs};

use arrayvec::ArrayVec;
use desk_start::{DeskOpening, Way, begin};
use desk_turns::{Morning, Turn, take_line};
use files::both::{READ_MOST, read_both};
use files::say::{Say, Told};
use files::{print, read_piece};
use keeping::{cut, keep};
use log_run::LOG_MOST;
use log_write::ANSWER_MOST;
use std::io::Write;
use std::rt::Files;
use text::part::LF;

// A line as it is typed, piece by piece. Of one that is too long its first bytes are enough to tell.
type TypedLine = ArrayVec<u8, 65>;

// The morning, the number of the line that is being typed, and what is typed of it.
#[derive(Drop)]
struct Session {
    morning: Morning,
    number: u32,
    typed: TypedLine,
}

// The first bytes of the buffer are the whole log, whatever the two texts are. A call of its own: its part of the stack is given back before the first line.
#[inline(never)]
fn put_start(plan: &[u8], ends: &[u8], out: &mut [u8; LOG_MOST]) -> DeskOpening
    ensures prefix_len { IsPrefixLen result.length out.new }
    ensures value { (result ≡ begun_of plan.now ends.now) × (take result.length out.new ≡ start_log plan.now ends.now) }
{
    begin(plan, ends, out)
}

// The first bytes of the buffer are the whole answer, whatever the line is. `ended`: whether it had its LF, a fact handed on.
fn put_turn(
    morning: Morning,
    number: u32,
    line: &[u8],
    ended: bool,
    out: &mut [u8; ANSWER_MOST],
) -> Turn
    ensures prefix_len { IsPrefixLen result.length out.new }
    ensures turn_is { TurnIs (turn_of morning number ended line.now) out.new result }
{
    take_line(morning, number, line, ended, out)
}

// A line that is kept is on the disk before its answer is printed; where it cannot be kept, nothing is. Lines are counted from 1, up to the largest number that can be told.
fn answer(rt: &(impl Files + Print + Say), session: &mut Session, ended: bool) -> Result<(), Told> {
    let mut out = [0u8; ANSWER_MOST];
    let turn = put_turn(
        session.morning,
        session.number,
        session.typed.as_slice(),
        ended,
        &mut out,
    );
    if turn.keeps {
        keep(rt, &session.typed)?;
    }
    print(rt, &out[..turn.length])?;
    session.morning = turn.morning;
    session.number = session.number.saturating_add(1);
    session.typed.clear();
    Ok(())
}

// As much of a part as there is room for.
fn type_on(typed: &mut TypedLine, part: &[u8]) {
    let _ = typed.write(part);
}

// The lines that end in a piece, each answered before the next is looked at.
fn serve(rt: &(impl Files + Print + Say), session: &mut Session, piece: &[u8]) -> Result<(), Told> {
    for part in piece.split_inclusive(|byte| *byte == LF) {
        match part.strip_suffix(&[LF]) {
            Some(line) => {
                type_on(&mut session.typed, line);
                answer(rt, session, true)?;
            }
            None => type_on(&mut session.typed, part),
        }
    }
    Ok(())
}

// Until standard input ends. A last line without its LF is answered, and never taken. A proved loop has to end, so the pieces are counted.
fn listen(rt: &(impl Input + Files + Print + Say), morning: Morning) -> Result<(), Told> {
    let mut session = Session {
        morning,
        number: 1,
        typed: ArrayVec::new(),
    };
    let mut room = [0u8; 4096];
    for _ in 0..u64::MAX {
        let piece = read_piece(rt, &mut room)?;
        if piece.is_empty() {
            break;
        }
        serve(rt, &mut session, piece)?;
    }
    if !session.typed.is_empty() {
        answer(rt, &mut session, false)?;
    }
    Ok(())
}

// What follows the last LF of ends.txt is cut off, where the desk goes on.
fn cut_tail(rt: &(impl Files + Say), begun: &DeskOpening, length: usize) -> Result<(), Told>
    requires { length ≤ 32769 }
{
    match begun.way {
        Way::Goes if begun.morning.kept < length => cut(rt, begun.morning.kept),
        Way::Goes | Way::Refused | Way::Stops => Ok(()),
    }
}

// Nothing is printed before both files are read and ends.txt has its whole lines alone.
fn run(rt: &(impl Input + Files + Print + Say)) -> Result<(), Told> {
    let mut plan = [0u8; READ_MOST];
    let mut ends = [0u8; READ_MOST];
    let read = read_both(rt, b"ends.txt", &mut plan, &mut ends)?;
    let mut out = [0u8; LOG_MOST];
    let begun = put_start(read.plan, read.text, &mut out);
    cut_tail(rt, &begun, read.text.len())?;
    print(rt, &out[..begun.length])?;
    match begun.way {
        Way::Refused => Ok(()),
        Way::Stops => {
            rt.say(b"ends.txt: runlog stops in it; nothing was changed\n");
            Ok(())
        }
        Way::Goes => listen(rt, begun.morning),
    }
}

// The exit status is 0 after a failure too.
fn main(rt: HostRuntime) {
    let _ = run(&rt);
}
