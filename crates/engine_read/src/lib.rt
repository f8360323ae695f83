// What lengths.txt says: each task's length and the dropped tasks, or what refuses the text.
#![tactic(auto)]

ghost use Rattle.std.specs.Prelude.{◌≡◌, ◌≤◌, []};
ghost use Rattle.text_fields.specs.Said.{ranged_in};
ghost use Rattle.engine_read.specs.Said.{entry_line, line_in};
ghost use Rattle.engine_read.specs.Lines.{marked, line_said};
ghost use Rattle.engine_read.specs.Private.Read.{task_read, length_said, drop_said};
ghost use Rattle.engine_read.specs.Whole.{told_in, asked_not, asked_by, asked_of};
ghost use Rattle.engine_read.specs.Private.Noted.{planned_in, note_of, lengths_told, Names, LinesFit};

use book::Rule;
use engine::Lengths;
use log_read::Choice;
use log_read::rules::choose;
use plan::{Answer, Refusal, few, granted, refuse};
use text::TEXT_MOST;
use text::decimal::NUMBER_MOST;
use text::part::{LF, field, find, part_after, same};
use text_fields::faults::{check_line, end_fault, read_ranged, word_fault};
use text_fields::{Fault, FieldFault};

// What a line says: a task's length in ticks, or a task that is dropped.
#[derive(Clone, Copy)]
pub enum LengthEntry {
    Length(u32, u32),
    Drop(u32),
}

// No task past the array's end is marked.
fn is_marked(marks: &[u8], task: u32) -> bool
    requires { 1 ≤ task }
    ensures { result ≡ marked marks.now task }
{
    let i = (task - 1) as usize;
    marks.get(i).copied() == Some(1)
}

// Out of range too for a task that has 1 among the marks.
fn read_task(field: &[u8], tasks: u8, marks: &[u8]) -> Result<u32, FieldFault>
    ensures { ranged_in result ≡ task_read tasks (marked marks.now) field.now }
{
    let task = read_ranged(field, 1, u32::from(tasks))?;
    if is_marked(marks, task) {
        return Err(FieldFault::OutOfRange);
    }
    Ok(task)
}

// `ended`: whether the line had its LF, a fact handed on.
fn read_length(line: &[u8], ended: bool, tasks: u8, known: &[u8]) -> Result<LengthEntry, Fault>
    ensures { line_in result ≡ length_said tasks (marked known.now) ended line.now }
{
    let task = read_task(field(line, 1), tasks, known);
    let ticks = read_ranged(field(line, 2), 0, NUMBER_MOST);
    let faults = [
        word_fault(field(line, 0), b"length"),
        task.err(),
        ticks.err(),
        end_fault(line, 3, ended),
    ];
    check_line(line, &faults)?;
    Ok(LengthEntry::Length(task.unwrap(), ticks.unwrap()))
}

// `ended` as above.
fn read_drop(line: &[u8], ended: bool, tasks: u8, dropped: &[u8]) -> Result<LengthEntry, Fault>
    ensures { line_in result ≡ drop_said tasks (marked dropped.now) ended line.now }
{
    let task = read_task(field(line, 1), tasks, dropped);
    let faults = [
        word_fault(field(line, 0), b"drop"),
        task.err(),
        end_fault(line, 2, ended),
    ];
    check_line(line, &faults)?;
    Ok(LengthEntry::Drop(task.unwrap()))
}

// The line that begins the rest of the text. An unknown word is read as a `length` line's.
pub fn next_said(rest: &[u8], tasks: u8, known: &[u8], dropped: &[u8]) -> Result<LengthEntry, Fault>
    ensures { line_in result ≡ line_said tasks (marked known.now) (marked dropped.now) rest.now }
{
    let end = find(rest, LF);
    let line = &rest[..end];
    let ended = end < rest.len();
    if same(field(line, 0), b"drop") {
        return read_drop(line, ended, tasks, dropped);
    }
    read_length(line, ended, tasks, known)
}

// What is asked of the engine, beside the answer: of a refused text too both are promised, Early Start and zeros.
#[derive(Drop)]
pub struct EngineInput {
    pub answer: Answer,
    pub rule: Rule,
    pub given: Lengths,
}

// known: 1 for a task that had a `length` line. Two of the arrays are those of the C struct `Lengths`.
#[derive(Drop)]
struct LengthNotes {
    length: [u32; 64],
    dropped: [u8; 64],
    known: [u8; 64],
}

impl LengthNotes {
    // Keeps what a line says of its task.
    fn note(&mut self, entry: LengthEntry)
        requires { Names 64 (entry_line entry) }
        ensures { self.new ≡ note_of self.old (entry_line entry) }
    {
        match entry {
            LengthEntry::Length(task, ticks) => {
                let i = (task - 1) as usize;
                self.length[i] = ticks;
                self.known[i] = 1;
            }
            LengthEntry::Drop(task) => {
                let i = (task - 1) as usize;
                self.dropped[i] = 1;
            }
        }
    }
}

fn planned(tasks: u8, begin: &[u32; 64], finish: &[u32; 64]) -> [u32; 64]
    requires { tasks ≤ 64 }
    ensures { result ≡ planned_in tasks begin.now finish.now }
{
    let mut length = [0; 64];
    for i in 0..usize::from(tasks) {
        length[i] = finish[i].saturating_sub(begin[i]);
    }
    length
}

fn asks_nothing(answer: Answer) -> EngineInput
    ensures { result ≡ asked_not answer }
{
    EngineInput {
        answer,
        rule: Rule::EarlyStart,
        given: Lengths {
            length: [0; 64],
            dropped: [0; 64],
        },
    }
}

// The rest of the text goes on to the next line, from its line's number on. The first line that is refused is the last.
fn said_lengths(
    tasks: u8,
    begin: &[u32; 64],
    finish: &[u32; 64],
    mut line: u32,
    text: &[u8],
) -> Result<Lengths, Answer>
    requires { LinesFit tasks line text.now }
    ensures { result ≡ lengths_told tasks begin.now finish.now (told_in tasks line [] text.now) }
{
    let mut noted = LengthNotes {
        length: planned(tasks, begin, finish),
        dropped: [0; 64],
        known: [0; 64],
    };
    let mut rest = text;
    while !rest.is_empty() {
        match next_said(rest, tasks, &noted.known, &noted.dropped) {
            Ok(entry) => noted.note(entry),
            Err(fault) => return Err(refuse(fault.kind.number(), line, fault.column as u32)),
        }
        rest = part_after(rest, LF);
        line += 1;
    }
    Ok(Lengths {
        length: noted.length,
        dropped: noted.dropped,
    })
}

// The lines from that number on, by the rule that was chosen before them.
fn read_lines(
    tasks: u8,
    begin: &[u32; 64],
    finish: &[u32; 64],
    rule: Rule,
    line: u32,
    text: &[u8],
) -> EngineInput
    requires { LinesFit tasks line text.now }
    ensures { result ≡ asked_by rule tasks begin.now finish.now (told_in tasks line [] text.now) }
{
    match said_lengths(tasks, begin, finish, line, text) {
        Ok(given) => EngineInput {
            answer: granted(),
            rule,
            given,
        },
        Err(answer) => asks_nothing(answer),
    }
}

// The text, by the plan's tasks and planned times.
pub fn read_lengths(tasks: u8, begin: &[u32; 64], finish: &[u32; 64], text: &[u8]) -> EngineInput
    ensures { result ≡ asked_of tasks begin.now finish.now text.now }
{
    if TEXT_MOST < text.len() {
        return asks_nothing(Refusal::TextTooLong.answer(0, 0));
    }
    let n = few(tasks);
    let choice = choose(text);
    match choice {
        Ok(Choice::Unsaid) => read_lines(n, begin, finish, Rule::EarlyStart, 1, text),
        Ok(Choice::Chosen) => read_lines(n, begin, finish, Rule::Clash, 2, part_after(text, LF)),
        Err(column) => asks_nothing(refuse(FieldFault::Misspelt.number(), 1, column as u32)),
    }
}
