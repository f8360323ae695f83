// A line that is typed at the desk: what it asks, or its fault.
#![tactic(auto)]

ghost use Rattle.std.specs.Prelude.{◌≡◌, [], ◌∷◌, IfOk};
ghost use Rattle.text.specs.Number.{value_of, most};
ghost use Rattle.text.specs.Line.{field};
ghost use Rattle.text_fields.specs.Faults.{field_code, line_codes, fault_of};
ghost use Rattle.text_fields.specs.Said.{fault_in};
ghost use Rattle.desk_read.specs.Asked.{asked};
ghost use Rattle.desk_read.specs.Lines.{word_asked, asked_of};

use log_read::rules::read_choice;
use log_read::{Choice, Entry, LineFault, read_entry};
use text::decimal::NUMBER_MOST;
use text::part::{field, same};
use text_fields::faults::{check_line, end_fault, read_ranged, word_fault};
use text_fields::{Fault, FieldFault};

// A line has no more bytes before its LF.
pub const TYPED_MOST: usize = 64;

// What a line asks: what a line of ends.txt says, the clash rule, or one of the questions.
#[derive(Clone, Copy)]
pub enum DeskLine {
    Step(Entry),
    Rule,
    Early,
    Exact,
    Now,
    Drive(u32),
    Why(u32),
}

// A line that is a word alone. `ended`: whether it had its LF, a fact handed on.
fn read_word(line: &[u8], word: &[u8], ended: bool) -> Result<(), Fault>
    ensures { fault_in result ≡ fault_of line.now (line_codes word.now [] ended line.now) }
{
    let faults = [word_fault(field(line, 0), word), end_fault(line, 1, ended)];
    check_line(line, &faults)
}

// The number of a line that is a word and a number. `ended` as above.
fn read_number(line: &[u8], word: &[u8], ended: bool) -> Result<u32, Fault>
    ensures fault { fault_in result ≡ fault_of line.now (line_codes word.now (field_code 0 most ∷ []) ended line.now) }
    ensures number { IfOk result (λ n. n ≡ value_of (field line.now 1)) }
{
    let number = read_ranged(field(line, 1), 0, NUMBER_MOST);
    let faults = [
        word_fault(field(line, 0), word),
        number.err(),
        end_fault(line, 2, ended),
    ];
    check_line(line, &faults)?;
    Ok(number.unwrap())
}

// By its word; any other is an `end` or a `drop` line. `ended` as above.
fn by_word(line: &[u8], ended: bool) -> Result<DeskLine, LineFault>
    ensures { asked result ≡ word_asked ended line.now }
{
    let word = field(line, 0);
    if same(word, b"early") {
        read_word(line, b"early", ended)?;
        return Ok(DeskLine::Early);
    }
    if same(word, b"exact") {
        read_word(line, b"exact", ended)?;
        return Ok(DeskLine::Exact);
    }
    if same(word, b"now") {
        read_word(line, b"now", ended)?;
        return Ok(DeskLine::Now);
    }
    if same(word, b"drive") {
        let drive = read_number(line, b"drive", ended)?;
        return Ok(DeskLine::Drive(drive));
    }
    if same(word, b"why") {
        let task = read_number(line, b"why", ended)?;
        return Ok(DeskLine::Why(task));
    }
    let entry = read_entry(line, ended)?;
    Ok(DeskLine::Step(entry))
}

// A line that is misspelt there.
fn misspelt(column: usize) -> LineFault
    ensures { result ≡ record { number = 3; column = column } }
{
    LineFault {
        number: FieldFault::Misspelt.number(),
        column,
    }
}

// A line without its LF and whether it had one, and whether the rule may still be chosen.
pub fn read_asked(line: &[u8], ended: bool, free: bool) -> Result<DeskLine, LineFault>
    ensures { asked result ≡ asked_of free ended line.now }
{
    if TYPED_MOST < line.len() {
        return Err(misspelt(TYPED_MOST + 1));
    }
    if !free {
        return by_word(line, ended);
    }
    match read_choice(line, ended) {
        Ok(Choice::Unsaid) => by_word(line, ended),
        Ok(Choice::Chosen) => Ok(DeskLine::Rule),
        Err(column) => Err(misspelt(column)),
    }
}
