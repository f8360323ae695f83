// A line of ends.txt.
#![tactic(auto)]

pub mod rules;

ghost use Rattle.std.specs.Prelude.{◌≡◌, true, false};
ghost use Rattle.laws.specs.Lists.{same};
ghost use Rattle.text.specs.Bytes.{bytes};
ghost use Rattle.text.specs.Line.{field};
ghost use Rattle.text_fields.specs.Said.{fault_number};
ghost use Rattle.log_read.specs.Said.{said};
ghost use Rattle.log_read.specs.Entries.{entry_of, next_entry};

use text::decimal::NUMBER_MOST;
use text::part::{LF, field, find, same};
use text_fields::Fault;
use text_fields::faults::{check_line, end_fault, read_ranged, word_fault};

// What a line says: a task's end at a tick, or a task that is dropped.
#[derive(Clone, Copy)]
pub enum Entry {
    End(u32, u32),
    Drop(u32),
}

// What the first line says of the rule: nothing, or that it is clash.
#[derive(Clone, Copy)]
pub enum Choice {
    Unsaid,
    Chosen,
}

// Why a line is refused: a number of the table, and the column from 1.
#[derive(Clone, Copy)]
pub struct LineFault {
    pub number: u32,
    pub column: usize,
}

impl From<Fault> for LineFault {
    ghost from_gives = { λ fault line. line ≡ record { number = fault_number fault.kind; column = fault.column } };

    fn from(fault: Fault) -> LineFault {
        LineFault {
            number: fault.kind.number(),
            column: fault.column,
        }
    }
}

// `ended`: whether the line had its LF, a fact handed on.
fn read_end(line: &[u8], ended: bool) -> Result<Entry, LineFault>
    requires { same (field line.now 0) (bytes "drop") ≡ false }
    ensures { said result ≡ entry_of ended line.now }
{
    let task = read_ranged(field(line, 1), 0, NUMBER_MOST);
    let tick = read_ranged(field(line, 2), 0, NUMBER_MOST);
    let faults = [
        word_fault(field(line, 0), b"end"),
        task.err(),
        tick.err(),
        end_fault(line, 3, ended),
    ];
    check_line(line, &faults)?;
    Ok(Entry::End(task.unwrap(), tick.unwrap()))
}

// `ended` as above.
fn read_drop(line: &[u8], ended: bool) -> Result<Entry, LineFault>
    requires { same (field line.now 0) (bytes "drop") ≡ true }
    ensures { said result ≡ entry_of ended line.now }
{
    let task = read_ranged(field(line, 1), 0, NUMBER_MOST);
    let faults = [
        word_fault(field(line, 0), b"drop"),
        task.err(),
        end_fault(line, 2, ended),
    ];
    check_line(line, &faults)?;
    Ok(Entry::Drop(task.unwrap()))
}

// A line without its LF, and whether it had one.
pub fn read_entry(line: &[u8], ended: bool) -> Result<Entry, LineFault>
    ensures { said result ≡ entry_of ended line.now }
{
    if same(field(line, 0), b"drop") {
        return read_drop(line, ended);
    }
    read_end(line, ended)
}

// The line that begins the rest of the text.
pub fn next_entry(rest: &[u8]) -> Result<Entry, LineFault>
    ensures { said result ≡ next_entry rest.now }
{
    let end = find(rest, LF);
    read_entry(&rest[..end], end < rest.len())
}
