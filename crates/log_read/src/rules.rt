// The rule that the first line of ends.txt chooses.
ghost use Rattle.std.specs.Prelude.{◌≡◌};
ghost use Rattle.log_read.specs.Said.{chosen};
ghost use Rattle.log_read.specs.Rules.{choice_in, choice_of};

use crate::Choice;
use text::part::{LF, field, find, same};
use text_fields::faults::{check_line, end_fault, word_fault};

// A line without its LF, and whether it had one; or the column at which it is malformed, each of whose faults is a misspelt field.
pub fn read_choice(line: &[u8], ended: bool) -> Result<Choice, usize>
    ensures { chosen result ≡ choice_in ended line.now }
{
    if !same(field(line, 0), b"rule") {
        return Ok(Choice::Unsaid);
    }
    let faults = [
        word_fault(field(line, 0), b"rule"),
        word_fault(field(line, 1), b"clash"),
        end_fault(line, 2, ended),
    ];
    match check_line(line, &faults) {
        Ok(()) => Ok(Choice::Chosen),
        Err(fault) => Err(fault.column),
    }
}

pub fn choose(ends: &[u8]) -> Result<Choice, usize>
    ensures { chosen result ≡ choice_of ends.now }
{
    let end = find(ends, LF);
    read_choice(&ends[..end], end < ends.len())
}
