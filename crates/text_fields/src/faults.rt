// The fault of a line: the faults of its fields, the worst of them, and the column where the leftmost such field begins.
ghost use Rattle.std.specs.Prelude.{◌≡◌, ◌+◌, eqb, map};
ghost use Rattle.laws.specs.Lists.{all_of};
ghost use Rattle.laws.specs.Split.{begin_of};
ghost use Rattle.text.specs.Line.{TAB};
ghost use Rattle.text_fields.specs.Faults.{ranged_read, word_code, end_code, fault_of};
ghost use Rattle.text_fields.specs.Said.{fault_number, code_in, ranged_in, fault_in};
ghost use Rattle.text_fields.specs.Private.Place.{place_in};

use crate::{Coded, Fault, FieldFault};
use text::decimal::read_number;
use text::part::{count_fields, past_fields};

const WORST_FIRST: [FieldFault; 4] = [
    FieldFault::Misspelt,
    FieldFault::OutOfRange,
    FieldFault::Shared,
    FieldFault::ReadyLate,
];

// A number from low to high.
pub fn read_ranged(field: &[u8], low: u32, high: u32) -> Result<u32, FieldFault>
    ensures { ranged_in result ≡ ranged_read low high field.now }
{
    let (value, _) = read_number(field)?;
    if value < low || high < value {
        return Err(FieldFault::OutOfRange);
    }
    Ok(value)
}

pub fn word_fault(field: &[u8], word: &[u8]) -> Option<FieldFault>
    ensures { code_in result ≡ word_code word.now field.now }
{
    if field == word {
        None
    } else {
        Some(FieldFault::Misspelt)
    }
}

// A line of n fields has no field more, and is ended by its LF.
pub fn end_fault(line: &[u8], n: usize, ended: bool) -> Option<FieldFault>
    ensures { code_in result ≡ end_code ended n line.now }
{
    if ended && count_fields(line) <= n {
        None
    } else {
        Some(FieldFault::Misspelt)
    }
}

pub fn is_faultless<C: Coded>(faults: &[C]) -> bool
    ensures { result ≡ all_of (eqb 0) (map C.code_of faults.now) }
{
    faults.iter().all(|fault| fault.code() == 0)
}

// The leftmost field of that fault.
fn place_of<C: Coded>(faults: &[C], kind: FieldFault) -> Option<usize>
    ensures { result ≡ place_in (fault_number kind) (map C.code_of faults.now) }
{
    faults
        .iter()
        .position(|fault| fault.code() == kind.number())
}

// Where the field at that place begins, from 1.
fn column_at(line: &[u8], place: usize) -> usize
    ensures { result ≡ begin_of TAB line.now place + 1 }
{
    let rest = past_fields(line, place);
    line.len() - rest.len() + 1
}

// The worst of its fields' faults refuses a line; a code that is none of the four refuses nothing. Most lines have none, so only a
// faulty one is searched.
pub fn check_line<C: Coded>(line: &[u8], faults: &[C]) -> Result<(), Fault>
    ensures { fault_in result ≡ fault_of line.now (map C.code_of faults.now) }
{
    if is_faultless(faults) {
        return Ok(());
    }
    for kind in WORST_FIRST {
        if let Some(place) = place_of(faults, kind) {
            let column = column_at(line, place);
            return Err(Fault { kind, column });
        }
    }
    Ok(())
}
