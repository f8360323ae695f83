// Numbers of a text: decimal digits with no leading zero, except `0` itself.
ghost use Rattle.std.specs.Prelude.{◌≡◌, ◌+◌, ◌-◌, ◌*◌, ◌≤◌, min, length};
ghost use Rattle.laws.specs.Lists.{all_of};
ghost use Rattle.laws.specs.Digits.{digits_of};
ghost use Rattle.text.specs.Number.{is_digit, is_number, number_stop, number_of};
ghost use Rattle.text.specs.Private.Spelling.{starts_well};

use crate::{NumberFault, wide};

// No number of a text is larger, and no tick.
pub const NUMBER_MOST: u32 = 1000000;

const HELD: u32 = 1000001;

fn is_digit(b: u8) -> bool
    ensures { result ≡ is_digit b }
{
    b.is_ascii_digit()
}

fn all_digits(s: &[u8]) -> bool
    ensures { result ≡ all_of is_digit s.now }
{
    s.iter().all(|b| is_digit(*b))
}

// Neither empty nor with a leading zero.
fn starts_well(field: &[u8]) -> bool
    ensures { result ≡ starts_well field.now }
{
    let n = field.len();
    if n == 0 {
        return false;
    }
    !((1 < n) & (field[0] == b'0'))
}

pub fn is_number(field: &[u8]) -> bool
    ensures { result ≡ is_number field.now }
{
    if !starts_well(field) {
        return false;
    }
    all_digits(field)
}

// One digit more, held at 1,000,001, so that no field is too long to read.
fn grown(v: u32, b: u8) -> u32
    requires { (v ≤ 1000001) × (48 ≤ b) × (b ≤ 57) }
    ensures { result ≡ min (v * 10 + (b - 48)) 1000001 }
{
    (v * 10 + u32::from(b - b'0')).min(HELD)
}

// Spelling and value in one walk. A leading zero is itself read.
pub fn read_number(field: &[u8]) -> Result<(u32, usize), NumberFault>
    ensures { result ≡ number_of field.now }
{
    if !starts_well(field) {
        return Err(NumberFault::Misspelt(field.len().min(1)));
    }
    let mut v = 0;
    for (i, b) in field.iter().enumerate() {
        if !is_digit(*b) {
            return Err(NumberFault::Misspelt(i));
        }
        v = grown(v, *b);
    }
    if v <= NUMBER_MOST {
        Ok((v, field.len()))
    } else {
        Err(NumberFault::Over(field.len()))
    }
}

pub fn number_stop(field: &[u8]) -> usize
    ensures { result ≡ number_stop field.now }
{
    match read_number(field) {
        Ok((_, stop)) => stop,
        Err(fault) => fault.stop(),
    }
}

// How many digits n has.
pub fn width(n: u32) -> usize
    ensures { result ≡ length (digits_of n) }
{
    wide::width(u64::from(n))
}
