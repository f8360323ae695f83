// The digits of a number of up to 64 bits: counted, and written.
ghost use Rattle.std.specs.Prelude.{◌≡◌, length};
ghost use Rattle.laws.specs.Digits.{digits_of};
ghost use Rattle.text.specs.Put.{Put};

use crate::put::has_room;

// How many digits n has. Not a `for`: how often ten goes into n is what is counted.
pub(crate) fn width(n: u64) -> usize
    ensures { result ≡ length (digits_of n) }
{
    let mut w = 1;
    let mut rest = n;
    while 10 <= rest {
        rest /= 10;
        w += 1;
    }
    w
}

// The digits of n, from the last to the first, in as many places.
fn put_digits(out: &mut [u8], n: u64)
    requires { length out.old ≡ length (digits_of n) }
    ensures { out.new ≡ digits_of n }
{
    let mut rest = n;
    for i in (1..out.len()).rev() {
        out[i] = b'0' + (rest % 10) as u8;
        rest /= 10;
    }
    out[0] = b'0' + rest as u8;
}

// All of its digits where they fit from `at`, and otherwise nothing.
pub fn put_wide(out: &mut [u8], at: usize, n: u64) -> usize
    ensures { Put out.old at (digits_of n) out.new result }
{
    let w = width(n);
    if !has_room(out.len(), at, w) {
        return at;
    }
    put_digits(&mut out[at..at + w], n);
    at + w
}
