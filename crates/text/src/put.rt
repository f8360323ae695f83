// Writing a text into lent bytes: all of it where it fits from `at`, and otherwise nothing. Each answers the place after what it wrote.
ghost use Rattle.std.specs.Prelude.{◌≡◌, [], ◌∷◌, ◌+◌, leb};
ghost use Rattle.laws.specs.Digits.{digits_of};
ghost use Rattle.text.specs.Put.{Put};

use crate::wide::put_wide;

// Is there room for n bytes from `at`? A sum could wrap, so the room is what is left after `at`.
pub(crate) fn has_room(len: usize, at: usize, n: usize) -> bool
    ensures { result ≡ leb (at + n) len }
{
    at <= len && n <= len - at
}

pub fn put_byte(out: &mut [u8], at: usize, b: u8) -> usize
    ensures { Put out.old at (b ∷ []) out.new result }
{
    if out.len() <= at {
        return at;
    }
    out[at] = b;
    at + 1
}

pub fn put_text(out: &mut [u8], at: usize, s: &[u8]) -> usize
    ensures { Put out.old at s.now out.new result }
{
    if !has_room(out.len(), at, s.len()) {
        return at;
    }
    // not `copy_from_slice`: of two slices that a caller lends that needs `memmove` from outside
    for i in 0..s.len() {
        out[at + i] = s[i];
    }
    at + s.len()
}

pub fn put_number(out: &mut [u8], at: usize, n: u32) -> usize
    ensures { Put out.old at (digits_of n) out.new result }
{
    put_wide(out, at, u64::from(n))
}
