// Parts of a text, between separators. A part is the caller's own bytes and no copy.
ghost use Rattle.std.specs.Prelude.{◌≡◌, suc, length, drop};
ghost use Rattle.laws.specs.Lists.{same};
ghost use Rattle.laws.specs.Split.{index_of, before, after, skip_on};
ghost use Rattle.text.specs.Line.{TAB, fields, field};

pub const TAB: u8 = 9;

pub const LF: u8 = 10;

// The place of the first c; the length where there is none, so that what stands before it is the whole text.
pub fn find(s: &[u8], c: u8) -> usize
    ensures { result ≡ index_of c s.now }
{
    s.iter().position(|b| *b == c).unwrap_or(s.len())
}

pub fn part_before(s: &[u8], c: u8) -> &[u8]
    ensures { result.now ≡ before c s.now }
{
    let k = find(s, c);
    &s[..k]
}

// What stands past the first k bytes and a separator; nothing where the text ends before.
pub fn past(s: &[u8], k: usize) -> &[u8]
    ensures { result.now ≡ drop (suc k) s.now }
{
    let n = s.len();
    if k < n {
        return &s[k + 1..];
    }
    &s[n..]
}

// Where there is no c, nothing stands after it.
pub fn part_after(s: &[u8], c: u8) -> &[u8]
    ensures { result.now ≡ after c s.now }
{
    past(s, find(s, c))
}

// One field more than there are tabs. This loop can use wide instructions; `filter` and `count` do not.
pub fn count_fields(line: &[u8]) -> usize
    ensures { result ≡ length (fields line.now) }
{
    let mut n = 1;
    for b in line {
        if *b == TAB {
            n += 1;
        }
    }
    n
}

// What is left of a line after its first n fields.
pub fn past_fields(line: &[u8], n: usize) -> &[u8]
    ensures { result.now ≡ skip_on TAB n line.now }
{
    let mut rest = line;
    for _ in 0..n {
        rest = part_after(rest, TAB);
    }
    rest
}

// The n-th field of a line, from 0; past the last, the empty part.
pub fn field(line: &[u8], n: usize) -> &[u8]
    ensures { result.now ≡ field line.now n }
{
    part_before(past_fields(line, n), TAB)
}

pub fn same(s: &[u8], w: &[u8]) -> bool
    ensures { result ≡ same s.now w.now }
{
    s == w
}
