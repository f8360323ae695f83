// A list of names on standard input, line by line.
ghost use Rattle.std.specs.Prelude.{◌≡◌, ◌≤◌, length, IfOk, IfSome};

use crate::read_piece;
use crate::say::{Say, Told};
use text::part::LF;

// What is left of the part of the list that the caller lends: its bytes from `at` to `filled`. Memory is fixed: std's `BufReader`
// needs a heap.
#[derive(Drop)]
pub struct ListPart {
    pub at: usize,
    pub filled: usize,
}

// A line of the list; of one that is longer than the room for it, as much as there is room for, which is said.
#[derive(Drop)]
pub struct Line<'n> {
    pub name: &'n [u8],
    pub is_over: bool,
}

impl ListPart {
    // Of a list of which nothing is read yet.
    pub fn new() -> ListPart
        ensures { result ≡ record { at = 0; filled = 0 } }
    {
        ListPart { at: 0, filled: 0 }
    }

    // The next byte, and none at the end of the list. Where the part has been taken, or is not so long, the next one is read.
    fn next(&mut self, rt: &(impl Input + Say), part: &mut [u8]) -> Result<Option<u8>, Told>
        ensures { self.new.filled ≤ length part.new }
    {
        if self.at >= self.filled || self.filled > part.len() {
            // nothing is left of it where the next one cannot be read
            (self.at, self.filled) = (0, 0);
            self.filled = read_piece(rt, part)?.len();
        }
        if self.filled == 0 {
            return Ok(None);
        }
        let byte = part[self.at];
        self.at += 1;
        Ok(Some(byte))
    }

    // The bytes up to the next LF, or to the end of the list.
    pub fn next_line<'n>(
        &mut self,
        rt: &(impl Input + Say),
        name: &'n mut [u8],
        part: &mut [u8],
    ) -> Result<Option<Line<'n>>, Told>
        ensures line { IfOk result (λ found. IfSome found (λ line. length line.name.now ≤ length name.old)) }
        ensures part { self.new.filled ≤ length part.new }
    {
        let mut length = 0;
        while let Some(byte) = self.next(rt, part)? {
            let ends = byte == LF;
            if ends || length >= name.len() {
                return Ok(Some(Line {
                    name: &name[..length],
                    is_over: !ends,
                }));
            }
            name[length] = byte;
            length += 1;
        }
        if length == 0 {
            return Ok(None);
        }
        Ok(Some(Line {
            name: &name[..length],
            is_over: false,
        }))
    }
}
