// What ends.txt prints, line by line.
ghost use Rattle.log_write.specs.Private.Wrote.{Wrote};
ghost use Rattle.log_run.specs.Log.{rest_log};
ghost use Rattle.log_run.specs.Private.Room.{ends_most, EndsFit};

use crate::told::{put_told, tell_in_place, untold};
use book::Book;
use log_read::next_entry;
use text::part::{LF, part_after};

// The rest of the text, from its line's number on, and the book go on to the next line. A line that is refused by itself is the last.
// It goes on by the rest of the text, as its definition does.
pub(crate) fn put_ends(out: &mut [u8], at: usize, book: &Book, mut line: u32, ends: &[u8]) -> usize
    requires { EndsFit out.old at book.now line ends.now }
    ensures { Wrote out.old at (rest_log book.now line ends.now) (ends_most book.now ends.now) out.new result }
{
    let mut told = untold(book);
    let mut place = at;
    let mut rest = ends;
    while !rest.is_empty() {
        let entry = next_entry(rest);
        let old = told.book.mark;
        tell_in_place(line, &mut told, &entry);
        place = put_told(out, place, &entry, &old, &told);
        if entry.is_err() {
            return place;
        }
        rest = part_after(rest, LF);
        line += 1;
    }
    place
}
