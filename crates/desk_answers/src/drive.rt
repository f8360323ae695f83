// Who is on a drive now, and who is next.
ghost use Rattle.std.specs.Prelude.{◌≡◌, not, ◌∷◌, ◌+◌, ◌*◌, ◌≤◌, eqb, length};
ghost use Rattle.laws.specs.Digits.{digits_of};
ghost use Rattle.text.specs.Line.{number_or};
ghost use Rattle.text_fields.specs.Items.{list_text};
ghost use Rattle.plan.specs.Value.{items};
ghost use Rattle.log_write.specs.Answers.{Answered};
ghost use Rattle.log_write.specs.Private.Wrote.{Wrote};
ghost use Rattle.desk_answers.specs.Questions.{drive_line, drive_answer};

use crate::{answer_refused, refusal};
use ask_drives::{SheetResult, make_sheet, on_drive};
use book::Book;
use log_write::ANSWER_MOST;
use text::part::{LF, TAB, part_before};
use text::put::{put_byte, put_number, put_text};

const COMMA: u8 = b',';

// A byte and a number.
fn put_after(out: &mut [u8], at: usize, byte: u8, n: u32) -> usize
    requires { at + 11 ≤ length out.old }
    ensures { Wrote out.old at (byte ∷ digits_of n) 11 out.new result }
{
    let next = put_byte(out, at, byte);
    put_number(out, next, n)
}

// Task numbers joined by commas, or a dash, after a tab.
fn put_items(out: &mut [u8], at: usize, items: &[u8]) -> usize
    requires { at + 2 + 11 * length items.now ≤ length out.old }
    ensures { Wrote out.old at (9 ∷ list_text digits_of items.now) (2 + 11 * length items.now) out.new result }
{
    let Some((first, others)) = items.split_first() else {
        return put_text(out, at, b"\t-");
    };
    let mut place = put_after(out, at, TAB, u32::from(*first));
    for task in others {
        place = put_after(out, place, COMMA, u32::from(*task));
    }
    place
}

// A task's number, or a dash for 0, after a tab: the library's struct has 0 for nobody.
fn put_next(out: &mut [u8], at: usize, task: u8) -> usize
    requires { at + 11 ≤ length out.old }
    ensures { Wrote out.old at (9 ∷ number_or (not (eqb task 0)) task) 11 out.new result }
{
    if task == 0 {
        return put_text(out, at, b"\t-");
    }
    put_after(out, at, TAB, u32::from(task))
}

fn put_drive(out: &mut [u8; ANSWER_MOST], drive: u32, running: &[u8; 8], next: u8) -> usize
    ensures { Answered out.old (drive_line drive (items running.now) next) out.new result }
{
    let past_word = put_text(out, 0, b"drive");
    let past_drive = put_after(out, past_word, TAB, drive);
    let past_items = put_items(out, past_drive, part_before(running, 0));
    let past_next = put_next(out, past_items, next);
    put_byte(out, past_next, LF)
}

#[inline(never)]
pub fn answer_drive(book: &Book, drive: u32, out: &mut [u8; ANSWER_MOST]) -> usize
    ensures { Answered out.old (drive_answer book.now drive) out.new result }
{
    let SheetResult { sheet, .. } = make_sheet(*book);
    let on = on_drive(*book, sheet, drive);
    if let Some(answer) = refusal(on.answer) {
        return answer_refused(answer, out);
    }
    put_drive(out, drive, &on.running, on.next)
}
