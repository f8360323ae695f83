// A drive sheet beside its book: made, kept through reports, asked. Whoever holds a sound book may keep its sheet without judging the book again.
#![tactic(auto)]

pub mod drop;

ghost use Rattle.std.specs.Prelude.{◌≡◌, cond, length, ◌<◌, eqb};
ghost use Rattle.plan.specs.Value.{row};
ghost use Rattle.ask_sheet.specs.Sets.{renewed_by};
ghost use Rattle.ask_drives.specs.Sheets.{sheet_in, made_of, reported_with, no_drive, on_drive_of, standing_in, updated_in};
ghost use Rattle.ask_drives.specs.Seen.{seen_of};

use ask_sheet::{Sheet, Standing, fresh_sheet, is_same, renew_sheet, standing_of, zero_sheet};
use book::{Book, BookResult, is_sound, report_in_place};
use book_holders::holders_of;
use plan::{Answer, Refusal, granted};

// An answer, and the sheet.
#[repr(C)]
#[derive(Drop)]
pub struct SheetResult {
    pub answer: Answer,
    pub sheet: Sheet,
}

// An answer and the book after it, and its sheet.
#[repr(C)]
#[derive(Drop)]
pub struct BookAndSheet {
    pub result: BookResult,
    pub sheet: Sheet,
}

// An answer; running holders by rising number, 0 past the last; the next holder, or 0.
#[repr(C)]
#[derive(Drop)]
pub struct OnDrive {
    pub answer: Answer,
    pub running: [u8; 8],
    pub next: u8,
}

// Who holds each drive, and who runs and who waits.
#[derive(Drop)]
pub struct SheetCheck {
    pub held: [u64; 32],
    pub before: Standing,
}

// Who runs and who waits in a book.
pub fn standing(book: &Book) -> Standing
    ensures { result ≡ standing_in book.now }
{
    standing_of(&book.view())
}

// The sheet of a book that is not judged.
pub fn fresh(book: &Book) -> Sheet
    ensures { result ≡ sheet_in book.now }
{
    let holders = holders_of(&book.holds);
    fresh_sheet(&holders.held, &book.begin, standing(book))
}

// The update alone: who ran and waited before, and the book after.
pub fn renewed(sheet: Sheet, before: Standing, book: &Book) -> Sheet
    ensures { result ≡ updated_in sheet before book.now }
{
    let holders = holders_of(&book.holds);
    renew_sheet(sheet, &holders.held, &book.begin, before, standing(book))
}

pub fn make_sheet(book: Book) -> SheetResult
    ensures { result ≡ made_of book }
{
    if !is_sound(&book) {
        return SheetResult {
            answer: Refusal::Unsound.answer(0, 0),
            sheet: zero_sheet(),
        };
    }
    SheetResult {
        answer: granted(),
        sheet: fresh(&book),
    }
}

// What is looked at before a step, as a refusal where the sheet is not the book's. Who holds which drive is worked out once a call,
// since no step moves it.
#[inline(never)]
pub fn seen_in(book: &Book, sheet: Sheet) -> Result<SheetCheck, SheetCheck>
    ensures { result ≡ seen_of book.now sheet }
{
    let holders = holders_of(&book.holds);
    let before = standing(book);
    let own = is_same(sheet, fresh_sheet(&holders.held, &book.begin, before));
    let seen = SheetCheck {
        held: holders.held,
        before,
    };
    if own { Ok(seen) } else { Err(seen) }
}

// The sheet after an accepted step, by the book after it; else as it was.
#[inline(always)]
pub fn kept_sheet(answer: Answer, sheet: Sheet, seen: &SheetCheck, book: &Book) -> Sheet
    ensures { result ≡ cond (eqb answer.code 0) (renewed_by seen.now.held book.now.begin seen.now.before (standing_in book.now) sheet) sheet }
{
    if answer.code != 0 {
        return sheet;
    }
    renew_sheet(sheet, &seen.held, &book.begin, seen.before, standing(book))
}

// The same where the sheet stands. A call of its own: its part of the stack is not there while the step is made.
#[inline(never)]
pub(crate) fn keep_sheet(sheet: &mut Sheet, answer: Answer, seen: &SheetCheck, book: &Book)
    ensures { sheet.new ≡ cond (eqb answer.code 0) (renewed_by seen.now.held book.now.begin seen.now.before (standing_in book.now) sheet.old) sheet.old }
{
    *sheet = kept_sheet(answer, *sheet, seen, book);
}

// A report where the book and its sheet stand. A call of its own, so that the stack holds one book more.
#[inline(never)]
fn report_kept(both: &mut BookAndSheet, task: u32, tick: u32)
    requires { length both.old.result.book.holds ≡ 2048 }
    ensures { both.new ≡ reported_with both.old.result.book both.old.sheet task tick }
{
    let Ok(seen) = seen_in(&both.result.book, both.sheet) else {
        both.result.answer = Refusal::Unsound.answer(0, 0);
        return;
    };
    let answer = report_in_place(&mut both.result.book, task, tick);
    both.result.answer = answer;
    keep_sheet(&mut both.sheet, answer, &seen, &both.result.book);
}

pub fn report_sheet(book: Book, sheet: Sheet, task: u32, tick: u32) -> BookAndSheet
    ensures { result ≡ reported_with book sheet task tick }
{
    let mut both = BookAndSheet {
        result: BookResult {
            answer: granted(),
            book,
        },
        sheet,
    };
    report_kept(&mut both, task, tick);
    both
}

// The eight places of drive d + 1.
fn line_at(running: &[u8; 256], d: usize) -> [u8; 8]
    requires { d < 32 }
    ensures { result ≡ row 8 running.now d }
{
    let all = &running[..];
    let mut line = [0u8; 8];
    let s = 8 * d;
    line.copy_from_slice(&all[s..s + 8]);
    line
}

fn refused(answer: Answer) -> OnDrive
    ensures { result ≡ no_drive answer }
{
    OnDrive {
        answer,
        running: [0; 8],
        next: 0,
    }
}

pub fn on_drive(book: Book, sheet: Sheet, drive: u32) -> OnDrive
    ensures { result ≡ on_drive_of book sheet drive }
{
    let seen = seen_in(&book, sheet);
    if !(is_sound(&book) & seen.is_ok()) {
        return refused(Refusal::Unsound.answer(0, 0));
    }
    if !((1 <= drive) & (drive <= 32)) {
        return refused(Refusal::NoDrive.answer(drive, 0));
    }
    let d = (drive - 1) as usize;
    OnDrive {
        answer: granted(),
        running: line_at(&sheet.running, d),
        next: sheet.next[d],
    }
}
