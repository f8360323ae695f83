// A drop with book and sheet.
ghost use Rattle.std.specs.Prelude.{◌≡◌, length};
ghost use Rattle.ask_drives.specs.Sheets.{dropped_with};

use crate::{BookAndSheet, keep_sheet, seen_in};
use ask_sheet::Sheet;
use book::{Book, BookResult, drop_in_place};
use plan::{Refusal, granted};

// As `report_kept`.
#[inline(never)]
fn drop_kept(both: &mut BookAndSheet, task: u32)
    requires { length both.old.result.book.holds ≡ 2048 }
    ensures { both.new ≡ dropped_with both.old.result.book both.old.sheet task }
{
    let Ok(seen) = seen_in(&both.result.book, both.sheet) else {
        both.result.answer = Refusal::Unsound.answer(0, 0);
        return;
    };
    let answer = drop_in_place(&mut both.result.book, task);
    both.result.answer = answer;
    keep_sheet(&mut both.sheet, answer, &seen, &both.result.book);
}

pub fn drop_sheet(book: Book, sheet: Sheet, task: u32) -> BookAndSheet
    ensures { result ≡ dropped_with book sheet task }
{
    let mut both = BookAndSheet {
        result: BookResult {
            answer: granted(),
            book,
        },
        sheet,
    };
    drop_kept(&mut both, task);
    both
}
