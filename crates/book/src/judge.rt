// A report and a drop judged where the book stands.
ghost use Rattle.std.specs.Prelude.{◌≡◌, not, cond, IfOk};
ghost use Rattle.plan.specs.View.{viewed};
ghost use Rattle.book_waits.specs.Waits.{sets_by};
ghost use Rattle.plan.specs.Refusal.{number_in};
ghost use Rattle.book.specs.Drop.{drop_code_of};
ghost use Rattle.book.specs.Report.{code_of};
ghost use Rattle.book.specs.Sound.{is_sound};
ghost use Rattle.book.specs.View.{shown};

use book_codes::{check_drop, check_report};
use book_sound::sound_waits;
use book_view::BookView;
use plan::Refusal;

// The wait sets of the book's tasks, or the first of 9 to 15 that applies.
pub(crate) fn judge_report(book: &BookView<'_>, task: u32, tick: u32) -> Result<[u64; 64], Refusal>
    ensures code { number_in result ≡ cond (not (is_sound (shown book.now))) 9 (code_of (shown book.now) task tick) }
    ensures sets { IfOk result (λ sets. sets ≡ sets_by book.now.rule (viewed book.now.plan)) }
{
    let Ok(waits) = sound_waits(book) else {
        return Err(Refusal::Unsound);
    };
    check_report(book, task, tick)?;
    Ok(waits)
}

// The first of 9, 10 and 19 that applies.
pub(crate) fn judge_drop(book: &BookView<'_>, task: u32) -> Result<(), Refusal>
    ensures { number_in result ≡ cond (not (is_sound (shown book.now))) 9 (drop_code_of (shown book.now) task) }
{
    if sound_waits(book).is_err() {
        return Err(Refusal::Unsound);
    }
    check_drop(book, task)
}
