// Whether a report or a drop is refused and by which of the codes 10 to 15 and 19, and the figure M, of a book where it stands, whatever its arrays hold.
// Minimum early: the least of planned start − start over those that have begun and of planned start − ready over those still to begin.
#![tactic(auto)]

ghost use Rattle.std.specs.Prelude.{◌≡◌, [], ◌≤◌};
ghost use Rattle.laws.specs.Picked.{least};
ghost use Rattle.plan.specs.Refusal.{number_in};
ghost use Rattle.theory.specs.Report.{none_past, report_code, drop_code, from_one};
ghost use Rattle.theory.specs.Figure.{minimum_early, early_by, counts};
ghost use Rattle.book_view.specs.View.{plan_seen, book_seen};
ghost use Rattle.book_view.specs.Shown.{plan_shown, book_shown};
ghost use Rattle.book_codes.specs.Private.Place.{place_in};
ghost use Rattle.book_codes.specs.Private.Held.{held};

use book_view::{BookView, limit_of, places};
use plan::Refusal;

// The place of a task of the plan.
fn place_of(tasks: u8, task: u32) -> Result<usize, Refusal>
    ensures { result ≡ place_in tasks task }
{
    if task == 0 {
        return Err(Refusal::NoTask);
    }
    let k = (task - 1) as usize;
    if usize::from(tasks) <= k {
        return Err(Refusal::NoTask);
    }
    Ok(k)
}

// Is none of the first n tasks running whose limit is before the tick?
fn none_past(book: &BookView<'_>, n: usize, tick: u32) -> bool
    requires { n ≤ 64 }
    ensures { result ≡ none_past (plan_seen n [] book.now.plan.begin.now book.now.plan.finish.now []) (book_seen book.now.mark.now book.now.start.now [] [] 0) tick }
{
    let mut all = true;
    for j in 0..n {
        let limit = limit_of(book.plan.begin[j], book.plan.finish[j], book.start[j]);
        all = (!(book.mark[j] == 1) | (u64::from(tick) <= limit)) & all;
    }
    all
}

// The first of 10 to 15 that applies.
pub fn check_report(book: &BookView<'_>, task: u32, tick: u32) -> Result<(), Refusal>
    ensures { number_in result ≡ from_one (λ k. report_code (plan_shown book.now) (book_shown book.now) k tick) task }
{
    // an array that a field shows is lent as a slice by a variable: the checker asks for the copy of the reference
    let mark = book.mark;
    let k = place_of(book.plan.tasks, task)?;
    // a task without a place holds nothing, so it waits
    let n = places(book.plan.tasks, mark);
    if n <= k {
        return Err(Refusal::NotRunning);
    }
    if mark[k] != 1 {
        return Err(Refusal::NotRunning);
    }
    if tick < book.clock {
        return Err(Refusal::BeforeClock);
    }
    if tick <= book.start[k] {
        return Err(Refusal::NotPastStart);
    }
    if limit_of(book.plan.begin[k], book.plan.finish[k], book.start[k]) < u64::from(tick) {
        return Err(Refusal::PastLimit);
    }
    if !none_past(book, n, tick) {
        return Err(Refusal::OtherPastLimit);
    }
    Ok(())
}

// 10, then 19 where its start is known or it is already dropped.
pub fn check_drop(book: &BookView<'_>, task: u32) -> Result<(), Refusal>
    ensures { number_in result ≡ from_one (drop_code (plan_shown book.now) (book_shown book.now)) task }
{
    let (tasks, mark, dropped) = (book.plan.tasks, book.mark, book.dropped);
    // lent as a slice its length is known
    let gone = &dropped[..];
    let k = place_of(tasks, task)?;
    // a task without a place holds nothing, so it waits
    if places(tasks, mark) <= k {
        return Ok(());
    }
    if (mark[k] != 0) | (gone[k] == 1) {
        return Err(Refusal::KnownOrDropped);
    }
    Ok(())
}

// The least of the first n tasks, if one of them counts.
fn least_of(book: &BookView<'_>, n: usize) -> Option<u32>
    requires { n ≤ 64 }
    ensures { held result ≡ least n (counts (book_shown book.now)) (early_by (plan_shown book.now) (book_shown book.now)) }
{
    let mut least = None;
    for i in 0..n {
        let begun = (book.mark[i] == 1) & (book.start[i] <= book.clock);
        let to_begin = (book.mark[i] == 1) | (book.mark[i] == 0);
        if begun | (!(book.dropped[i] == 1) & to_begin) {
            // planned start − start of one that has begun, planned start − ready of any other
            let since = if begun {
                book.start[i]
            } else {
                book.plan.ready[i]
            };
            let early = book.plan.begin[i].saturating_sub(since);
            least = match least {
                None => Some(early),
                Some(other) => Some(other.min(early)),
            };
        }
    }
    least
}

// The figure, so that who has judged a book need not judge it again.
pub fn least_early(book: &BookView<'_>) -> u32
    ensures { result ≡ minimum_early (plan_shown book.now) (book_shown book.now) }
{
    let (tasks, begin) = (book.plan.tasks, book.plan.begin);
    let (mark, dropped) = (book.mark, book.dropped);
    // lent as slices their lengths are known
    let planned = &begin[..];
    let gone = &dropped[..];
    let n = places(tasks, mark);
    // a task without a place waits, and is planned at 0
    if n < usize::from(tasks) {
        return 0;
    }
    least_of(book, n).unwrap_or(0)
}
