// A drive sheet by lent sets, whatever they hold: task k is bit k, drive d is place d - 1. Who holds a sound book keeps its sheet by these. The crate stands below `book`, so it takes a view of one.
#![tactic(auto)]

ghost use Rattle.std.specs.Prelude.{◌≡◌, ◌+◌, ◌<◌, ◌≤◌, unwrap_or};
ghost use Rattle.laws.specs.Bits.{set_of};
ghost use Rattle.laws.specs.Private.Nonzero.{nonzero};
ghost use Rattle.theory.specs.Figure.{has_begun};
ghost use Rattle.plan.specs.Value.{at};
ghost use Rattle.book_view.specs.Shown.{book_shown};
ghost use Rattle.ask_sheet.specs.Sheet.{is_waiting, sooner, soonest, eight, zero_sheet};
ghost use Rattle.ask_sheet.specs.Private.Moved.{moved_to};
ghost use Rattle.ask_sheet.specs.Sets.{standing_of, members, running_again, next_again, sheet_by, renewed_by, same_sheet};

use book_view::{BookView, bit_of, is_in, places};
use text::put::put_text;

// Drive d: its running holders are the 8 places from 8 (d - 1), by rising task number, 0 past the last; its next holder, or 0, is place d - 1.
#[repr(C)]
#[derive(Clone, Copy, PartialEq)]
pub struct Sheet {
    pub running: [u8; 256],
    pub next: [u8; 32],
}

// Who runs and who waits, as sets.
#[repr(C)]
#[derive(Clone, Copy)]
pub struct Standing {
    pub runs: u64,
    pub waits: u64,
}

fn running_set(book: &BookView<'_>, n: usize) -> u64
    requires { n ≤ 64 }
    ensures { result ≡ set_of n (has_begun (book_shown book.now)) }
{
    let mut set: u64 = 0;
    for k in 0..n {
        set |= bit_of((book.mark[k] == 1) & (book.start[k] <= book.clock), k);
    }
    set
}

fn waiting_set(book: &BookView<'_>, n: usize) -> u64
    requires { n ≤ 64 }
    ensures { result ≡ set_of n (is_waiting (book_shown book.now)) }
{
    let mut set: u64 = 0;
    for k in 0..n {
        let ahead = (book.mark[k] == 1) & (book.clock < book.start[k]);
        set |= bit_of(!(book.dropped[k] == 1) & ((book.mark[k] == 0) | ahead), k);
    }
    set
}

pub fn standing_of(book: &BookView<'_>) -> Standing
    ensures { result ≡ standing_of book.now.plan.tasks (book_shown book.now) }
{
    // an array that a field shows is lent as a slice by a variable: the checker asks for the copy of the reference
    let mark = book.mark;
    let n = places(book.plan.tasks, mark);
    Standing {
        runs: running_set(book, n),
        waits: waiting_set(book, n),
    }
}

// The numbers of a set's tasks in eight places.
fn line_of(set: u64) -> [u8; 8]
    ensures { result ≡ eight (members set) }
{
    let mut line = [0u8; 8];
    let mut count: usize = 0;
    for k in 0..64 {
        if is_in(set, k) & (count < 8) {
            line[count] = (k + 1) as u8;
            count += 1;
        }
    }
    line
}

// Of the first so far, if there is one, and task k the one planned to start sooner, by its number.
fn sooner_of(first: Option<u8>, begin: &[u32; 64], k: usize) -> u8
    requires { (k < 64) × (unwrap_or first 0 ≤ 64) × (first ≡ nonzero (unwrap_or first 0)) }
    ensures { result ≡ sooner (at begin.now) (unwrap_or first 0) (k + 1) }
{
    let this = (k + 1) as u8;
    let Some(number) = first else {
        return this;
    };
    let p = usize::from(number - 1);
    if begin[k] < begin[p] {
        return this;
    }
    number
}

// Of a set's tasks the number of the one of least planned start, the lowest if equal.
fn first_of(set: u64, begin: &[u32; 64]) -> Option<u8>
    ensures { result ≡ nonzero (soonest (at begin.now) 0 (members set)) }
{
    let mut first: Option<u8> = None;
    for k in 0..64 {
        if is_in(set, k) {
            first = Some(sooner_of(first, begin, k));
        }
    }
    first
}

// Those of a drive's holders that are in a set now, if they were others before.
fn moved(held: u64, was: u64, is: u64) -> Option<u64>
    ensures { result ≡ moved_to held was is }
{
    let now = held & is;
    if held & was == now {
        return None;
    }
    Some(now)
}

// The running holders of the drives whose holders do not run as before.
fn renew_running(running: &mut [u8; 256], held: &[u64; 32], was: u64, is: u64)
    ensures { running.new ≡ running_again held.now was is running.old }
{
    for d in 0..32 {
        if let Some(now) = moved(held[d], was, is) {
            put_text(running, 8 * d, &line_of(now));
        }
    }
}

// Who is next on the drives whose holders do not wait as before; 0 in the sheet for nobody.
fn renew_next(next: &mut [u8; 32], held: &[u64; 32], begin: &[u32; 64], was: u64, is: u64)
    ensures { next.new ≡ next_again held.now begin.now was is next.old }
{
    for d in 0..32 {
        if let Some(now) = moved(held[d], was, is) {
            next[d] = first_of(now, begin).unwrap_or(0);
        }
    }
}

// Only the drives whose holders have moved are looked at.
pub fn renew_sheet(
    sheet: Sheet,
    held: &[u64; 32],
    begin: &[u32; 64],
    before: Standing,
    after: Standing,
) -> Sheet
    ensures { result ≡ renewed_by held.now begin.now before after sheet }
{
    let Sheet {
        mut running,
        mut next,
    } = sheet;
    renew_running(&mut running, held, before.runs, after.runs);
    renew_next(&mut next, held, begin, before.waits, after.waits);
    Sheet { running, next }
}

// A sheet on which no drive has a holder.
pub fn zero_sheet() -> Sheet
    ensures { result ≡ zero_sheet }
{
    Sheet {
        running: [0; 256],
        next: [0; 32],
    }
}

// The sheet of those who run and wait, of whom nothing was known before.
pub fn fresh_sheet(held: &[u64; 32], begin: &[u32; 64], after: Standing) -> Sheet
    ensures { result ≡ sheet_by held.now begin.now after }
{
    let nobody = Standing { runs: 0, waits: 0 };
    renew_sheet(zero_sheet(), held, begin, nobody, after)
}

// Do two sheets say the same?
pub fn is_same(a: Sheet, b: Sheet) -> bool
    ensures { result ≡ same_sheet a b }
{
    a == b
}
