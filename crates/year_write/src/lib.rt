// The report of a year's totals, as bytes. Who calls a private function here has seen that there is room.
#![tactic(auto)]

ghost use Rattle.std.specs.Prelude.{◌≡◌, true, not, [], ◌∷◌, ◌+◌, ◌<◌, ◌≤◌, eqb, length};
ghost use Rattle.std.proofs.lemmas.List.Edits.{sets};
ghost use Rattle.laws.specs.Digits.{digits_of};
ghost use Rattle.text.specs.Bytes.{bytes};
ghost use Rattle.text.specs.Line.{line_text, number_or};
ghost use Rattle.log_write.specs.Lines.{numbers_line};
ghost use Rattle.log_write.specs.Private.Wrote.{Wrote};
ghost use Rattle.year_rules.specs.Totals.{totals_ok};
ghost use Rattle.year_write.specs.Report.{all_tally, tally_fields, board_lines, report_of, report_most, report_in};
ghost use Rattle.year_write.specs.Private.Bests.{joined};
ghost use Rattle.year_write.specs.Private.Tails.{tally_tail};

use log_write::put_refused;
use plan::Refusal;
use text::part::{LF, TAB};
use text::put::{put_byte, put_text};
use text::wide::put_wide;
use year_rules::{Tally, Totals, are_in_bounds};

// A buffer of this length is always long enough.
pub const REPORT_MOST: usize = 1024;

// A tab and a number.
fn put_field(out: &mut [u8], at: usize, n: u64) -> usize
    requires { at + 21 ≤ length out.old }
    ensures { Wrote out.old at (9 ∷ digits_of n) 21 out.new result }
{
    let next = put_byte(out, at, TAB);
    put_wide(out, next, n)
}

// A tab and a number of 32 bits.
fn put_short(out: &mut [u8], at: usize, n: u32) -> usize
    requires { at + 21 ≤ length out.old }
    ensures { Wrote out.old at (9 ∷ digits_of n) 11 out.new result }
{
    put_field(out, at, u64::from(n))
}

// A tab, and a number or `-`.
fn put_or_none(out: &mut [u8], at: usize, ended: u32, n: u32) -> usize
    requires { at + 21 ≤ length out.old }
    ensures { Wrote out.old at (9 ∷ number_or (not (eqb ended 0)) n) 11 out.new result }
{
    if ended == 0 {
        return put_text(out, at, b"\t-");
    }
    put_short(out, at, n)
}

// The four fields of a tally, and the line's end.
fn put_tail(out: &mut [u8], at: usize, tally: Tally) -> usize
    requires { at + 65 ≤ length out.old }
    ensures { Wrote out.old at (tally_tail tally) 55 out.new result }
{
    let past_ended = put_short(out, at, tally.ended);
    let past_sum = put_field(out, past_ended, tally.sum);
    let past_greatest = put_or_none(out, past_sum, tally.ended, tally.greatest);
    let past_least = put_or_none(out, past_greatest, tally.ended, tally.least);
    put_byte(out, past_least, LF)
}

fn put_board(out: &mut [u8], at: usize, number: u32, tally: Tally) -> usize
    requires { at + 81 ≤ length out.old }
    ensures { Wrote out.old at (line_text (bytes "board" ∷ digits_of number ∷ tally_fields tally)) 71 out.new result }
{
    let past_word = put_text(out, at, b"board");
    let past_number = put_short(out, past_word, number);
    put_tail(out, past_number, tally)
}

fn put_all(out: &mut [u8], at: usize, tally: Tally) -> usize
    requires { at + 68 ≤ length out.old }
    ensures { Wrote out.old at (line_text (bytes "all" ∷ tally_fields tally)) 58 out.new result }
{
    let past_word = put_text(out, at, b"all");
    put_tail(out, past_word, tally)
}

fn put_logs(out: &mut [u8], accepted: u32, refused: u32) -> usize
    requires { 47 ≤ length out.old }
    ensures { Wrote out.old 0 (numbers_line (bytes "logs") (accepted ∷ refused ∷ [])) 27 out.new result }
{
    let past_word = put_text(out, 0, b"logs");
    let past_accepted = put_short(out, past_word, accepted);
    let past_refused = put_short(out, past_accepted, refused);
    put_byte(out, past_refused, LF)
}

// The boards so far and one more, which has no greatest and no least where no task ended on it.
fn joined(all: Tally, next: Tally) -> Tally
    requires { (all.ended + next.ended < 4294967296) × (all.sum + next.sum < 18446744073709551616) }
    ensures { result ≡ joined all next }
{
    let ended = all.ended + next.ended;
    let sum = all.sum + next.sum;
    if next.ended == 0 {
        return Tally { ended, sum, ..all };
    }
    if all.ended == 0 {
        return Tally { ended, sum, ..next };
    }
    Tally {
        ended,
        sum,
        greatest: all.greatest.max(next.greatest),
        least: all.least.min(next.least),
    }
}

fn all_tally(totals: Totals) -> Tally
    requires { totals_ok totals ≡ true }
    ensures { result ≡ all_tally totals }
{
    let mut all = Tally {
        ended: 0,
        sum: 0,
        greatest: 0,
        least: 0,
    };
    for b in 0..8 {
        all = joined(all, totals.tally(b));
    }
    all
}

// A line a board, by number.
fn put_boards(out: &mut [u8], at: usize, totals: Totals) -> usize
    requires { at + 578 ≤ length out.old }
    ensures { Wrote out.old at (board_lines totals 8) 568 out.new result }
{
    let mut place = at;
    for b in 0..8 {
        place = put_board(out, place, (b + 1) as u32, totals.tally(b));
    }
    place
}

fn put_report(out: &mut [u8], totals: Totals) -> usize
    requires { (1024 ≤ length out.old) × (totals_ok totals ≡ true) }
    ensures { Wrote out.old 0 (report_of totals) 653 out.new result }
{
    let past_logs = put_logs(out, totals.accepted, totals.refused);
    let past_boards = put_boards(out, past_logs, totals);
    put_all(out, past_boards, all_tally(totals))
}

// Nothing is written where the buffer is shorter than REPORT_MOST. `past` is whether names were left over.
pub fn write_report(totals: Totals, past: bool, out: &mut [u8]) -> usize
    ensures { (result ≡ length (report_in (length out.old) past totals)) × (out.new ≡ sets out.old 0 (report_in (length out.old) past totals)) × (result ≤ report_most) }
{
    if out.len() < REPORT_MOST {
        return 0;
    }
    if !are_in_bounds(totals) {
        return put_refused(out, 0, Refusal::Unsound.answer(0, 0));
    }
    let place = put_report(out, totals);
    if past {
        return put_refused(out, place, Refusal::TooManyLogs.answer(0, 0));
    }
    place
}
