// The lines of a log. Each is written where LINE_MOST bytes are left from `at`, and otherwise nothing is; each answers the place after it.
#![tactic(auto)]

ghost use Rattle.std.specs.Prelude.{◌≡◌, [], ◌∷◌, ◌+◌, ◌-◌, ◌*◌, ◌≤◌, leb, eqb, length};
ghost use Rattle.text.specs.Bytes.{bytes};
ghost use Rattle.log_write.specs.Lines.{numbers_line, run_by, task_line, start_word, refused_line, Lined};
ghost use Rattle.log_write.specs.Private.Wrote.{Wrote};
ghost use Rattle.log_write.specs.Short.{line_to, short_to, short_line};

use plan::Answer;
use text::part::TAB;
use text::put::{put_byte, put_number, put_text};

// No line is longer.
pub const LINE_MOST: usize = 52;

// No answer to one line is longer: 64 lines, and some.
pub const ANSWER_MOST: usize = 3432;

// A word and numbers, a tab before each number, and the end of the line.
fn put_within(out: &mut [u8], at: usize, word: &[u8], numbers: &[u32], end: &[u8]) -> usize
    requires { (length word.now ≤ 7) × (length end.now + 11 * length numbers.now ≤ 45) × (at + 52 ≤ length out.old) }
    ensures { Wrote out.old at (line_to end.now word.now numbers.now) (7 + length end.now + 11 * length numbers.now) out.new result }
{
    let mut place = put_text(out, at, word);
    for number in numbers {
        let after_tab = put_byte(out, place, TAB);
        place = put_number(out, after_tab, *number);
    }
    put_text(out, place, end)
}

// Do the end of a line and its numbers fit beside a word? A product could wrap, so it is taken of few numbers only.
fn is_short(end: usize, numbers: usize) -> bool
    ensures { result ≡ leb (end + 11 * numbers) 45 }
{
    end <= 45 && numbers <= 4 && end + 11 * numbers <= 45
}

// A line that ends in `end`; nothing is written of one that could be longer than LINE_MOST.
// A sum could wrap, so the room is what is left before the last LINE_MOST bytes.
pub fn put_line_to(out: &mut [u8], at: usize, word: &[u8], numbers: &[u32], end: &[u8]) -> usize
    ensures { Lined out.old at (short_to end.now word.now numbers.now) (7 + length end.now + 11 * length numbers.now) out.new result }
{
    if word.len() > 7 || !is_short(end.len(), numbers.len()) {
        return at;
    }
    if out.len() < LINE_MOST || out.len() - LINE_MOST < at {
        return at;
    }
    put_within(out, at, word, numbers, end)
}

// A word of up to 7 bytes and up to 4 numbers; nothing is written of more.
pub fn put_line(out: &mut [u8], at: usize, word: &[u8], numbers: &[u32]) -> usize
    ensures { Lined out.old at (short_line word.now numbers.now) (8 + 11 * length numbers.now) out.new result }
{
    put_line_to(out, at, word, numbers, b"\n")
}

pub fn put_refused(out: &mut [u8], at: usize, answer: Answer) -> usize
    ensures { Lined out.old at (refused_line answer) 41 out.new result }
{
    put_line(
        out,
        at,
        b"refused",
        &[answer.code, answer.first, answer.second],
    )
}

// By the clash rule the line names it last. The rule is a book's byte, which may be any (C interface).
pub fn put_run(out: &mut [u8], at: usize, rule: u8, boards: u8, tasks: u8) -> usize
    ensures { Lined out.old at (run_by rule boards tasks) 47 out.new result }
{
    if rule == 0 {
        return put_line(out, at, b"run", &[1, u32::from(boards), u32::from(tasks)]);
    }
    put_line_to(
        out,
        at,
        b"run",
        &[2, u32::from(boards), u32::from(tasks)],
        b"\tclash\n",
    )
}

pub fn put_early(out: &mut [u8], at: usize, clock: u32, early: u32) -> usize
    ensures { Lined out.old at (numbers_line (bytes "early") (clock ∷ early ∷ [])) 30 out.new result }
{
    put_line(out, at, b"early", &[clock, early])
}

pub fn put_drop(out: &mut [u8], at: usize, task: u32, board: u8) -> usize
    ensures { Lined out.old at (numbers_line (bytes "drop") (task ∷ board ∷ [])) 30 out.new result }
{
    put_line(out, at, b"drop", &[task, u32::from(board)])
}

// A `start`, `skip` or `end` line.
fn put_task(
    out: &mut [u8],
    at: usize,
    word: &[u8],
    task: u32,
    board: u8,
    planned: u32,
    actual: u32,
) -> usize
    requires { length word.now ≤ 7 }
    ensures { Lined out.old at (task_line word.now task board planned actual) 52 out.new result }
{
    // No task of a sound book is late.
    let early = planned.saturating_sub(actual);
    put_line(out, at, word, &[task, u32::from(board), actual, early])
}

pub fn put_end(out: &mut [u8], at: usize, task: u32, board: u8, planned: u32, actual: u32) -> usize
    ensures { Lined out.old at (task_line (bytes "end") task board planned actual) 52 out.new result }
{
    put_task(out, at, b"end", task, board, planned, actual)
}

// A dropped task's start is its skip. `dropped` is a book's byte, which may be any (C interface).
pub fn put_start(
    out: &mut [u8],
    at: usize,
    dropped: u8,
    task: u32,
    board: u8,
    planned: u32,
    actual: u32,
) -> usize
    ensures { Lined out.old at (task_line (start_word (eqb dropped 1)) task board planned actual) 52 out.new result }
{
    if dropped == 1 {
        return put_task(out, at, b"skip", task, board, planned, actual);
    }
    put_task(out, at, b"start", task, board, planned, actual)
}
