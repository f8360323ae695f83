// The lines of an answer that a log has not. Each is written where LINE_MOST bytes are left from `at`, and otherwise nothing is; each answers the place after it.
ghost use Rattle.std.specs.Prelude.{[], ◌∷◌, is_some, unwrap_or};
ghost use Rattle.text.specs.Bytes.{bytes};
ghost use Rattle.log_write.specs.Lines.{numbers_line, Lined};
ghost use Rattle.desk_answers.specs.Answers.{known_line};

use log_write::{put_line, put_line_to};

// `now`, clock, how many run.
pub(crate) fn put_now(out: &mut [u8], at: usize, clock: u32, count: u32) -> usize
    ensures { Lined out.old at (numbers_line (bytes "now") (clock ∷ count ∷ [])) 30 out.new result }
{
    put_line(out, at, b"now", &[clock, count])
}

// `why`, task, how many links.
pub(crate) fn put_why(out: &mut [u8], at: usize, task: u32, count: u32) -> usize
    ensures { Lined out.old at (numbers_line (bytes "why") (task ∷ count ∷ [])) 30 out.new result }
{
    put_line(out, at, b"why", &[task, count])
}

// A task that runs, its start and its limit.
pub(crate) fn put_runs(
    out: &mut [u8],
    at: usize,
    task: u32,
    board: u8,
    start: u32,
    limit: u32,
) -> usize
    ensures { Lined out.old at (numbers_line (bytes "runs") (task ∷ board ∷ start ∷ limit ∷ [])) 52 out.new result }
{
    put_line(out, at, b"runs", &[task, u32::from(board), start, limit])
}

// A figure that is not known is a dash.
pub(crate) fn put_exact(out: &mut [u8], at: usize, clock: u32, early: Option<u32>) -> usize
    ensures { Lined out.old at (known_line (bytes "exact") (clock ∷ []) (is_some early) (unwrap_or early 0)) 52 out.new result }
{
    match early {
        Some(early) => put_line(out, at, b"exact", &[clock, early]),
        None => put_line_to(out, at, b"exact", &[clock], b"\t-\n"),
    }
}

// A link of a chain; an end that is not known is a dash.
pub(crate) fn put_link(
    out: &mut [u8],
    at: usize,
    task: u32,
    board: u8,
    start: u32,
    end: Option<u32>,
) -> usize
    ensures { Lined out.old at (known_line (bytes "link") (task ∷ board ∷ start ∷ []) (is_some end) (unwrap_or end 0)) 52 out.new result }
{
    let board = u32::from(board);
    match end {
        Some(end) => put_line(out, at, b"link", &[task, board, start, end]),
        None => put_line_to(out, at, b"link", &[task, board, start], b"\t-\n"),
    }
}
