// The fields of the first line and of a task line.
ghost use Rattle.std.specs.Prelude.{◌≡◌, suc, false, ◌∷◌, ◌≤◌, length, drop};
ghost use Rattle.laws.specs.Split.{before, skip_on};
ghost use Rattle.text.specs.Line.{TAB};
ghost use Rattle.text_fields.specs.Said.{code_in, ranged_in};
ghost use Rattle.plan.specs.Read.{codes_from, ready_code};
ghost use Rattle.plan_read.specs.Mode.{mends};
ghost use Rattle.plan_read.specs.Private.Editions.{edition_number, is_mended, is_strict};
ghost use Rattle.plan_read.specs.Private.Fields.{size_read, edition_read, sizes_read, ready_by, holds_by, after_by, tail_by, ready_at, list_in, tail_in, line_said, line_in, line_made, line_by, line_read, TailRight};

use crate::{CutLine, Edition, Head, Line, Mode, Sizes, Tail};
use text::decimal::NUMBER_MOST;
use text::part::{TAB, count_fields, field, part_before, past, same};
use text_fields::faults::{check_line, end_fault, read_ranged, word_fault};
use text_fields::list::{has_shared, make_exclusive, read_after, read_holds};
use text_fields::{Fault, FieldFault, Items};

// A number of the first line, if it is one in its range.
fn size(field: &[u8], low: u32, high: u32) -> Option<u32>
    requires { high ≤ 1000000 }
    ensures { result ≡ size_read low high field.now }
{
    read_ranged(field, low, high).ok()
}

// A reading that mends takes edition 2 alone.
fn read_edition(field: &[u8], mode: Mode) -> Option<Edition>
    ensures { result ≡ edition_read (mends mode) field.now }
{
    match mode {
        Mode::Plain => match size(field, 1, 2)? {
            1 => Some(Edition::First),
            _ => Some(Edition::Second),
        },
        Mode::Mending => {
            size(field, 2, 2)?;
            Some(Edition::Mended)
        }
    }
}

// The first line.
pub(crate) fn read_sizes(line: &[u8], mode: Mode) -> Option<Sizes>
    ensures { result ≡ sizes_read (mends mode) line.now }
{
    if count_fields(line) != 4 {
        return None;
    }
    if !same(field(line, 0), b"plan") {
        return None;
    }
    let edition = read_edition(field(line, 1), mode)?;
    let boards = size(field(line, 2), 1, 8)?;
    let tasks = size(field(line, 3), 1, 64)?;
    Some(Sizes {
        edition,
        boards,
        tasks,
    })
}

// The first field, and what stands after its tab.
fn split_field(rest: &[u8]) -> (&[u8], &[u8])
    ensures { (result.0.now ≡ before TAB rest.now) × (result.1.now ≡ drop (suc (length result.0.now)) rest.now) }
{
    let first = part_before(rest, TAB);
    (first, past(rest, first.len()))
}

// The ready tick, which is not after the planned start.
fn read_ready(field: &[u8], begin: u32) -> Result<u32, FieldFault>
    ensures { ranged_in result ≡ ready_by begin field.now }
{
    let ready = read_ranged(field, 0, NUMBER_MOST)?;
    if begin < ready {
        return Err(FieldFault::ReadyLate);
    }
    Ok(ready)
}

// The holds. A shared one stands in edition 1, is refused in edition 2, and is mended where that is asked.
fn read_held(field: &[u8], edition: Edition) -> Result<Items, FieldFault>
    ensures { list_in result ≡ holds_by edition field.now }
{
    let mut holds = read_holds(field)?;
    match edition {
        Edition::First => Ok(holds),
        Edition::Second if has_shared(&holds.items) => Err(FieldFault::Shared),
        Edition::Second => Ok(holds),
        Edition::Mended => {
            make_exclusive(&mut holds.items);
            Ok(holds)
        }
    }
}

// The tasks to come after.
fn read_order(field: &[u8], tasks: u32) -> Result<Items, FieldFault>
    ensures { list_in result ≡ after_by tasks field.now }
{
    Ok(read_after(field, tasks)?)
}

// From the planned start on. Each field is looked for where the one before it ends.
// A planned finish is held against 0 where the planned start is refused.
fn read_tail(rest: &[u8], sizes: Sizes) -> Tail
    ensures { tail_in result ≡ tail_by sizes.edition sizes.tasks rest.now 0 }
{
    let (begin_field, from_finish) = split_field(rest);
    let (finish_field, from_holds) = split_field(from_finish);
    let (holds_field, from_after) = split_field(from_holds);
    let begin = read_ranged(begin_field, 0, NUMBER_MOST);
    let finish = read_ranged(finish_field, begin.unwrap_or(0) + 1, NUMBER_MOST);
    let holds = read_held(holds_field, sizes.edition);
    let after = read_order(part_before(from_after, TAB), sizes.tasks);
    Tail {
        begin,
        finish,
        holds,
        after,
    }
}

// What a line says in which no field is at fault.
fn line_of(board: u32, ready: u32, tail: Tail) -> Line
    requires { TailRight (tail_in tail) }
    ensures { line_said result ≡ line_made board ready (tail_in tail) }
{
    Line {
        board,
        ready,
        begin: tail.begin.unwrap(),
        finish: tail.finish.unwrap(),
        holds: tail.holds.unwrap(),
        after: tail.after.unwrap(),
    }
}

// A line of edition 1 past its board. A fault's place in the list is its field's, so each edition has its own list.
fn read_first(line: CutLine<'_>, sizes: Sizes, head: Head, rest: &[u8]) -> Result<Line, Fault>
    requires { (sizes.tasks ≤ 64) × (rest.now ≡ skip_on TAB 3 line.text.now) }
    ensures { line_in result ≡ line_by line.entry.text.now (code_in head.word ∷ code_in head.number ∷ (ranged_in head.board).code ∷ codes_from (is_strict sizes.edition) line.entry.ended sizes.tasks line.entry.text.now 3) (ranged_in head.board).value 0 (tail_by sizes.edition sizes.tasks line.entry.text.now 3) }
{
    let tail = read_tail(rest, sizes);
    let faults = [
        head.word,
        head.number,
        head.board.err(),
        tail.begin.err(),
        tail.finish.err(),
        tail.holds.err(),
        tail.after.err(),
        end_fault(line.text, 7, line.ended),
    ];
    check_line(line.text, &faults)?;
    let board = head.board.unwrap();
    Ok(line_of(board, 0, tail))
}

// A line of edition 2 past its board.
fn read_second(line: CutLine<'_>, sizes: Sizes, head: Head, rest: &[u8]) -> Result<Line, Fault>
    requires { (sizes.tasks ≤ 64) × (rest.now ≡ skip_on TAB 3 line.text.now) }
    ensures { line_in result ≡ line_by line.entry.text.now (code_in head.word ∷ code_in head.number ∷ (ranged_in head.board).code ∷ ready_code line.entry.text.now ∷ codes_from (is_strict sizes.edition) line.entry.ended sizes.tasks line.entry.text.now 4) (ranged_in head.board).value (ready_at line.entry.text.now) (tail_by sizes.edition sizes.tasks line.entry.text.now 4) }
{
    let (ready_field, from_begin) = split_field(rest);
    let tail = read_tail(from_begin, sizes);
    let ready = read_ready(ready_field, tail.begin.unwrap_or(0));
    let faults = [
        head.word,
        head.number,
        head.board.err(),
        ready.err(),
        tail.begin.err(),
        tail.finish.err(),
        tail.holds.err(),
        tail.after.err(),
        end_fault(line.text, 8, line.ended),
    ];
    check_line(line.text, &faults)?;
    let board = head.board.unwrap();
    let tick = ready.unwrap();
    Ok(line_of(board, tick, tail))
}

// The k-th task line.
pub(crate) fn read_line(line: CutLine<'_>, sizes: Sizes, k: u32) -> Result<Line, Fault>
    requires { sizes.tasks ≤ 64 }
    ensures { line_in result ≡ line_read (is_mended sizes.edition) line.entry.ended (edition_number sizes.edition) sizes.boards sizes.tasks line.entry.text.now k }
{
    let (word_field, from_number) = split_field(line.text);
    let (number_field, from_board) = split_field(from_number);
    let (board_field, rest) = split_field(from_board);
    let head = Head {
        word: word_fault(word_field, b"task"),
        number: read_ranged(number_field, k, k).err(),
        board: read_ranged(board_field, 1, sizes.boards),
    };
    match sizes.edition {
        Edition::First => read_first(line, sizes, head, rest),
        Edition::Second | Edition::Mended => read_second(line, sizes, head, rest),
    }
}
