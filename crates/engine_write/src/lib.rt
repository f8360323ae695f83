// The text of a timetable, as bytes.
#![tactic(auto)]

ghost use Rattle.std.specs.Prelude.{◌≡◌, [], ◌∷◌, ◌+◌, ◌≤◌, length};
ghost use Rattle.text.specs.Bytes.{bytes};
ghost use Rattle.text.specs.Put.{Filled};
ghost use Rattle.log_write.specs.Lines.{numbers_line, refused_line, Lined};
ghost use Rattle.log_write.specs.Private.Wrote.{Wrote};
ghost use Rattle.engine_write.specs.Rows.{row_lines, rows_in, table_most};
ghost use Rattle.std.proofs.lemmas.List.Edits.{sets};
ghost use Rattle.engine_write.specs.Table.{table_in};

use engine::{Timetable, work_out};
use engine_read::{EngineInput, read_lengths};
use log_write::{put_line, put_refused};
use plan::{Answer, Plan, Reading, few};
use plan_read::read_plan;

// A buffer of this length is always long enough.
pub const TABLE_MOST: usize = 3328;

// The line of one task.
fn put_row(out: &mut [u8], at: usize, task: u32, board: u8, start: u32, end: u32) -> usize
    requires { at + 52 ≤ length out.old }
    ensures { Wrote out.old at (numbers_line (bytes "task") (task ∷ board ∷ start ∷ end ∷ [])) 52 out.new result }
{
    put_line(out, at, b"task", &[task, u32::from(board), start, end])
}

// A line a task, by number.
fn put_all(out: &mut [u8], tasks: u8, board: &[u8; 64], table: &Timetable) -> usize
    requires { (tasks ≤ 64) × (3328 ≤ length out.old) }
    ensures { Wrote out.old 0 (row_lines board.now table.now.start table.now.end tasks) 3328 out.new result }
{
    let mut place = 0;
    for i in 0..usize::from(tasks) {
        place = put_row(
            out,
            place,
            i as u32 + 1,
            board[i],
            table.start[i],
            table.end[i],
        );
    }
    place
}

// Nothing is written where the buffer is shorter than TABLE_MOST.
pub fn put_rows(out: &mut [u8], plan: &Plan, table: &Timetable) -> usize
    ensures { Filled table_most out.old (rows_in (length out.old) plan.now.board table.now.start table.now.end plan.now.tasks) out.new result }
{
    if out.len() < TABLE_MOST {
        return 0;
    }
    put_all(out, few(plan.tasks), &plan.board, table)
}

// Nothing is written where the buffer is shorter than TABLE_MOST.
pub fn write_timetable(plan: &[u8], lengths: &[u8], out: &mut [u8]) -> usize
    ensures { (result ≡ length (table_in (length out.old) plan.now lengths.now)) × (out.new ≡ sets out.old 0 (table_in (length out.old) plan.now lengths.now)) × (result ≤ table_most) }
{
    if out.len() < TABLE_MOST {
        return 0;
    }
    let Reading {
        answer: read,
        plan: planned,
    } = read_plan(plan);
    if read.code != 0 {
        return put_refused(out, 0, read);
    }
    let EngineInput {
        answer: said,
        rule,
        given,
    } = read_lengths(planned.tasks, &planned.begin, &planned.finish, lengths);
    if said.code != 0 {
        return put_refused(out, 0, said);
    }
    let table = work_out(planned, rule, given);
    let worked = table.answer;
    if worked.code != 0 {
        return put_refused(out, 0, worked);
    }
    put_rows(out, &planned, &table)
}
