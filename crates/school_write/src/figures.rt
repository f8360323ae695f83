// A line for each task with one start and one end: its number, and its ticks early.
ghost use Rattle.std.specs.Prelude.{◌≡◌, [], ◌∷◌, ◌+◌, ◌≤◌, length};
ghost use Rattle.laws.specs.Digits.{digits_of};
ghost use Rattle.text.specs.Line.{line_text};
ghost use Rattle.log_write.specs.Private.Wrote.{Wrote};
ghost use Rattle.school.specs.Text.{early_text};
ghost use Rattle.school_write.specs.Private.Figures.{figures_of};

use school::JudgedLog;
use text::part::{LF, TAB};
use text::put::{put_byte, put_number};

// Planned less logged tick: `-` before a number below zero, never `+`.
fn put_early(out: &mut [u8], at: usize, planned: u32, tick: u32) -> usize
    requires { at + 11 ≤ length out.old }
    ensures { Wrote out.old at (early_text planned tick) 11 out.new result }
{
    if planned < tick {
        let past_sign = put_byte(out, at, b'-');
        return put_number(out, past_sign, tick - planned);
    }
    put_number(out, at, planned - tick)
}

// The line of one task.
fn put_figure(out: &mut [u8], at: usize, task: u32, planned: u32, tick: u32) -> usize
    requires { at + 24 ≤ length out.old }
    ensures { Wrote out.old at (line_text (digits_of task ∷ early_text planned tick ∷ [])) 24 out.new result }
{
    let past_task = put_number(out, at, task);
    let past_tab = put_byte(out, past_task, TAB);
    let past_early = put_early(out, past_tab, planned, tick);
    put_byte(out, past_early, LF)
}

pub(crate) fn put_figures(
    out: &mut [u8],
    tasks: usize,
    finish: &[u32; 64],
    judged: &JudgedLog,
) -> usize
    requires { (tasks ≤ 64) × (1588 ≤ length out.old) }
    ensures { Wrote out.old 0 (figures_of finish.now judged.now.known judged.now.end tasks) 1536 out.new result }
{
    let mut place = 0;
    for i in 0..tasks {
        if judged.known[i] == 1 {
            place = put_figure(out, place, (i + 1) as u32, finish[i], judged.end[i]);
        }
    }
    place
}
