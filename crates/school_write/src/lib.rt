// The lines that are printed of a judged log.
// The text of a judged log, as bytes.
#![tactic(auto)]

mod figures;

ghost use Rattle.std.specs.Prelude.{◌≡◌, ◌+◌, ◌≤◌, min, length};
ghost use Rattle.std.proofs.lemmas.List.Edits.{sets};
ghost use Rattle.log_write.specs.Private.Wrote.{Wrote};
ghost use Rattle.school.specs.Text.{verdict_line, judged_most, judged_in};
ghost use Rattle.school_write.specs.Lines.{are_ticks, lines_in};

use figures::put_figures;
use log_write::put_refused;
use plan::{Answer, few};
use plan_read::read_plan;
use school::JudgedLog;
use school_judge::judge_log;
use text::decimal::NUMBER_MOST;
use text::put::put_text;

// A buffer of this length is always long enough.
pub const JUDGED_MOST: usize = 1588;

// Are all planned finishes and ends ticks? A walk that gathers to its end.
fn are_ticks(finish: &[u32; 64], end: &[u32; 64], tasks: usize) -> bool
    requires { tasks ≤ 64 }
    ensures { result ≡ are_ticks tasks finish.now end.now }
{
    let mut all = true;
    for i in 0..tasks {
        all = ((finish[i] <= NUMBER_MOST) & (end[i] <= NUMBER_MOST)) & all;
    }
    all
}

// `accepted`, or the refusal.
fn put_verdict(out: &mut [u8], at: usize, answer: Answer) -> usize
    requires { at + 52 ≤ length out.old }
    ensures { Wrote out.old at (verdict_line answer) 52 out.new result }
{
    if answer.code == 0 {
        return put_text(out, at, b"accepted\n");
    }
    put_refused(out, at, answer)
}

// Nothing is written where the buffer is shorter than JUDGED_MOST, or where a planned finish or an end is no tick.
pub fn put_judged(out: &mut [u8], tasks: u8, finish: &[u32; 64], judged: &JudgedLog) -> usize
    ensures { let text = lines_in (length out.old) (min tasks 64) finish.now judged.now.known judged.now.end judged.now.answer in (result ≡ length text) × (out.new ≡ sets out.old 0 text) × (result ≤ judged_most) }
{
    if out.len() < JUDGED_MOST {
        return 0;
    }
    let n = usize::from(few(tasks));
    if !are_ticks(finish, &judged.end, n) {
        return 0;
    }
    let past = put_figures(out, n, finish, judged);
    put_verdict(out, past, judged.answer)
}

// Nothing is written where the buffer is shorter than JUDGED_MOST.
pub fn write_judged(plan: &[u8], log: &[u8], out: &mut [u8]) -> usize
    ensures { (result ≡ length (judged_in (length out.old) plan.now log.now)) × (out.new ≡ sets out.old 0 (judged_in (length out.old) plan.now log.now)) × (result ≤ judged_most) }
{
    if out.len() < JUDGED_MOST {
        return 0;
    }
    let reading = read_plan(plan);
    if reading.answer.code != 0 {
        return put_refused(out, 0, reading.answer);
    }
    let judged = judge_log(reading.plan, log);
    put_judged(out, reading.plan.tasks, &reading.plan.finish, &judged)
}
