// Which lengths and drops are refused, by lent arrays, whatever they hold.
// The timetable of a plan: every start and end at once, from each task's actual length. No reports.
#![tactic(auto)]

mod fill;

ghost use Rattle.std.specs.Prelude.{◌≡◌, not, ◌&&◌, [], ◌-◌, ◌≤◌, min, leb, eqb};
ghost use Rattle.theory.specs.Times.{lowest, bad_length};
ghost use Rattle.plan.specs.Answer.{as_result};
ghost use Rattle.plan.specs.Value.{at};
ghost use Rattle.book_view.specs.View.{plan_seen};
ghost use Rattle.laws.specs.Private.Nonzero.{nonzero};
ghost use Rattle.engine.specs.Codes.{lengths_answer};
ghost use Rattle.engine.specs.Timetable.{timetable_of, zero_timetable};

use book::{Rule, number_of};
use book_waits::wait_sets;
use fill::{Times, work_all};
use plan::{Answer, Plan, Refusal, few, granted};

fn is_outside(begin: u32, finish: u32, length: u32) -> bool
    ensures { result ≡ not (leb 1 length && leb length (finish - begin)) }
{
    length == 0 || length > finish.saturating_sub(begin)
}

// The lowest task, from 1, that is not dropped and whose length is outside 1 .. planned length.
fn bad_length(plan: &Plan, given: &Lengths, tasks: usize) -> Option<u32>
    requires { tasks ≤ 64 }
    ensures { result ≡ nonzero (lowest tasks (bad_length (plan_seen tasks [] plan.now.begin plan.now.finish []) (at given.now.length) (at given.now.dropped))) }
{
    for i in 0..tasks {
        if given.dropped[i] != 1 && is_outside(plan.begin[i], plan.finish[i], given.length[i]) {
            return Some(i as u32 + 1);
        }
    }
    None
}

// The lowest dropped task whose wait set is empty.
fn idle_drop(waits: &[u64; 64], dropped: &[u8; 64], tasks: usize) -> Option<u32>
    requires { tasks ≤ 64 }
    ensures { result ≡ nonzero (lowest tasks (λ i. eqb (at dropped.now i) 1 && eqb (at waits.now i) 0)) }
{
    for i in 0..tasks {
        if dropped[i] == 1 && waits[i] == 0 {
            return Some(i as u32 + 1);
        }
    }
    None
}

// 22 before 19.
pub fn length_answer(plan: &Plan, waits: &[u64; 64], given: &Lengths) -> Result<(), Answer>
    ensures { result ≡ as_result (lengths_answer (min plan.now.tasks 64) (bad_length (plan_seen (min plan.now.tasks 64) [] plan.now.begin plan.now.finish []) (at given.now.length) (at given.now.dropped)) (λ i. eqb (at given.now.dropped i) 1 && eqb (at waits.now i) 0)) }
{
    let n = usize::from(few(plan.tasks));
    if let Some(task) = bad_length(plan, given, n) {
        return Err(Refusal::NotItsLength.answer(task, 0));
    }
    if let Some(task) = idle_drop(waits, &given.dropped, n) {
        return Err(Refusal::KnownOrDropped.answer(task, 0));
    }
    Ok(())
}

// Each task's actual length; dropped: 1 for a dropped task, any other number for one that is not. Nothing past the last task is read, and no dropped task's length.
#[repr(C)]
#[derive(Drop)]
pub struct Lengths {
    pub length: [u32; 64],
    pub dropped: [u8; 64],
}

#[repr(C)]
#[derive(Drop)]
pub struct Timetable {
    pub answer: Answer,
    pub start: [u32; 64],
    pub end: [u32; 64],
}

fn refused(answer: Answer) -> Timetable
    ensures { result ≡ zero_timetable answer }
{
    Timetable {
        answer,
        start: [0; 64],
        end: [0; 64],
    }
}

pub fn work_out(plan: Plan, rule: Rule, given: Lengths) -> Timetable
    ensures { result ≡ timetable_of plan rule given }
{
    let Some(waits) = wait_sets(number_of(rule), &plan.view()) else {
        return refused(Refusal::Unsound.answer(0, 0));
    };
    if let Err(refusal) = length_answer(&plan, &waits, &given) {
        return refused(refusal);
    }
    let Times { start, end } = work_all(&plan.ready, &waits, &given, usize::from(plan.tasks));
    Timetable {
        answer: granted(),
        start,
        end,
    }
}
