// The tests 24 to 27 of a log, by lent arrays, whatever they hold.
// A plan and a log: the plan judged once, the log read once, and then the tests.
#![tactic(auto)]

mod lay;
mod pairs;
mod tasks;

ghost use Rattle.std.specs.Prelude.{◌≡◌, ◌≤◌};
ghost use Rattle.plan.specs.Answer.{as_result};
ghost use Rattle.plan.specs.View.{viewed};
ghost use Rattle.school.specs.Tests.{unread, judged_of};
ghost use Rattle.school_judge.specs.Tested.{tested_by};
ghost use Rattle.school_judge.specs.Private.Judged.{judged_by};

use book_waits::wait_sets;
use lay::{known_tasks, known_ticks, right_tasks};
use pairs::Moments;
use plan::{Answer, Plan, PlanView, Refusal, few, granted};
use school::JudgedLog;
use school_read::{Found, read_log};
use tasks::{amiss, mislong, task_fault, untimely};
use text::TEXT_MOST;

// The number of the clash rule. `Rule` is `book`'s, on which this crate does not stand.
const CLASH: u8 = 1;

// What a log is tested by. right: 1 for each task with one start and one end, both on its board; waits: bit j of set i stands
// where task i waits for task j by the clash rule; the tasks' starts and ends.
#[derive(Clone, Copy)]
pub struct LogView<'a> {
    pub right: &'a [u8; 64],
    pub waits: &'a [u64; 64],
    pub start: &'a [u32; 64],
    pub end: &'a [u32; 64],
}

pub fn test_log(plan: &PlanView<'_>, log: &LogView<'_>) -> Result<(), Answer>
    ensures { result ≡ as_result (tested_by (viewed plan.now) log.now) }
{
    let tasks = usize::from(few(plan.tasks));
    let moments = Moments {
        waits: log.waits,
        start: log.start,
        end: log.end,
        tasks,
    };
    task_fault(Refusal::StartOrEndAmiss, amiss(log.right, tasks))?;
    task_fault(
        Refusal::LoggedLength,
        mislong(plan, log.start, log.end, tasks),
    )?;
    moments.fault()?;
    task_fault(Refusal::LoggedStart, untimely(plan, log.start, tasks))
}

// Nothing is found of a log that is not read.
pub fn not_read(answer: Answer) -> JudgedLog
    ensures { result ≡ unread answer }
{
    JudgedLog {
        answer,
        known: [0; 64],
        start: [0; 64],
        end: [0; 64],
    }
}

// What is found in a log, and the answer of its tests.
fn judge_found(plan: &PlanView<'_>, waits: &[u64; 64], found: &Found) -> JudgedLog
    requires { plan.now.tasks ≤ 64 }
    ensures { result ≡ judged_by (viewed plan.now) waits.now found.now }
{
    let tasks = usize::from(plan.tasks);
    let known = known_tasks(found, tasks);
    let right = right_tasks(found, &known, plan.board, tasks);
    let start = known_ticks(&known, &found.starts, tasks);
    let end = known_ticks(&known, &found.ends, tasks);
    let log = LogView {
        right: &right,
        waits,
        start: &start,
        end: &end,
    };
    let answer = test_log(plan, &log).err().unwrap_or(granted());
    JudgedLog {
        answer,
        known,
        start,
        end,
    }
}

// Who clashes is known by the wait sets of the clash rule: 26 is a task that starts before one that it waits for has ended.
pub fn judge_log(plan: Plan, log: &[u8]) -> JudgedLog
    ensures { result ≡ judged_of plan log.now }
{
    let view = plan.view();
    let Some(waits) = wait_sets(CLASH, &view) else {
        return not_read(Refusal::Unsound.answer(0, 0));
    };
    if TEXT_MOST < log.len() {
        return not_read(Refusal::TextTooLong.answer(0, 0));
    }
    match read_log(plan.boards, plan.tasks, log) {
        Ok(found) => judge_found(&view, &waits, &found),
        Err(line) => not_read(Refusal::LogLine.answer(line as u32, 0)),
    }
}
