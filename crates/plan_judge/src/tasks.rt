// Judging the tasks of a plan: some task is planned at tick 0, then pair by pair.
ghost use Rattle.std.specs.Prelude.{◌≡◌, ◌<◌, ◌≤◌};
ghost use Rattle.plan.specs.Judged.{tasks_answer};
ghost use Rattle.plan.specs.View.{viewed};
ghost use Rattle.plan.specs.Private.Drives.{RowsInRange};
ghost use Rattle.laws.specs.Lists.{all_of};
ghost use Rattle.plan_judge.specs.Tasks.{is_place, judged_alone};
ghost use Rattle.plan_judge.specs.Private.Arrays.{tasks_of};
ghost use Rattle.plan_judge.specs.Private.Starts.{least_in};

use crate::pairs::first_fault;
use plan::{Answer, PlanView, Refusal};

// The least planned start. A walk that gathers to its end.
fn least_start(begin: &[u32; 64], tasks: usize) -> u32
    requires { (0 < tasks) × (tasks ≤ 64) }
    ensures { result ≡ least_in begin.now tasks }
{
    let mut least = begin[0];
    for k in 1..tasks {
        least = least.min(begin[k]);
    }
    least
}

// 17 where no task is planned at 0, then 6, 7 or 8 of the first faulty pair; granted where there is none.
pub(crate) fn judge_kept(plan: &PlanView<'_>) -> Answer
    requires { (0 < plan.now.tasks) × RowsInRange plan.now.holds.now plan.now.tasks }
    ensures { result ≡ tasks_answer plan.now.tasks (tasks_of (viewed plan.now)) }
{
    let least = least_start(plan.begin, plan.tasks as usize);
    if least != 0 {
        return Refusal::NoneAtZero.answer(least, 0);
    }
    first_fault(plan)
}

// Has each place of a list of holds nothing, or one of the 32 drives? A walk that gathers to its end can use wide instructions.
fn places_ok(holds: &[u8]) -> bool
    ensures { result ≡ all_of is_place holds.now }
{
    let mut all = true;
    for h in holds {
        let drive = *h / 2;
        all = ((*h == 0) | ((1 <= drive) & (drive <= 32))) & all;
    }
    all
}

// The same for a plan of which nothing is known, so that who reads a plan need not judge its ranges twice.
pub fn judge_tasks(plan: &PlanView<'_>) -> Answer
    ensures { result ≡ judged_alone (viewed plan.now) }
{
    // an array that a field shows is lent as a slice by a variable: the checker asks for the copy of the reference
    let holds = plan.holds;
    if !(((1 <= plan.tasks) & (plan.tasks <= 64)) & places_ok(holds)) {
        return Refusal::Unsound.answer(0, 0);
    }
    judge_kept(plan)
}
