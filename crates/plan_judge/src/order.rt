// Tasks that come after others, task by task: where none is broken, no pair need be searched for code 8.
ghost use Rattle.std.specs.Prelude.{◌≡◌, ◌<◌, ◌≤◌};
ghost use Rattle.laws.specs.Every.{every};
ghost use Rattle.laws.specs.Lists.{any_of};
ghost use Rattle.plan.specs.Value.{items};
ghost use Rattle.plan.specs.View.{viewed};
ghost use Rattle.plan_judge.specs.Private.Arrays.{is_late, row_in_order};

use plan::PlanView;

// A number past 64 names no task: the pairs are then searched in full.
fn is_late(finish: &[u32; 64], tick: u32, number: u8) -> bool
    requires { 0 < number }
    ensures { result ≡ is_late finish.now tick number }
{
    if 64 < number {
        return true;
    }
    tick < finish[(number - 1) as usize]
}

// Is one of the listed tasks planned to finish past the tick?
fn lists_late(list: &[u8], finish: &[u32; 64], tick: u32) -> bool
    ensures { result ≡ any_of (is_late finish.now tick) (items list.now) }
{
    for n in list {
        if *n == 0 {
            return false;
        }
        if is_late(finish, tick, *n) {
            return true;
        }
    }
    false
}

fn row_in_order(plan: &PlanView<'_>, k: usize) -> bool
    requires { k < 64 }
    ensures { result ≡ row_in_order (viewed plan.now) k }
{
    !lists_late(plan.after_of(k), plan.finish, plan.begin[k])
}

pub(crate) fn in_order(plan: &PlanView<'_>) -> bool
    requires { plan.now.tasks ≤ 64 }
    ensures { result ≡ every plan.now.tasks (row_in_order (viewed plan.now)) }
{
    for k in 0..plan.tasks as usize {
        if !row_in_order(plan, k) {
            return false;
        }
    }
    true
}
