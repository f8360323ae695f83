// Two tasks examined, and the search for the first faulty pair.
ghost use Rattle.std.specs.Prelude.{◌≡◌, ◌+◌, ◌<◌, ◌≤◌};
ghost use Rattle.laws.specs.Every.{every};
ghost use Rattle.plan.specs.Pairs.{is_listed, pair_code, first_fault};
ghost use Rattle.plan.specs.Value.{row, items};
ghost use Rattle.plan.specs.View.{viewed};
ghost use Rattle.plan.specs.Private.Drives.{RowsInRange};
ghost use Rattle.plan_judge.specs.Private.Arrays.{tasks_of, meet_in, breaks_in, row_in_order, PairInOrder, PassedOver};
ghost use Rattle.plan_judge.specs.Private.Drives.{PairInRange};
ghost use Rattle.plan_judge.specs.Private.Faults.{code_or_0, row_refusal};

use crate::drives::clash_by_drive;
use crate::order::in_order;
use plan::{Answer, PlanView, Refusal, granted};

// Does the task number stand in the list?
fn is_listed(list: &[u8], number: u8) -> bool
    ensures { result ≡ is_listed (items list.now) number }
{
    for n in list {
        if *n == 0 {
            return false;
        }
        if number == *n {
            return true;
        }
    }
    false
}

// The planned times overlap, half open, of two different tasks.
fn meet(plan: &PlanView<'_>, a: usize, b: usize) -> bool
    requires { (a < 64) × (b < 64) }
    ensures { result ≡ meet_in (viewed plan.now) a b }
{
    (a != b) & ((plan.begin[a] < plan.finish[b]) & (plan.begin[b] < plan.finish[a]))
}

// Task a lists task b under after, and b's planned finish is past a's planned start.
fn breaks_after(plan: &PlanView<'_>, a: usize, b: usize) -> bool
    requires { (a < 64) × (b < 64) }
    ensures { result ≡ breaks_in (viewed plan.now) a b }
{
    if plan.begin[a] < plan.finish[b] {
        return is_listed(plan.after_of(a), (b + 1) as u8);
    }
    false
}

// Where all tasks are in order no list is walked for a broken after. `ordered` is that fact, found once: it saves the walk and changes no answer.
fn pair_fault(plan: &PlanView<'_>, ordered: bool, a: usize, b: usize) -> Option<Refusal>
    requires { PairInRange plan.now.holds.now a b × PairInOrder (viewed plan.now) ordered a b }
    ensures { code_or_0 result ≡ pair_code (tasks_of (viewed plan.now)) a b }
{
    if meet(plan, a, b) {
        if plan.board[a] == plan.board[b] {
            return Some(Refusal::BoardShared);
        }
        if clash_by_drive(plan, a, b) {
            return Some(Refusal::DriveClash);
        }
    }
    if ordered {
        return None;
    }
    if breaks_after(plan, a, b) {
        return Some(Refusal::AfterBroken);
    }
    if breaks_after(plan, b, a) {
        return Some(Refusal::AfterBroken);
    }
    None
}

// From b on, the next task whose pair with a may be faulty, or the number of tasks, which ends the walk. Where all tasks are in order,
// a fact found once, that is one that overlaps with a.
fn next_pair(plan: &PlanView<'_>, ordered: bool, a: usize, b: usize) -> usize
    requires { (a < plan.now.tasks) × (b ≤ plan.now.tasks) × (plan.now.tasks ≤ 64) }
    ensures { PassedOver (viewed plan.now) ordered a b result }
{
    if !ordered {
        return b;
    }
    let (begin, finish) = (plan.begin, plan.finish);
    let (from, to) = (begin[a], finish[a]);
    for i in b..plan.tasks as usize {
        if (begin[i] < to) & (from < finish[i]) {
            return i;
        }
    }
    plan.tasks as usize
}

// The refusal of the first faulty pair of a and a task from a on. A `for` over all pairs takes a fifth more time.
fn row_fault(plan: &PlanView<'_>, ordered: bool, a: usize) -> Option<Answer>
    requires { RowsInRange plan.now.holds.now plan.now.tasks × (a < plan.now.tasks) × (ordered ≡ every plan.now.tasks (row_in_order (viewed plan.now))) }
    ensures { result ≡ row_refusal (viewed plan.now) a }
{
    let mut b = a;
    while b < plan.tasks as usize {
        if let Some(fault) = pair_fault(plan, ordered, a, b) {
            return Some(fault.answer((a + 1) as u32, (b + 1) as u32));
        }
        b = next_pair(plan, ordered, a, b + 1);
    }
    None
}

// The first faulty pair, by a and then by b; granted where there is none.
pub(crate) fn first_fault(plan: &PlanView<'_>) -> Answer
    requires { RowsInRange plan.now.holds.now plan.now.tasks }
    ensures { result ≡ first_fault plan.now.tasks (tasks_of (viewed plan.now)) }
{
    let ordered = in_order(plan);
    for a in 0..plan.tasks as usize {
        if let Some(fault) = row_fault(plan, ordered, a) {
            return fault;
        }
    }
    granted()
}
