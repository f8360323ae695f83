// Judging a plan that is handed in as a value, where it stands, so that a book need not be copied for it.
ghost use Rattle.std.specs.Prelude.{◌≡◌};
ghost use Rattle.plan.specs.Value.{judged_answer, is_accepted};
ghost use Rattle.plan.specs.View.{viewed};

use crate::tasks::judge_kept;
use plan::{Answer, PlanView, Refusal};
use plan_ranges::keeps_ranges;

// 9 where the ranges are broken, else what the tasks are judged.
pub fn judge_plan(plan: &PlanView<'_>) -> Answer
    ensures { result ≡ judged_answer (viewed plan.now) }
{
    if !keeps_ranges(plan) {
        return Refusal::Unsound.answer(0, 0);
    }
    judge_kept(plan)
}

// Code 9's test of a plan. It asks both tests itself: by way of judge_plan it would take a frame more of the stack.
pub fn is_accepted(plan: &PlanView<'_>) -> bool
    ensures { result ≡ is_accepted (viewed plan.now) }
{
    if !keeps_ranges(plan) {
        return false;
    }
    let said = judge_kept(plan);
    said.code == 0
}
