// The wait set of every task of an accepted plan, by the rule of its book: bit j of set i stands where task i waits for task j.
#![tactic(auto)]

mod clash;
mod listed;
mod sets;

ghost use Rattle.std.specs.Prelude.{◌≡◌};
ghost use Rattle.plan.specs.View.{viewed};
ghost use Rattle.book_waits.specs.Waits.{waits_of};

use plan::PlanView;
use plan_judge::value::is_accepted;
use sets::fill_sets;

// None where the plan is not accepted or the rule is none of the two. `rule` is a book's byte, which may be any (C interface).
pub fn wait_sets(rule: u8, plan: &PlanView<'_>) -> Option<[u64; 64]>
    ensures { result ≡ waits_of rule (viewed plan.now) }
{
    if 1 < rule {
        return None;
    }
    if !is_accepted(plan) {
        return None;
    }
    let mut sets = [0u64; 64];
    fill_sets(&mut sets, rule, plan);
    Some(sets)
}
