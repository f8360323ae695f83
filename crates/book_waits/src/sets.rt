// The wait sets of all tasks: by Early Start those that are planned to finish by the task's planned start, by clash those of them that clash with it.
ghost use Rattle.std.specs.Prelude.{◌≡◌, ◌<◌, ◌≤◌, leb, length, replicate};
ghost use Rattle.laws.specs.Bits.{sets_to};
ghost use Rattle.laws.specs.Private.Noted.{noted};
ghost use Rattle.plan.specs.Value.{at};
ghost use Rattle.plan.specs.View.{viewed};
ghost use Rattle.book_waits.specs.Waits.{sets_by};
ghost use Rattle.book_waits.specs.Private.Arrays.{OnEight, clash_sets, Fit};

use crate::clash::{board_sets, clash_set};
use book_holders::holders_of;
use book_view::bit_of;
use plan::PlanView;

// Task j, planned to finish at the tick, put into the sets of those that are planned to start by then or later. All places are walked alike, so that the walk can use wide instructions.
fn await_task(sets: &mut [u64; 64], begin: &[u32; 64], tick: u32, j: usize)
    requires { (j < 64) × (length sets.old ≡ 64) }
    ensures { sets.new ≡ noted 64 (λ i. leb tick (at begin.now i)) j sets.old }
{
    for i in 0..64 {
        sets[i] = sets[i] | bit_of(tick <= begin[i], j);
    }
}

// Places past the last task are planned to start at 0, and await nobody.
fn early_sets(sets: &mut [u64; 64], plan: &PlanView<'_>)
    requires { (plan.now.tasks ≤ 64) × (sets.old ≡ replicate 64 0) }
    ensures { sets.new ≡ sets_to 64 plan.now.tasks (λ i j. leb (at plan.now.finish.now j) (at plan.now.begin.now i)) }
{
    for j in 0..plan.tasks as usize {
        await_task(sets, plan.begin, plan.finish[j], j);
    }
}

// Of the early sets those that clash.
fn clash_sets(sets: &mut [u64; 64], plan: &PlanView<'_>)
    requires { (plan.now.tasks ≤ 64) × OnEight plan.now.board.now plan.now.tasks }
    ensures { sets.new ≡ clash_sets sets.old (viewed plan.now) plan.now.tasks }
{
    let on = board_sets(plan);
    let drives = holders_of(plan.holds);
    for i in 0..plan.tasks as usize {
        sets[i] = clash_set(plan, &on, &drives, i) & sets[i];
    }
}

// Filled in place, so that the stack holds one copy of the sets.
pub(crate) fn fill_sets(sets: &mut [u64; 64], rule: u8, plan: &PlanView<'_>)
    requires { (sets.old ≡ replicate 64 0) × Fit (viewed plan.now) }
    ensures { sets.new ≡ sets_by rule (viewed plan.now) }
{
    early_sets(sets, plan);
    if rule != 0 {
        clash_sets(sets, plan);
    }
}
