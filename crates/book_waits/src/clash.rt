// The tasks that clash with a task: those on its board, those that its holds clash with, and those that it lists under after.
ghost use Rattle.std.specs.Prelude.{◌≡◌, ◌+◌, ◌<◌, ◌≤◌, eqb};
ghost use Rattle.laws.specs.Bits.{sets_to};
ghost use Rattle.plan.specs.Value.{at};
ghost use Rattle.plan.specs.View.{viewed};
ghost use Rattle.book_waits.specs.Private.Arrays.{OnEight, clash_set};

use crate::listed::listed_set;
use book_holders::Holders;
use book_view::bit_of;
use plan::PlanView;

// For each board, from 1, the tasks on it.
pub(crate) fn board_sets(plan: &PlanView<'_>) -> [u64; 8]
    requires { (plan.now.tasks ≤ 64) × OnEight plan.now.board.now plan.now.tasks }
    ensures { result ≡ sets_to 8 plan.now.tasks (λ b k. eqb (b + 1) (at plan.now.board.now k)) }
{
    let mut sets = [0u64; 8];
    for k in 0..plan.tasks as usize {
        let b = (plan.board[k] - 1) as usize;
        sets[b] = sets[b] | bit_of(true, k);
    }
    sets
}

// Who lists task i and is waited for by it there is none, so nobody looks for it.
pub(crate) fn clash_set(plan: &PlanView<'_>, on: &[u64; 8], drives: &Holders, i: usize) -> u64
    requires { (i < 64) × (0 < at plan.now.board.now i) × (at plan.now.board.now i ≤ 8) }
    ensures { result ≡ clash_set (viewed plan.now) on.now drives.now i }
{
    let beside = on[(plan.board[i] - 1) as usize];
    beside | (drives.rivals(plan.holds_of(i)) | listed_set(plan.after_of(i)))
}
