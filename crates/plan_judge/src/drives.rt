// The test for a clash by drive: a task's holds as one set of the drives held exclusively and one of all. Drive d is bit d - 1.
ghost use Rattle.std.specs.Prelude.{◌≡◌, cond, ◌-◌, ◌^◌};
ghost use Rattle.text_fields.specs.Items.{between, drive_of};
ghost use Rattle.plan.specs.Pairs.{clash_by_drive};
ghost use Rattle.plan.specs.Value.{row, items};
ghost use Rattle.plan_judge.specs.Private.Drives.{sets_of, PairInRange};

use crate::Sets;
use plan::PlanView;

// The bit of the hold's drive; a drive that is not of the 32 has none. The test is of the hold: one comparison.
fn drive_bit(hold: u8) -> u32
    ensures { result ≡ cond (between 1 32 (drive_of hold)) (2 ^ (drive_of hold - 1)) 0 }
{
    if (2 <= hold) & (hold <= 65) {
        return 1 << (hold / 2 - 1);
    }
    0
}

// Both sets of a list, in one walk up to its first 0.
fn gather(list: &[u8]) -> Sets
    ensures { result ≡ sets_of (items list.now) }
{
    let mut exclusive: u32 = 0;
    let mut held: u32 = 0;
    for h in list {
        if *h == 0 {
            return Sets { exclusive, held };
        }
        let bit = drive_bit(*h);
        held |= bit;
        if *h % 2 != 1 {
            exclusive |= bit;
        }
    }
    Sets { exclusive, held }
}

// Do two tasks hold a common drive, at least one of them exclusively?
pub(crate) fn clash_by_drive(plan: &PlanView<'_>, a: usize, b: usize) -> bool
    requires { PairInRange plan.now.holds.now a b }
    ensures { result ≡ clash_by_drive (items (row 32 plan.now.holds.now a)) (items (row 32 plan.now.holds.now b)) }
{
    let these = gather(plan.holds_of(a));
    let those = gather(plan.holds_of(b));
    (these.exclusive & those.held != 0) | (these.held & those.exclusive != 0)
}
