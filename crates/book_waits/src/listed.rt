// A task's after list as a set.
ghost use Rattle.std.specs.Prelude.{◌≡◌, cond, ◌-◌, ◌^◌, ◌<◌, leb};
ghost use Rattle.plan.specs.Value.{items};
ghost use Rattle.book_waits.specs.Private.Arrays.{listed_set};

use book_view::bit_of;

// Task n is bit n - 1; a number past 64 names no task.
fn number_bit(number: u8) -> u64
    requires { 0 < number }
    ensures { result ≡ cond (leb number 64) (2 ^ (number - 1)) 0 }
{
    bit_of(number <= 64, (number - 1) as usize)
}

// The tasks that a list names up to its first 0.
pub(crate) fn listed_set(list: &[u8]) -> u64
    ensures { result ≡ listed_set (items list.now) }
{
    let mut set: u64 = 0;
    for &n in list {
        if n == 0 {
            return set;
        }
        set = set | number_bit(n);
    }
    set
}
