// What several functions on a book ask: a task's start and limit, the places of the tasks, a task's bit in a set, the latest end of those in a set.
#![tactic(auto)]

ghost use Rattle.std.specs.Prelude.{◌≡◌, cond, ◌+◌, ◌-◌, ◌%◌, ◌^◌, min, max, length};
ghost use Rattle.laws.specs.Bits.{has};
ghost use Rattle.laws.specs.Picked.{latest};
ghost use Rattle.plan.specs.Value.{at};

use plan::PlanView;

// A book where it stands, so that asking about it copies nothing.
#[derive(Clone, Copy)]
pub struct BookView<'a> {
    pub plan: PlanView<'a>,
    pub rule: u8,
    pub clock: u32,
    pub start: &'a [u32; 64],
    pub end: &'a [u32; 64],
    pub mark: &'a [u8; 64],
    pub dropped: &'a [u8; 64],
}

// A task starts at the later of its ready tick and the latest end of those it waits for.
pub fn start_of(ready: u32, end: u32) -> u32
    ensures { result ≡ max ready end }
{
    ready.max(end)
}

// A task's limit is its start + length.
pub fn limit_of(begin: u32, finish: u32, start: u32) -> u64
    ensures { result ≡ start + (finish - begin) }
{
    u64::from(start) + u64::from(finish.saturating_sub(begin))
}

// The places of the tasks among those of an array, however many tasks a value may claim.
pub fn places(tasks: u8, array: &[u8]) -> usize
    ensures { result ≡ min tasks (length array.now) }
{
    usize::from(tasks).min(array.len())
}

// The bit of a task, or none. A set has 64. The fact is data and nothing branches on it, so that walks that gather by it can use wide instructions.
pub fn bit_of(stands: bool, task: usize) -> u64
    ensures { result ≡ cond stands (2 ^ (task % 64)) 0 }
{
    if stands { 1 << (task % 64) } else { 0 }
}

// Is the task in the set?
pub fn is_in(set: u64, task: usize) -> bool
    ensures { result ≡ has set (task % 64) }
{
    (set >> (task % 64)) % 2 == 1
}

// The later of two ends; the first counts only if it is picked. No branch, as in `bit_of`.
pub fn later(picked: bool, end: u32, last: u32) -> u32
    ensures { result ≡ max last (cond picked end 0) }
{
    last.max(if picked { end } else { 0 })
}

// The latest end of those in a set; tasks without a place are in no set.
pub fn latest_end(awaited: u64, end: &[u32; 64], tasks: usize) -> u32
    ensures { result ≡ latest (min tasks 64) (has awaited) (at end.now) }
{
    let mut last = 0;
    for j in 0..tasks.min(64) {
        last = later(is_in(awaited, j), end[j], last);
    }
    last
}
