// The starts and ends, one task after the other, each once all it waits for are done.
ghost use Rattle.std.specs.Prelude.{◌≡◌, cond, ◌+◌, ◌<◌, ◌≤◌, max, eqb};
ghost use Rattle.theory.specs.Times.{start_time, end_time};
ghost use Rattle.plan.specs.Value.{at};
ghost use Rattle.book_view.specs.View.{laid};
ghost use Rattle.engine.specs.Private.Worked.{plan_timed, FreeTask, Solvable};

use crate::Lengths;
use book_view::{bit_of, is_in, latest_end};

// As the C struct `Timetable` has them.
#[derive(Drop)]
pub(crate) struct Times {
    pub start: [u32; 64],
    pub end: [u32; 64],
}

// A task that is not done while all that it waits for are.
fn free_task(waits: &[u64; 64], done: u64, tasks: usize) -> Option<usize>
    requires { tasks ≤ 64 }
    ensures { FreeTask waits.now done tasks result }
{
    for i in 0..tasks {
        let awaited = waits[i];
        if !is_in(done, i) && awaited & done == awaited {
            return Some(i);
        }
    }
    None
}

// A dropped task's ready tick is ignored. `dropped` is a byte of the C interface, which may be any.
fn start_at(dropped: u8, ready: u32, due: u32) -> u32
    ensures { result ≡ cond (eqb dropped 1) due (max ready due) }
{
    if dropped == 1 { due } else { ready.max(due) }
}

// And it takes no time.
fn end_at(dropped: u8, start: u32, length: u32) -> u32
    requires { start + cond (eqb dropped 1) 0 length ≤ 1000000 }
    ensures { result ≡ start + cond (eqb dropped 1) 0 length }
{
    if dropped == 1 { start } else { start + length }
}

pub(crate) fn work_all(ready: &[u32; 64], waits: &[u64; 64], given: &Lengths, tasks: usize) -> Times
    requires { Solvable tasks ready.now waits.now given.now.length given.now.dropped }
    ensures { (result.start ≡ laid tasks (start_time (plan_timed tasks ready.now waits.now) (at given.now.length) (at given.now.dropped))) × (result.end ≡ laid tasks (end_time (plan_timed tasks ready.now waits.now) (at given.now.length) (at given.now.dropped))) }
{
    let mut start = [0u32; 64];
    let mut end = [0u32; 64];
    let mut done: u64 = 0;
    while let Some(i) = free_task(waits, done, tasks) {
        let due = latest_end(waits[i], &end, tasks);
        let from = start_at(given.dropped[i], ready[i], due);
        start[i] = from;
        end[i] = end_at(given.dropped[i], from, given.length[i]);
        done |= bit_of(true, i);
    }
    Times { start, end }
}
