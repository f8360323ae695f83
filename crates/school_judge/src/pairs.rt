// 26: the first clashing pair that overlaps or runs against plan order.
ghost use Rattle.std.specs.Prelude.{◌≡◌, not, ◌&&◌, ◌+◌, ◌<◌, ◌≤◌, ltb};
ghost use Rattle.laws.specs.Bits.{has};
ghost use Rattle.laws.specs.Every.{every, any};
ghost use Rattle.laws.specs.Scan.{scan_to};
ghost use Rattle.plan.specs.Answer.{granted, is_refused, as_result};
ghost use Rattle.plan.specs.Value.{at};
ghost use Rattle.school.specs.Tests.{pair_fault, against_fault};
ghost use Rattle.school_judge.specs.Private.Moments.{is_sooner_in, is_against_in};

use book_view::is_in;
use plan::{Answer, Refusal};

// Who waits for whom, and when each task starts and ends.
#[derive(Clone, Copy)]
pub(crate) struct Moments<'a> {
    pub(crate) waits: &'a [u64; 64],
    pub(crate) start: &'a [u32; 64],
    pub(crate) end: &'a [u32; 64],
    pub(crate) tasks: usize,
}

impl Moments<'_> {
    // Does a task that waits for task j start before it has ended, at the tick? A walk that gathers to its end, so that it can use wide instructions.
    fn is_preceded(&self, tick: u32, j: usize) -> bool
        requires { (j < 64) × (self.now.tasks ≤ 64) }
        ensures { result ≡ any self.now.tasks (λ i. has (at self.now.waits.now i) j && ltb (at self.now.start.now i) tick) }
    {
        let mut some = false;
        for i in 0..self.tasks {
            some = (is_in(self.waits[i], j) & (self.start[i] < tick)) | some;
        }
        some
    }

    // Where no task is preceded, no pair need be searched.
    fn are_clean(&self) -> bool
        requires { self.now.tasks ≤ 64 }
        ensures { result ≡ every self.now.tasks (λ j. not (any self.now.tasks (λ i. is_sooner_in self.now i j))) }
    {
        for j in 0..self.tasks {
            if self.is_preceded(self.end[j], j) {
                return false;
            }
        }
        true
    }

    // Task b starts before task a has ended, for which it waits.
    fn is_sooner(&self, b: usize, a: usize) -> bool
        requires { (a < 64) × (b < 64) }
        ensures { result ≡ is_sooner_in self.now b a }
    {
        is_in(self.waits[b], a) & (self.start[b] < self.end[a])
    }

    // The first pair of task a with a later one.
    fn row_fault(&self, a: usize) -> Result<(), Answer>
        requires { (a < self.now.tasks) × (self.now.tasks ≤ 64) }
        ensures { result ≡ as_result (scan_to is_refused granted (pair_fault (is_against_in self.now) a) (a + 1) self.now.tasks) }
    {
        for b in a + 1..self.tasks {
            if self.is_sooner(a, b) | self.is_sooner(b, a) {
                return Err(Refusal::LoggedClash.answer((a + 1) as u32, (b + 1) as u32));
            }
        }
        Ok(())
    }

    pub(crate) fn fault(&self) -> Result<(), Answer>
        requires { self.now.tasks ≤ 64 }
        ensures { result ≡ as_result (against_fault self.now.tasks (is_against_in self.now)) }
    {
        if self.are_clean() {
            return Ok(());
        }
        for a in 0..self.tasks {
            self.row_fault(a)?;
        }
        Ok(())
    }
}
