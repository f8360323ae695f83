// The lowest task of which a test holds, from 1.
ghost use Rattle.std.specs.Prelude.{ℕ, Bool, ◌≡◌, not, ◌-◌, ◌<◌, ◌≤◌};
ghost use Rattle.laws.specs.Private.Nonzero.{nonzero};
ghost use Rattle.text_fields.specs.Items.{between};
ghost use Rattle.theory.specs.Times.{lowest};
ghost use Rattle.plan.specs.Refusal.{refusal_number};
ghost use Rattle.plan.specs.Value.{at};
ghost use Rattle.plan.specs.View.{viewed};
ghost use Rattle.school.specs.Tests.{is_mislong, is_untimely};
ghost use Rattle.school_judge.specs.Tests.{is_amiss};
ghost use Rattle.school_judge.specs.Private.ToldOf.{told_of};

use plan::{Answer, PlanView, Refusal};

// Its refusal, where there is such a task.
pub(crate) fn task_fault(refusal: Refusal, task: Option<u32>) -> Result<(), Answer>
    ensures { result ≡ told_of (refusal_number refusal) task }
{
    match task {
        None => Ok(()),
        Some(task) => Err(refusal.answer(task, 0)),
    }
}

// The lowest task of which the test holds, from 1.
fn lowest_of<F: Fn(usize) -> bool>(tasks: usize, test: F) -> Option<u32>
    requires few { tasks ≤ 64 }
    requires callable { (i : ℕ) → i < tasks → F.pre test i }
    ensures { (p : ℕ → Bool) → ((i : ℕ) (r : Bool) → i < tasks → F.post test i r → r ≡ p i) → result ≡ nonzero (lowest tasks p) }
{
    for i in 0..tasks {
        if test(i) {
            return Some((i + 1) as u32);
        }
    }
    None
}

// 24
pub(crate) fn amiss(right: &[u8; 64], tasks: usize) -> Option<u32>
    requires { tasks ≤ 64 }
    ensures { result ≡ nonzero (lowest tasks (is_amiss right.now)) }
{
    lowest_of(tasks, |i| right[i] != 1)
}

// A length that would be below 0 is 0 here, which is no right length.
fn is_mislong(begin: u32, finish: u32, start: u32, end: u32) -> bool
    ensures { result ≡ not (between 1 (finish - begin) (end - start)) }
{
    let length = end.saturating_sub(start);
    !((1 <= length) & (length <= finish.saturating_sub(begin)))
}

// 25
pub(crate) fn mislong(
    plan: &PlanView<'_>,
    start: &[u32; 64],
    end: &[u32; 64],
    tasks: usize,
) -> Option<u32>
    requires { tasks ≤ 64 }
    ensures { result ≡ nonzero (lowest tasks (is_mislong (viewed plan.now) (at start.now) (at end.now))) }
{
    let (begin, finish) = (plan.begin, plan.finish);
    lowest_of(tasks, |i| is_mislong(begin[i], finish[i], start[i], end[i]))
}

// 27
pub(crate) fn untimely(plan: &PlanView<'_>, start: &[u32; 64], tasks: usize) -> Option<u32>
    requires { tasks ≤ 64 }
    ensures { result ≡ nonzero (lowest tasks (is_untimely (viewed plan.now) (at start.now))) }
{
    let (ready, begin) = (plan.ready, plan.begin);
    lowest_of(tasks, |i| (begin[i] < start[i]) | (start[i] < ready[i]))
}
