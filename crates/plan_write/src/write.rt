// Writing a plan text. Its length comes first, so that a buffer that is too short is left as it is.
ghost use Rattle.std.specs.Prelude.{◌≡◌, true, length};
ghost use Rattle.plan.specs.Value.{is_accepted};
ghost use Rattle.plan.specs.View.{viewed};
ghost use Rattle.plan.specs.Write.{written_of, buffer_after};
ghost use Rattle.plan_write.specs.Private.WriteParts.{Answered};

use crate::measure::{sizes_len, tasks_len};
use crate::parts::{put_sizes, put_tasks};
use plan::{Plan, PlanView, Refusal, WriteResult, granted};
use plan_judge::value::is_accepted;

// The text of an accepted plan, where there is room for it.
fn write_accepted(out: &mut [u8], plan: &PlanView<'_>) -> WriteResult
    requires { is_accepted (viewed plan.now) ≡ true }
    ensures { Answered (viewed plan.now) out.old result out.new }
{
    let needed = sizes_len(plan) + tasks_len(plan);
    if out.len() < needed {
        return WriteResult {
            answer: Refusal::BufferTooShort.answer(needed as u32, 0),
            length: 0,
        };
    }
    let at = put_sizes(out, 0, plan);
    put_tasks(out, at, plan);
    WriteResult {
        answer: granted(),
        length: needed as u32,
    }
}

pub fn write_plan(plan: Plan, out: &mut [u8]) -> WriteResult
    ensures answer { result ≡ written_of plan (length out.old) }
    ensures bytes { out.new ≡ buffer_after plan out.old }
{
    let view = plan.view();
    if !is_accepted(&view) {
        return WriteResult {
            answer: Refusal::Unsound.answer(0, 0),
            length: 0,
        };
    }
    write_accepted(out, &view)
}
