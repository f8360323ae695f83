// The two files that most programs read: plan.txt, and the text beside it.
ghost use Rattle.std.specs.Prelude.{◌≤◌, length, IfOk};

use crate::read_text;
use crate::say::{Say, Told};
use std::rt::Files;

// One byte more than a text may have: enough to see that a file is too long.
pub const READ_MOST: usize = 32769;

// What stands in the two buffers of the plan and of the text beside it.
#[derive(Clone, Copy)]
pub struct PlanAndText<'b> {
    pub plan: &'b [u8],
    pub text: &'b [u8],
}

// Reads plan.txt and then the file beside it. If one cannot be read the other is of no use, and one sentence is said.
pub fn read_both<'b>(
    rt: &(impl Files + Say),
    name: &[u8],
    plan: &'b mut [u8],
    text: &'b mut [u8],
) -> Result<PlanAndText<'b>, Told>
    ensures plan { IfOk result (λ read. length read.plan.now ≤ length plan.old) }
    ensures text { IfOk result (λ read. length read.text.now ≤ length text.old) }
{
    let plan = read_text(rt, b"plan.txt", plan)?;
    let text = read_text(rt, name, text)?;
    Ok(PlanAndText { plan, text })
}
