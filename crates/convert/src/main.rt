// The program: plan.txt in, its text in edition 2 out. Every byte of that text comes from `convert_text`.
#![tactic(auto)]

ghost use Rattle.std.specs.Prelude.{◌≡◌};
ghost use Rattle.plan_convert.specs.Renewed.{renewed_text};

use files::both::READ_MOST;
use files::say::{Say, Told};
use files::{print, read_text};
use plan_convert::convert_text;
use std::rt::Files;
use text::TEXT_MOST;

// The front of the buffer is the whole answer, whatever the text is.
fn put_converted<'o>(plan: &[u8], out: &'o mut [u8; TEXT_MOST]) -> &'o [u8]
    ensures { result.now ≡ renewed_text plan.now }
{
    let length = convert_text(plan, out);
    &out[..length]
}

fn run(rt: &(impl Files + Print + Say)) -> Result<(), Told> {
    let mut plan = [0u8; READ_MOST];
    let read = read_text(rt, b"plan.txt", &mut plan)?;
    let mut out = [0u8; TEXT_MOST];
    print(rt, put_converted(read, &mut out))
}

// The exit status is 0 after a failure too.
fn main(rt: HostRuntime) {
    let _ = run(&rt);
}
