// The program: plan.txt and ends.txt in, the log out. Every byte of the log comes from `run_log`.
#![tactic(auto)]

ghost use Rattle.std.specs.Prelude.{◌≡◌};
ghost use Rattle.log_run.specs.Log.{log_of};

use files::both::{READ_MOST, read_both};
use files::print;
use files::say::{Say, Told};
use log_run::{LOG_MOST, run_log};
use std::rt::Files;

// The front of the buffer is the whole log, whatever the two texts are.
fn put_log<'o>(plan: &[u8], ends: &[u8], out: &'o mut [u8; LOG_MOST]) -> &'o [u8]
    ensures { result.now ≡ log_of plan.now ends.now }
{
    let length = run_log(plan, ends, out);
    &out[..length]
}

// Nothing is printed before both files are read.
fn run(rt: &(impl Files + Print + Say)) -> Result<(), Told> {
    let mut plan = [0u8; READ_MOST];
    let mut ends = [0u8; READ_MOST];
    let read = read_both(rt, b"ends.txt", &mut plan, &mut ends)?;
    let mut out = [0u8; LOG_MOST];
    print(rt, put_log(read.plan, read.text, &mut out))
}

// The exit status is 0 after a failure too.
fn main(rt: HostRuntime) {
    let _ = run(&rt);
}
