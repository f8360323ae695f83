// The program: plan.txt and log.txt in, what the log is judged out. Every byte of it comes from `write_judged`.
#![tactic(auto)]

ghost use Rattle.std.specs.Prelude.{◌≡◌};
ghost use Rattle.school.specs.Text.{judged_log};

use files::both::{READ_MOST, read_both};
use files::print;
use files::say::{Say, Told};
use school_write::{JUDGED_MOST, write_judged};
use std::rt::Files;

// The front of the buffer is the whole text, whatever the two texts are.
fn put_verdict<'o>(plan: &[u8], log: &[u8], out: &'o mut [u8; JUDGED_MOST]) -> &'o [u8]
    ensures { result.now ≡ judged_log plan.now log.now }
{
    let length = write_judged(plan, log, out);
    &out[..length]
}

// Nothing is printed before both files are read.
fn run(rt: &(impl Files + Print + Say)) -> Result<(), Told> {
    let mut plan = [0u8; READ_MOST];
    let mut log = [0u8; READ_MOST];
    let read = read_both(rt, b"log.txt", &mut plan, &mut log)?;
    let mut out = [0u8; JUDGED_MOST];
    print(rt, put_verdict(read.plan, read.text, &mut out))
}

// The exit status is 0 after a failure too.
fn main(rt: HostRuntime) {
    let _ = run(&rt);
}
