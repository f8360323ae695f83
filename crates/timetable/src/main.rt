// The program: plan.txt and lengths.txt in, the timetable out. Every byte of it comes from `write_timetable`.
#![tactic(auto)]

ghost use Rattle.std.specs.Prelude.{◌≡◌};
ghost use Rattle.engine_write.specs.Table.{table_of};

use engine_write::{TABLE_MOST, write_timetable};
use files::both::{READ_MOST, read_both};
use files::print;
use files::say::{Say, Told};
use std::rt::Files;

// The front of the buffer is the whole text, whatever the two texts are.
fn put_table<'o>(plan: &[u8], lengths: &[u8], out: &'o mut [u8; TABLE_MOST]) -> &'o [u8]
    ensures { result.now ≡ table_of plan.now lengths.now }
{
    let length = write_timetable(plan, lengths, out);
    &out[..length]
}

// Nothing is printed before both files are read.
fn run(rt: &(impl Files + Print + Say)) -> Result<(), Told> {
    let mut plan = [0u8; READ_MOST];
    let mut lengths = [0u8; READ_MOST];
    let read = read_both(rt, b"lengths.txt", &mut plan, &mut lengths)?;
    let mut out = [0u8; TABLE_MOST];
    print(rt, put_table(read.plan, read.text, &mut out))
}

// The exit status is 0 after a failure too.
fn main(rt: HostRuntime) {
    let _ = run(&rt);
}
