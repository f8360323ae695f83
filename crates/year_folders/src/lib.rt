// The log of a folder added to the totals of a year.
#![tactic(auto)]

ghost use Rattle.std.specs.Prelude.{◌≡◌, OnErr};

use files::read_in;
use files::say::{Say, Told};
use std::rt::Files;
use year_rules::Totals;
use year_totals::add_texts;

// Both files are read before the log is judged. Where one is missing or cannot be read, nothing is added.
pub fn add_folder(
    rt: &(impl Files + Say),
    name: &[u8],
    plan: &mut [u8],
    log: &mut [u8],
    totals: &mut Totals,
) -> Result<(), Told>
    ensures { OnErr result (totals.new ≡ totals.old) }
{
    let plan = read_in(rt, name, b"/plan.txt", plan)?;
    let log = read_in(rt, name, b"/log.txt", log)?;
    *totals = add_texts(plan, log, *totals);
    Ok(())
}
