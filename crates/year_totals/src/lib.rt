// A log added to the totals of a year.
// A log added to the totals of a year, from the two texts.
#![tactic(auto)]

ghost use Rattle.std.specs.Prelude.{◌≡◌, true, ◌+◌, ◌≤◌, ◌<◌};
ghost use Rattle.year_rules.specs.Figures.{figures_on};
ghost use Rattle.year_rules.specs.Totals.{totals_ok, with_figures, with_refused, not_added, added_of};
ghost use Rattle.year_totals.specs.Private.Tallies.{with_figure, tally_after};
ghost use Rattle.plan.specs.Read.{reading_of};

use plan::{Answer, Plan, Refusal, granted};
use plan_read::read_plan;
use school::JudgedLog;
use school_judge::{judge_log, not_read};
use year_rules::{AddResult, LOGS_MOST, Tally, Totals, are_in_bounds};

// A figure more: the first replaces the greatest and the least.
fn with_figure(held: Tally, figure: u32) -> Tally
    requires { (held.ended < 4294967295) × (held.sum < 9223372036854775808) }
    ensures { result ≡ with_figure held figure }
{
    let ended = held.ended + 1;
    let sum = held.sum + u64::from(figure);
    if held.ended == 0 {
        return Tally {
            ended,
            sum,
            greatest: figure,
            least: figure,
        };
    }
    Tally {
        ended,
        sum,
        greatest: held.greatest.max(figure),
        least: held.least.min(figure),
    }
}

// The figures of the tasks that stand on a board: no accepted log ends late.
fn board_after(held: Tally, number: u8, plan: &Plan, judged: &JudgedLog) -> Tally
    requires { (plan.now.tasks ≤ 64) × (held.ended ≤ 640000) × (held.sum ≤ 640000000000) }
    ensures { result ≡ tally_after held (figures_on number plan.now.board plan.now.finish judged.now.end plan.now.tasks) }
{
    let mut tally = held;
    for i in 0..usize::from(plan.tasks) {
        if plan.board[i] == number {
            tally = with_figure(tally, plan.finish[i].saturating_sub(judged.end[i]));
        }
    }
    tally
}

// An accepted log more: of each board the figures of its tasks. The totals are arrays of their own, as C has them.
fn with_accepted(totals: Totals, plan: &Plan, judged: &JudgedLog) -> Totals
    requires { (plan.now.tasks ≤ 64) × (totals_ok totals ≡ true) × (totals.accepted + totals.refused < 10000) }
    ensures { result ≡ with_figures totals (λ b. figures_on (b + 1) plan.now.board plan.now.finish judged.now.end plan.now.tasks) }
{
    let mut ended = [0u32; 8];
    let mut sum = [0u64; 8];
    let mut greatest = [0u32; 8];
    let mut least = [0u32; 8];
    for b in 0..8 {
        let number = (b + 1) as u8;
        let next = board_after(totals.tally(b), number, plan, judged);
        ended[b] = next.ended;
        sum[b] = next.sum;
        greatest[b] = next.greatest;
        least[b] = next.least;
    }
    Totals {
        accepted: totals.accepted + 1,
        ended,
        sum,
        greatest,
        least,
        ..totals
    }
}

// A refused log more.
fn with_refused(totals: Totals) -> Totals
    requires { totals.refused < 10000 }
    ensures { result ≡ with_refused totals }
{
    Totals {
        refused: totals.refused + 1,
        ..totals
    }
}

// Nothing is found of a log that is not looked at.
fn not_added(answer: Answer, totals: Totals) -> AddResult
    ensures { result ≡ not_added answer totals }
{
    AddResult {
        answer,
        judged: not_read(granted()),
        totals,
    }
}

// P11's own refusals, 9 among them, are those of a refused log: `judged` has them.
pub fn add_log(totals: Totals, plan: Plan, log: &[u8]) -> AddResult
    ensures { result ≡ added_of totals plan log.now }
{
    if !are_in_bounds(totals) {
        return not_added(Refusal::Unsound.answer(0, 0), totals);
    }
    if LOGS_MOST <= u64::from(totals.accepted) + u64::from(totals.refused) {
        return not_added(Refusal::TooManyLogs.answer(0, 0), totals);
    }
    let judged = judge_log(plan, log);
    let after = if judged.answer.code == 0 {
        with_accepted(totals, &plan, &judged)
    } else {
        with_refused(totals)
    };
    AddResult {
        answer: granted(),
        judged,
        totals: after,
    }
}

// The totals after it. A refused plan text is a plan of zeros, which makes its log a refused one.
pub fn add_texts(plan: &[u8], log: &[u8], totals: Totals) -> Totals
    ensures { result ≡ (added_of totals (reading_of plan.now).plan log.now).totals }
{
    let reading = read_plan(plan);
    add_log(totals, reading.plan, log).totals
}
