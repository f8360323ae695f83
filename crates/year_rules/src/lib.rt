// The totals of a year, and a call that adds a log to them.
// Whether totals keep their bounds, whatever they hold.
#![tactic(auto)]

ghost use Rattle.std.specs.Prelude.{◌≡◌, ◌&&◌, ◌*◌, leb};
ghost use Rattle.laws.specs.Every.{every};
ghost use Rattle.year_rules.specs.Figures.{sum_of};
ghost use Rattle.year_rules.specs.Totals.{board_tally, board_ok, totals_ok};

use plan::Answer;
use school::JudgedLog;

// Accepted and refused logs; of boards 1 to 8 the tasks ended, their ticks early at end summed, the greatest and the least.
#[repr(C)]
#[derive(Clone, Copy)]
pub struct Totals {
    pub accepted: u32,
    pub refused: u32,
    pub ended: [u32; 8],
    pub sum: [u64; 8],
    pub greatest: [u32; 8],
    pub least: [u32; 8],
}

// The answer, what was found of the log, and the totals after it.
#[repr(C)]
#[derive(Drop)]
pub struct AddResult {
    pub answer: Answer,
    pub judged: JudgedLog,
    pub totals: Totals,
}

// What is reported of a board, or of all of them.
#[derive(Clone, Copy)]
pub struct Tally {
    pub ended: u32,
    pub sum: u64,
    pub greatest: u32,
    pub least: u32,
}

impl Totals {
    // The totals of board b, from 0; there are 8.
    pub fn tally(&self, b: usize) -> Tally
        ensures { result ≡ board_tally self.now b }
    {
        if 8 <= b {
            return Tally {
                ended: 0,
                sum: 0,
                greatest: 0,
                least: 0,
            };
        }
        Tally {
            ended: self.ended[b],
            sum: self.sum[b],
            greatest: self.greatest[b],
            least: self.least[b],
        }
    }
}

// At most so many logs.
pub const LOGS_MOST: u64 = 10000;

// At most so many tasks a log, and ticks a task.
const TASKS_MOST: u64 = 64;

const TICKS_MOST: u32 = 1000000;

// How many tasks ended on all boards.
fn ended_on_all(ended: &[u32; 8]) -> u64
    ensures { result ≡ sum_of ended.now }
{
    let mut all = 0;
    for x in ended {
        all += u64::from(*x);
    }
    all
}

fn is_board_ok(tally: Tally) -> bool
    ensures { result ≡ (leb tally.sum (1000000 * tally.ended) && (leb tally.greatest 1000000 && leb tally.least 1000000)) }
{
    (tally.sum <= 1000000 * u64::from(tally.ended))
        & ((tally.greatest <= TICKS_MOST) & (tally.least <= TICKS_MOST))
}

fn are_boards_ok(totals: &Totals) -> bool
    ensures { result ≡ every 8 (board_ok totals.now) }
{
    for b in 0..8 {
        if !is_board_ok(totals.tally(b)) {
            return false;
        }
    }
    true
}

// Whatever the totals hold, no sum of them wraps here.
pub fn are_in_bounds(totals: Totals) -> bool
    ensures { result ≡ totals_ok totals }
{
    let accepted = u64::from(totals.accepted);
    let logs = accepted + u64::from(totals.refused);
    let ended = ended_on_all(&totals.ended);
    let boards = are_boards_ok(&totals);
    (logs <= LOGS_MOST) & ((ended <= TASKS_MOST * accepted) & boards)
}
