// A plan as a value, and what reading and writing it answer.
#![tactic(auto)]

ghost use Rattle.std.specs.Prelude.{◌≡◌, ◌+◌, ◌*◌, ◌<◌, ◌≤◌, min, length};
ghost use Rattle.plan.specs.Answer.{refuse, granted};
ghost use Rattle.plan.specs.Refusal.{refusal_number};
ghost use Rattle.plan.specs.Value.{row};
ghost use Rattle.plan.specs.View.{viewed};

// The refusal number and the table's two numbers; all 0 where nothing is refused.
#[repr(C)]
#[derive(Clone, Copy)]
pub struct Answer {
    pub code: u32,
    pub first: u32,
    pub second: u32,
}

// The number and what it says besides.
pub fn refuse(code: u32, first: u32, second: u32) -> Answer
    ensures { result ≡ refuse code first second }
{
    Answer {
        code,
        first,
        second,
    }
}

// Nothing is refused.
pub fn granted() -> Answer
    ensures { result ≡ granted }
{
    refuse(0, 0, 0)
}

// Why something is refused, with its number in the table. Those of a line's fields, 3, 4, 18 and 20, are text_fields'.
#[derive(Clone, Copy)]
pub enum Refusal {
    TextTooLong = 1,
    FirstLine = 2,
    BytesLeft = 5,
    BoardShared = 6,
    DriveClash = 7,
    AfterBroken = 8,
    Unsound = 9,
    NoTask = 10,
    NotRunning = 11,
    BeforeClock = 12,
    NotPastStart = 13,
    PastLimit = 14,
    OtherPastLimit = 15,
    BufferTooShort = 16,
    NoneAtZero = 17,
    KnownOrDropped = 19,
    NoDrive = 21,
    NotItsLength = 22,
    LogLine = 23,
    StartOrEndAmiss = 24,
    LoggedLength = 25,
    LoggedClash = 26,
    LoggedStart = 27,
    TooManyLogs = 28,
}

impl Refusal {
    pub fn number(self) -> u32
        ensures { result ≡ refusal_number self }
    {
        self as u32
    }

    // With what it says besides.
    pub fn answer(self, first: u32, second: u32) -> Answer
        ensures { result ≡ refuse (refusal_number self) first second }
    {
        refuse(self.number(), first, second)
    }
}

// Task k from 0: its holds are the 32 places from 32 k, its after the 64 places from 64 k, items first, 0 after the last.
#[repr(C)]
#[derive(Clone, Copy)]
pub struct Plan {
    pub edition: u8,
    pub boards: u8,
    pub tasks: u8,
    pub board: [u8; 64],
    pub ready: [u32; 64],
    pub begin: [u32; 64],
    pub finish: [u32; 64],
    pub holds: [u8; 2048],
    pub after: [u8; 4096],
}

// A plan has places for 64 tasks.
pub fn few(tasks: u8) -> u8
    ensures { result ≡ min tasks 64 }
{
    tasks.min(64)
}

#[repr(C)]
#[derive(Drop)]
pub struct Reading {
    pub answer: Answer,
    pub plan: Plan,
}

#[repr(C)]
#[derive(Drop)]
pub struct WriteResult {
    pub answer: Answer,
    pub length: u32,
}

// A plan where it stands, in a plan or in a book, so that asking about it copies nothing.
#[derive(Clone, Copy)]
pub struct PlanView<'a> {
    pub edition: u8,
    pub boards: u8,
    pub tasks: u8,
    pub board: &'a [u8; 64],
    pub ready: &'a [u32; 64],
    pub begin: &'a [u32; 64],
    pub finish: &'a [u32; 64],
    pub holds: &'a [u8; 2048],
    pub after: &'a [u8; 4096],
}

// The places of one row; none where the list has no such row.
fn row_of(width: usize, list: &[u8], k: usize) -> &[u8]
    requires { (width ≤ 64) × (k < 64) × (width * k + width ≤ length list.now) }
    ensures { result.now ≡ row width list.now k }
{
    &list[width * k..width * k + width]
}

impl PlanView<'_> {
    // The places of task k's holds; none past the 64th task.
    pub fn holds_of(&self, k: usize) -> &[u8]
        ensures { result.now ≡ row 32 self.now.holds.now k }
    {
        // a part of what a field shows is lent by a variable: the checker asks for the copy of the reference
        let holds = self.holds;
        if k < 64 {
            return row_of(32, holds, k);
        }
        &holds[2048..]
    }

    // The places of the tasks that task k comes after.
    pub fn after_of(&self, k: usize) -> &[u8]
        ensures { result.now ≡ row 64 self.now.after.now k }
    {
        let after = self.after;
        if k < 64 {
            return row_of(64, after, k);
        }
        &after[4096..]
    }
}

impl Plan {
    pub fn view(&self) -> PlanView<'_>
        ensures { viewed result ≡ self.now }
    {
        PlanView {
            edition: self.edition,
            boards: self.boards,
            tasks: self.tasks,
            board: &self.board,
            ready: &self.ready,
            begin: &self.begin,
            finish: &self.finish,
            holds: &self.holds,
            after: &self.after,
        }
    }
}
