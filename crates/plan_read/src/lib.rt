// Reading a plan text whole: its lines, then its tasks.
#![tactic(auto)]

mod fields;
pub mod lines;

ghost use Rattle.std.specs.Prelude.{◌≡◌};
ghost use Rattle.plan_read.specs.Mode.{mends, IsRead};
ghost use Rattle.plan_read.specs.Private.Editions.{edition_number};
ghost use Rattle.plan.specs.Read.{read_in, reading_of, mended_of};

use crate::lines::{read_lines, zero_plan};
use plan::{Answer, Plan, Reading, granted};
use plan_judge::tasks::judge_tasks;
use text_fields::{FieldFault, Items};

// How a text is read: as it stands, or mended, which takes edition 2 alone.
#[derive(Clone, Copy)]
pub enum Mode {
    Plain,
    Mending,
}

// How the task lines are read: as edition 1, as edition 2, or as edition 2 with each `s` made an `e`.
#[derive(Clone, Copy)]
pub(crate) enum Edition {
    First,
    Second,
    Mended,
}

impl Edition {
    pub(crate) fn number(self) -> u8
        ensures { result ≡ edition_number self }
    {
        match self {
            Edition::First => 1,
            Edition::Second | Edition::Mended => 2,
        }
    }
}

// What the first line says.
#[derive(Clone, Copy)]
pub(crate) struct Sizes {
    pub edition: Edition,
    pub boards: u32,
    pub tasks: u32,
}

// A line without its LF, and whether it had one.
#[derive(Clone, Copy)]
pub(crate) struct CutLine<'a> {
    pub text: &'a [u8],
    pub ended: bool,
}

// The first three fields of a task line, each read by itself.
#[derive(Clone, Copy)]
pub(crate) struct Head {
    pub word: Option<FieldFault>,
    pub number: Option<FieldFault>,
    pub board: Result<u32, FieldFault>,
}

// The fields from the planned start on, each read by itself.
#[derive(Clone, Copy)]
pub(crate) struct Tail {
    pub begin: Result<u32, FieldFault>,
    pub finish: Result<u32, FieldFault>,
    pub holds: Result<Items, FieldFault>,
    pub after: Result<Items, FieldFault>,
}

// What a task line says.
#[derive(Clone, Copy)]
pub(crate) struct Line {
    pub board: u32,
    pub ready: u32,
    pub begin: u32,
    pub finish: u32,
    pub holds: Items,
    pub after: Items,
}

// The plan becomes the text's, or a plan of zeros where the text is refused.
// It is filled where it stands: a `Result` that held it would cost a copy of it at each step.
fn read_into(plan: &mut Plan, text: &[u8], mode: Mode) -> Result<(), Answer>
    ensures { IsRead (read_in (mends mode) text.now) plan.new result }
{
    read_lines(plan, text, mode)?;
    let fault = judge_tasks(&plan.view());
    if fault.code != 0 {
        *plan = zero_plan();
        return Err(fault);
    }
    Ok(())
}

fn read_in(text: &[u8], mode: Mode) -> Reading
    ensures { result ≡ read_in (mends mode) text.now }
{
    let mut plan = zero_plan();
    let refusal = read_into(&mut plan, text, mode).err();
    Reading {
        answer: refusal.unwrap_or(granted()),
        plan,
    }
}

pub fn read_plan(text: &[u8]) -> Reading
    ensures { result ≡ reading_of text.now }
{
    read_in(text, Mode::Plain)
}

// The second call: an edition 2 text in which `s` may still stand, read as if it were `e`.
pub fn read_exclusive(text: &[u8]) -> Reading
    ensures { result ≡ mended_of text.now }
{
    read_in(text, Mode::Mending)
}
