#![tactic(auto)]

pub mod faults;
pub mod list;

ghost use Rattle.std.specs.Prelude.{◌≡◌, ℕ};
ghost use Rattle.text_fields.specs.Said.{fault_number, fault_by, code_in};

use text::NumberFault;

// Why a field is refused, with its number.
#[derive(Clone, Copy, PartialEq, Eq)]
pub enum FieldFault {
    Misspelt = 3,
    // A number out of its range, or a list that does not rise.
    OutOfRange = 4,
    // A shared hold in a line that allows none.
    Shared = 20,
    // A ready tick after the planned start.
    ReadyLate = 18,
}

impl FieldFault {
    pub fn number(self) -> u32
        ensures { result ≡ fault_number self }
    {
        self as u32
    }
}

// What tells the fault of a field: its code, 0 where it has none.
pub trait Coded {
    ghost code_of: { Self → ℕ };

    fn code(&self) -> u32
        ensures { result ≡ code_of self.now };
}

impl Coded for Option<FieldFault> {
    ghost code_of = { code_in };

    fn code(&self) -> u32 {
        match self {
            None => 0,
            Some(fault) => fault.number(),
        }
    }
}

impl Coded for u8 {
    ghost code_of = { λ code. code };

    fn code(&self) -> u32 {
        u32::from(*self)
    }
}

impl From<NumberFault> for FieldFault {
    ghost from_gives = { λ fault kind. kind ≡ fault_by fault };

    fn from(fault: NumberFault) -> FieldFault {
        match fault {
            NumberFault::Over(_) => FieldFault::OutOfRange,
            NumberFault::Misspelt(_) => FieldFault::Misspelt,
        }
    }
}

// What a list of a task lists: holds, each a number after its letter `e` or `s`, or tasks, each a number.
#[derive(Clone, Copy)]
pub enum Listed {
    Holds,
    Tasks,
}

// What a list field says: its items, zeros after them, and where its reader stopped. All 64 places are walked alike.
#[derive(Clone, Copy)]
pub struct Items {
    pub stop: usize,
    pub count: usize,
    pub items: [u8; 64],
}

// What a line is refused by, and the column from 1.
#[derive(Clone, Copy)]
pub struct Fault {
    pub kind: FieldFault,
    pub column: usize,
}
