// Reading and writing the words of a text: parts between separators, numbers.
#![tactic(auto)]

ghost use Rattle.std.specs.Prelude.{◌≡◌};
ghost use Rattle.text.specs.Number.{fault_stop};

pub mod decimal;
pub mod part;
pub mod put;
pub mod wide;

// No text that is read has more bytes.
pub const TEXT_MOST: usize = 32768;

// Why a field is no number of a text, too large or misspelt; with the place where its reader stopped.
#[derive(Clone, Copy)]
pub enum NumberFault {
    Over(usize),
    Misspelt(usize),
}

impl NumberFault {
    pub fn stop(self) -> usize
        ensures { result ≡ fault_stop self }
    {
        match self {
            NumberFault::Over(stop) | NumberFault::Misspelt(stop) => stop,
        }
    }
}
