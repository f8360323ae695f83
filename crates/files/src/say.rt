// What is said on standard error. It is bytes, since the name of a file need not be text.
ghost use Rattle.std.specs.Prelude.{◌≡◌, MatchResult, IsErr};
ghost use Rattle.std.specs.Io.{StartsWith};

use std::fmt::InlineText;
use std::io;
use std::io::Error;

// The longest text of the system's for an error has fewer bytes.
const WORDS_MOST: usize = 128;

// What stands for the process's standard error.
pub trait Say {
    fn say(&self, words: &[u8]);
}

impl Say for HostRuntime {
    // Where standard error takes nothing either, nobody is left to be told.
    fn say(&self, words: &[u8]) {
        let _ = self.stderr().write_all(words);
    }
}

// What an error says, without the number that std puts behind the system's words.
fn before_number(words: &str) -> &str
    ensures { StartsWith words.now result.now }
{
    match words.split_once(" (os error ") {
        Some((before, _)) => before,
        None => words,
    }
}

// A line: what failed, a colon and what the error says.
fn fail(rt: &impl Say, what: &[u8], error: Error) {
    let words: InlineText<WORDS_MOST> = InlineText::of(error);
    rt.say(what);
    rt.say(b": ");
    rt.say(before_number(words.as_str()).as_bytes());
    rt.say(b"\n");
}

// An error that standard error has told already.
#[derive(Clone, Copy)]
pub struct Told;

// What was done; where it was not, a line says what failed.
pub fn or_tell<T>(rt: &impl Say, what: &[u8], done: io::Result<T>) -> Result<T, Told>
    ensures { MatchResult done (λ value. result ≡ Ok value) (λ _. IsErr result) }
{
    match done {
        Ok(value) => Ok(value),
        Err(error) => {
            fail(rt, what, error);
            Err(Told)
        }
    }
}
