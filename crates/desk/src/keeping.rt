// Lines kept in ends.txt. What is said here of the disk is the system's word; no contract can say it.
ghost use Rattle.std.specs.Prelude.{◌≡◌, ◌≤◌, ◌++◌, ◌∷◌, []};

use crate::TypedLine;
use arrayvec::ArrayVec;
use files::say::{Say, Told, or_tell};
use std::fs::{File, OpenFile};
use std::io;
use std::io::{Error, ErrorKind, Write};
use std::rt::Files;
use text::part::LF;

const ENDS: &str = "ends.txt";

// One write, so that a line is there whole or has no LF, and is cut off at the next start.
fn append<F: Write + OpenFile>(file: &mut F, text: &[u8]) -> io::Result<()> {
    if file.write(text)? < text.len() {
        let message = "a line was not written whole";
        return Err(Error::new(ErrorKind::WriteZero, message));
    }
    file.sync_data()
}

// The folder's entry of a file that was made.
fn flush_folder(rt: &impl Files) -> io::Result<()> {
    File::open(rt, ".")?.sync_all()
}

fn make(rt: &impl Files, text: &[u8]) -> io::Result<()> {
    let mut file = File::options().write(true).create_new(true).open(rt, ENDS)?;
    append(&mut file, text)
}

// The file is made at the first line.
fn keep_first(rt: &impl Files, text: &[u8]) -> io::Result<()> {
    make(rt, text)?;
    flush_folder(rt)
}

fn keep_text(rt: &impl Files, text: &[u8]) -> io::Result<()> {
    match File::options().append(true).open(rt, ENDS) {
        Ok(mut file) => append(&mut file, text),
        Err(error) if error.kind() == ErrorKind::NotFound => keep_first(rt, text),
        Err(error) => Err(error),
    }
}

// The line and its LF.
fn ended(line: &TypedLine) -> ArrayVec<u8, 66>
    ensures { result.items ≡ line.now.items ++ 10 ∷ [] }
{
    let mut text = ArrayVec::new();
    let _ = text.try_extend_from_slice(line.as_slice());
    text.push(LF);
    text
}

// The line and its LF are on the disk; where they are not, standard error says why.
pub(crate) fn keep(rt: &(impl Files + Say), line: &TypedLine) -> Result<(), Told> {
    or_tell(rt, ENDS.as_bytes(), keep_text(rt, ended(line).as_slice()))
}

fn cut_to(rt: &impl Files, length: usize) -> io::Result<()> {
    let file = File::options().read(true).write(true).open(rt, ENDS)?;
    file.set_len(length as u64)?;
    file.sync_data()
}

// What stands past so many bytes was never answered.
pub(crate) fn cut(rt: &(impl Files + Say), length: usize) -> Result<(), Told>
    requires { length ≤ 32769 }
{
    or_tell(rt, ENDS.as_bytes(), cut_to(rt, length))?;
    rt.say(b"note: what followed the last LF of ends.txt was never answered, and is cut off\n");
    Ok(())
}
