// Whole files read, whole texts written. No contract can say which bytes come from a file or go to one.
#![tactic(auto)]

pub mod both;
pub mod list;
pub mod say;

ghost use Rattle.std.specs.Prelude.{◌≡◌, ◌≤◌, ◌<◌, ◌+◌, length, IfOk, IsOk};
ghost use Rattle.std.specs.Io.{ReadsAtMost, WritesAtMost};
ghost use Rattle.std.specs.Io.KnownBytes.{IsAtEnd};
ghost use Rattle.io.specs.Counts.{IsPrefixLen};

use say::{Say, Told, or_tell};
use std::fs::File;
use std::io;
use std::io::{Error, ErrorKind, Read};
use std::rt::Files;
use std::str::from_utf8;
use text::put::put_text;

// A signal can break a read off before its first byte: that is no failure. A proved loop has to end, so the turns are counted.
fn read_some<R: Read>(from: &mut R, part: &mut [u8]) -> io::Result<usize>
    ensures bound { ReadsAtMost result part.new }
    ensures end { IfOk result (λ got. got ≡ 0 → 0 < length part.new → IsAtEnd (R.remaining from.new)) }
{
    for _ in 0..u64::MAX {
        match from.read(part) {
            Ok(got) => return Ok(got),
            Err(error) if error.kind() == ErrorKind::Interrupted => {}
            Err(error) => return Err(error),
        }
    }
    Err(Error::from(ErrorKind::Interrupted))
}

fn read_from<R: Read>(file: &mut R, text: &mut [u8], from: usize) -> io::Result<usize>
    requires { from ≤ length text.old }
    ensures bound { IfOk result (λ more. from + more ≤ length text.new) }
    ensures end { IfOk result (λ more. more ≡ 0 → from < length text.new → IsAtEnd (R.remaining file.new)) }
{
    read_some(file, &mut text[from..])
}

// A read can bring fewer bytes than asked, so it goes on until the file ends or the buffer is full; after a failure none count.
// Not a `for`: how many reads that takes is the system's to say. `read_exact` fails where the file ends first, `read_to_end` fills a `Vec`.
fn read_all<R: Read>(file: &mut R, text: &mut [u8]) -> io::Result<usize>
    ensures prefix_len { IfOk result (λ done. IsPrefixLen done text.new) }
    ensures whole { IfOk result (λ done. done < length text.new → IsAtEnd (R.remaining file.new)) }
{
    let mut done = 0;
    while done < text.len() {
        let more = read_from(file, text, done)?;
        if more == 0 {
            return Ok(done);
        }
        done += more;
    }
    Ok(done)
}

// One read of standard input: as many bytes as it brings, and none at its end.
pub fn read_piece<'p>(rt: &(impl Input + Say), piece: &'p mut [u8]) -> Result<&'p [u8], Told>
    ensures { IfOk result (λ read. length read.now ≤ length piece.old) }
{
    let read = read_some(&mut rt.reader(), piece);
    let length = or_tell(rt, b"standard input", read)?;
    Ok(&piece[..length])
}

// The system's numbers of two errors: a NUL in a name, and a name that is not text.
const EINVAL: i32 = 22;

const EILSEQ: i32 = 84;

// std opens a file by a name in UTF-8 alone, and a NUL is in no name. Of any other name the system's words are said.
fn name_of(path: &[u8]) -> io::Result<&str>
    ensures { IfOk result (λ name. name.now ≡ path.now) }
{
    if path.contains(&0) {
        return Err(Error::from_raw_os_error(EINVAL));
    }
    from_utf8(path).map_err(|_| Error::from_raw_os_error(EILSEQ))
}

fn open<R: Files>(rt: &R, path: &[u8]) -> io::Result<R::File> {
    File::open(rt, name_of(path)?)
}

// Reads as much of an open file as the buffer holds, and closes it.
fn read_open<F: Read + Drop>(mut file: F, text: &mut [u8]) -> io::Result<usize>
    ensures { IfOk result (λ done. IsPrefixLen done text.new) }
{
    read_all(&mut file, text)
}

fn read_file(rt: &impl Files, path: &[u8], text: &mut [u8]) -> io::Result<usize>
    ensures { IfOk result (λ done. IsPrefixLen done text.new) }
{
    read_open(open(rt, path)?, text)
}

// Of a file that cannot be opened: a missing one counts as empty.
fn unopened(error: Error) -> io::Result<usize>
    ensures { IfOk result (λ length. length ≡ 0) }
{
    if error.kind() == ErrorKind::NotFound {
        return Ok(0);
    }
    Err(error)
}

// Reads as much of a file as the buffer holds. A missing file counts as empty.
pub fn read_text<'t>(
    rt: &(impl Files + Say),
    path: &[u8],
    text: &'t mut [u8],
) -> Result<&'t [u8], Told>
    ensures { IfOk result (λ read. length read.now ≤ length text.old) }
{
    let read = match open(rt, path) {
        Ok(file) => read_open(file, text),
        Err(error) => unopened(error),
    };
    let length = or_tell(rt, path, read)?;
    Ok(&text[..length])
}

// The same, but a missing file is a failure too.
pub fn read_present<'t>(
    rt: &(impl Files + Say),
    path: &[u8],
    text: &'t mut [u8],
) -> Result<&'t [u8], Told>
    ensures { IfOk result (λ read. length read.now ≤ length text.old) }
{
    let read = read_file(rt, path, text);
    let length = or_tell(rt, path, read)?;
    Ok(&text[..length])
}

// As `read_some`. The two share no loop: of what a closure that reads has changed a proof knows nothing.
fn write_some(to: &impl Print, part: &[u8]) -> io::Result<usize>
    ensures { WritesAtMost result part.now }
{
    for _ in 0..u64::MAX {
        match to.write_some(part) {
            Ok(put) => return Ok(put),
            Err(error) if error.kind() == ErrorKind::Interrupted => {}
            Err(error) => return Err(error),
        }
    }
    Err(Error::from(ErrorKind::Interrupted))
}

// A write can take fewer bytes than it is handed, so it goes on with the rest. Not a `for`: how many writes that takes is the system's to say.
// The library's own has other words where a write takes none.
fn write_all(to: &impl Print, text: &[u8]) -> io::Result<()>
    ensures { length text.now ≡ 0 → IsOk result }
{
    let mut rest = text;
    while !rest.is_empty() {
        let taken = write_some(to, rest)?;
        if taken == 0 {
            return Err(Error::from(ErrorKind::WriteZero));
        }
        rest = &rest[taken..];
    }
    Ok(())
}

// Hands the whole text to standard output; an empty one is always taken.
pub fn print(rt: &(impl Print + Say), text: &[u8]) -> Result<(), Told>
    ensures { length text.now ≡ 0 → IsOk result }
{
    or_tell(rt, b"standard output", write_all(rt, text))
}

// No path of the system is longer than a name of this length.
pub const NAME_MOST: usize = 4096;

// A name and a file's.
const PATH_ROOM: usize = 4120;

// The name of a file in a folder.
fn path_of<'p>(path: &'p mut [u8], name: &[u8], file: &[u8]) -> &'p [u8]
    ensures { length result.now ≤ length path.old }
{
    let at = put_text(path, 0, name);
    let length = put_text(path, at, file);
    &path[..length]
}

// A file of a folder, as much of it as the buffer holds; a missing one is a failure.
pub fn read_in<'t>(
    rt: &(impl Files + Say),
    name: &[u8],
    file: &[u8],
    text: &'t mut [u8],
) -> Result<&'t [u8], Told>
    ensures { IfOk result (λ read. length read.now ≤ length text.old) }
{
    let mut path = [0u8; PATH_ROOM];
    read_present(rt, path_of(&mut path, name, file), text)
}
