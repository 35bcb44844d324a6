// What the programs take from std: octets read up to a bound, and each file that an argument names.
#![tactic(auto)]

ghost use Rattle.std.specs.Io.KnownBytes.{Consumes, IsAtEnd};
ghost use Rattle.std.specs.Prelude.{◌<◌, ◌≤◌, IfOk, IfSome, length, take};

use std::alloc::Global;
use std::env::FillError;
use std::fs::File;
use std::io;
use std::io::{ErrorKind, Read, Write};
use std::rt::{Env, Files};

// Reads until buf is full or the input ends, and answers how many octets it put at the start of buf.
pub fn read_full<R: Read>(from: &mut R, buf: &mut [u8]) -> io::Result<usize>
    ensures in_bounds { IfOk result (λ n. n ≤ length buf.new) }
    ensures octets { IfOk result (λ n. Consumes (R.remaining from.old) (R.remaining from.new) (take n buf.new)) }
    ensures end { IfOk result (λ n. n < length buf.new → IsAtEnd (R.remaining from.new)) }
{
    let mut done = 0;
    while done < buf.len() {
        let n = from.read(&mut buf[done..])?;
        if n == 0 {
            return Ok(done);
        }
        done += n;
    }
    Ok(done)
}

// What the input gives, but no more than the room takes: the part of the room where it was put.
pub fn read_at_most<'a, R: Read>(from: &mut R, room: &'a mut [u8]) -> io::Result<&'a [u8]>
    ensures in_bounds { IfOk result (λ octets. length octets.now ≤ length room.old) }
    ensures octets { IfOk result (λ octets. Consumes (R.remaining from.old) (R.remaining from.new) octets.now) }
    ensures end { IfOk result (λ octets. length octets.now < length room.old → IsAtEnd (R.remaining from.new)) }
{
    let n = read_full(from, room)?;
    Ok(&room[..n])
}

// Whether there is an argument i; 0 is the program's name.
fn has_arg(rt: &impl Env, i: usize) -> bool {
    !matches!(rt.arg(i, &mut []), Err(FillError::NotPresent))
}

// How many arguments there are, the program's name among them.
pub fn arg_count(rt: &impl Env) -> usize {
    (0..usize::MAX).take_while(|i| has_arg(rt, *i)).count()
}

// Argument i, at the start of buf; none where it is missing or longer than buf.
fn arg<'a>(rt: &impl Env, i: usize, buf: &'a mut [u8]) -> Option<&'a [u8]>
    ensures { IfSome result (λ octets. length octets.now ≤ length buf.old) }
{
    let n = rt.arg(i, buf).ok()?;
    Some(&buf[..n])
}

// Opens the file for reading. Its path has to be text.
fn open_read<R: Files>(rt: &R, path: &[u8]) -> io::Result<R::File> {
    match str::from_utf8(path) {
        Ok(path) => File::open(rt, path),
        Err(_) => Err(io::Error::from(ErrorKind::InvalidFilename)),
    }
}

// An error's text without its number.
fn words(text: &str) -> &str {
    match text.find(" (os error ") {
        Some(n) => &text[..n],
        None => text,
    }
}

// Says what failed, and why.
fn fail<W: Write>(alloc: Global, to: &mut W, what: &[u8], e: io::Error) -> io::Result<()> {
    let text = format!(in alloc; "{e}")?;
    to.write_all(what)?;
    writeln!(to, ": {}", words(&text))
}

// The file that argument i names, after a line with its name; where it cannot be opened, standard error says why. An argument that is too
// long for a path names no file, as an empty one.
pub fn named(rt: &HostRuntime, i: usize) -> io::Result<Option<File>> {
    let mut room = [0u8; 4096];
    let path = arg(rt, i, &mut room).unwrap_or(&[]);
    rt.write_all(path)?;
    rt.write_all(b"\n")?;
    match open_read(rt, path) {
        Ok(file) => Ok(Some(file)),
        Err(e) => {
            let _ = fail(rt.alloc(), &mut rt.stderr(), path, e);
            Ok(None)
        }
    }
}

// Runs `case` on each file that an argument names, after a line with its name; one that cannot be opened is told on standard error and passed over.
pub fn each_named<F: FnMut(File) -> io::Result<()>>(rt: &HostRuntime, mut case: F) -> io::Result<()>
    requires { F.IsAlwaysCallable case }
{
    for i in 1..arg_count(rt) {
        if let Some(file) = named(rt, i)? {
            case(file)?;
        }
    }
    Ok(())
}

#[cfg(test)]
mod tests {
    use super::*;

    #[test]
    fn reads_what_is_there(rt: HostRuntime) -> io::Result<()> {
        let mut input: &[u8] = b"records";
        let mut room = [0u8; 9];
        let first = read_at_most(&mut input, &mut room[..3])?;
        assert!(rt; first == b"rec".as_slice());
        let rest = read_at_most(&mut input, &mut room)?;
        assert!(rt; rest == b"ords".as_slice());
        Ok(())
    }
}
