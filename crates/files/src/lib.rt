// Reading whole files, and bytes and numbers in `words`, for the programs. The functions of the operating system have no contract on what a file holds.
#![tactic(auto)]

pub mod words;

ghost use Rattle.std.specs.Prelude.{◌≡◌, ◌≤◌, length, Some, None, IfOk, IfSome, OnErr};

use std::io::{Cursor, Error, ErrorKind, Read, Write};
use std::rt::{Env, Files};
use std::{fs, io, str};

// The longest path has a byte less.
const PATH_SIZE: usize = 4096;

// The longest reason for which there is room, the number of the error with it.
const REASON_SIZE: usize = 128;

// Reads until the buffer is full, the input ends or a read fails: how many bytes came, and whether each read went well.
pub fn fill(input: &mut impl Read, buffer: &mut [u8]) -> (usize, io::Result<()>)
    ensures { result.0 ≤ length buffer.old }
{
    let mut at = 0;
    // std's read_exact doesn't say how many bytes came before the end, and its read_to_end fills a Vec.
    while at < buffer.len() {
        match input.read(&mut buffer[at..]) {
            Ok(0) => break,
            Ok(n) => at += n,
            Err(error) => return (at, Err(error)),
        }
    }
    (at, Ok(()))
}

// A path is text in UTF-8: a name that isn't can't be opened.
fn read_path(files: &impl Files, name: &[u8], buffer: &mut [u8]) -> io::Result<usize>
    ensures { IfOk result (λ n. n ≤ length buffer.old) }
{
    let Ok(path) = str::from_utf8(name) else {
        return Err(Error::new(ErrorKind::InvalidFilename, "The name is not UTF-8"));
    };
    let mut file = fs::open(files, path)?;
    let (n, end) = fill(&mut file, buffer);
    end?;
    Ok(n)
}

// A line `run.rec: No such file or directory`. The number that an error of the system has after its words is left out.
fn tell(errors: &impl Print, name: &[u8], error: Error) -> io::Result<()> {
    let mut words = Cursor::new([0u8; REASON_SIZE]);
    let _ = write!(words, "{error}");
    let n = (words.position() as usize).min(REASON_SIZE);
    let words = words.into_inner();
    let text = str::from_utf8(&words[..n]).unwrap_or("");
    let reason = text
        .split_once(" (os error")
        .map_or(text, |(reason, _)| reason);
    errors.write_all(name)?;
    println!(errors; ": {reason}")
}

// Standard error has the name and the reason where a file can't be read.
fn told(errors: &impl Print, name: &[u8], got: io::Result<usize>) -> Option<usize>
    ensures ok { IfOk got (λ n. result ≡ Some n) }
    ensures err { OnErr got (result ≡ None) }
{
    match got {
        Ok(n) => Some(n),
        Err(error) => {
            let _ = tell(errors, name, error);
            None
        }
    }
}

// How many bytes of the file of this name there are in the buffer, as far as they fit. Where the file can't be read, standard error says why.
pub fn read_file(
    files: &impl Files,
    errors: &impl Print,
    name: &[u8],
    buffer: &mut [u8],
) -> Option<usize>
    ensures { IfSome result (λ n. n ≤ length buffer.old) }
{
    told(errors, name, read_path(files, name, buffer))
}

// The file that the command line names at this place. A word that is longer than a path can be comes as an empty one, which no file has.
pub fn read_word(
    rt: &(impl Files + Env),
    errors: &impl Print,
    word: usize,
    buffer: &mut [u8],
) -> Option<usize>
    ensures { IfSome result (λ n. n ≤ length buffer.old) }
{
    let mut path = [0u8; PATH_SIZE];
    let n = rt.arg(word, &mut path).unwrap_or(0);
    read_file(rt, errors, &path[..n], buffer)
}
