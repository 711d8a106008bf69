// Files by argument.
ghost use Rattle.std.specs.Prelude.{◌≤◌, length, IfOk, IfErr};
ghost use Rattle.io.specs.Counts.{IsPrefixLen};

use crate::quoting::Plain;
use crate::reasons::{say_no_argument, say_reason};
use crate::saying::{STDERR_FILENO, say, say_text};
use std::fs::File;
use std::io::{Error, ErrorKind, Read, Seek, SeekFrom};
use std::rt::{Env, HostRuntime};

// An argument, put into a buffer; nothing where it is missing or too long.
pub fn argument<'a>(rt: &HostRuntime, i: usize, buffer: &'a mut [u8]) -> &'a [u8]
    ensures { length result.now ≤ length buffer.old }
{
    match rt.arg(i, buffer) {
        Ok(n) => &buffer[..n],
        Err(_) => &[],
    }
}

// On standard error: the name of a file, and why it failed.
pub fn say_failed(path: &[u8], error: Error) {
    say_text(STDERR_FILENO, format_args!("{}: ", Plain(path)));
    say_reason(STDERR_FILENO, error);
    say(STDERR_FILENO, b"\n");
}

// The name of a file as text, which every name is that std opens.
fn name_of(path: &[u8]) -> Result<&str, Error> {
    std::str::from_utf8(path).map_err(|_| Error::new(
        ErrorKind::InvalidInput,
        "the name is no UTF-8",
    ))
}

// Opens the file that a path names, for reading.
pub fn open_read(rt: &HostRuntime, path: &[u8]) -> Result<File, Error> {
    File::open(rt, name_of(path)?)
}

// Opens the file that an argument names. None where it can't, and then standard error has a line that says
// why.
fn opened<F: FnOnce(&[u8]) -> Result<File, Error>>(
    rt: &HostRuntime,
    i: usize,
    opening: F,
) -> Option<File>
    requires { F.IsAlwaysCallable opening }
{
    let mut path = io::buffer();
    match rt.arg(i, &mut path) {
        Ok(length) => match opening(&path[..length]) {
            Ok(file) => Some(file),
            Err(error) => {
                say_failed(&path[..length], error);
                None
            }
        },
        Err(error) => {
            say_no_argument(b"the name of a file", error);
            None
        }
    }
}

// Opens the file that an argument names, for reading. None where it can't, and then standard error has
// a line that says why.
pub fn open_argument(rt: &HostRuntime, i: usize) -> Option<File> {
    opened(rt, i, |path| open_read(rt, path))
}

// The same, for writing; what the file held is lost.
pub fn open_overwrite(rt: &HostRuntime, i: usize) -> Option<File> {
    opened(rt, i, |path| File::create(rt, name_of(path)?))
}

pub fn say_argument(rt: &HostRuntime, fd: i32, i: usize) {
    let mut buffer = io::buffer();
    say_text(fd, Plain(argument(rt, i, &mut buffer)));
}

// What was read into a buffer. failed: a read failed, and not the file ended. No Result, since what was read
// before a failure counts too.
#[derive(Clone, Copy)]
pub struct Filled<'a> {
    pub bytes: &'a [u8],
    pub failed: bool,
}

// How many bytes were read, and why the last read failed if one did. No for loop: only a read says how many
// bytes it brings.
fn read_part(file: &mut File, buffer: &mut [u8]) -> (usize, Option<Error>)
    ensures { IsPrefixLen result.0 buffer.new }
{
    let mut bytes: usize = 0;
    while bytes < buffer.len() {
        match file.read(&mut buffer[bytes..]) {
            Ok(0) => return (bytes, None),
            Ok(more) => bytes += more,
            Err(error) => return (bytes, Some(error)),
        }
    }
    (bytes, None)
}

// Reads until the buffer is full, the file ends or a read fails.
pub fn fill<'a>(file: &mut File, buffer: &'a mut [u8]) -> Filled<'a>
    ensures { length result.bytes.now ≤ length buffer.old }
{
    let (n, error) = read_part(file, buffer);
    Filled {
        bytes: &buffer[..n],
        failed: error.is_some(),
    }
}

// The same, of the file that an argument names. Where a read fails standard error has a line that says why.
pub fn fill_from<'a>(
    rt: &HostRuntime,
    file: &mut File,
    i: usize,
    buffer: &'a mut [u8],
) -> Filled<'a>
    ensures { length result.bytes.now ≤ length buffer.old }
{
    let (n, error) = read_part(file, buffer);
    if let Some(e) = error {
        let mut path = io::buffer();
        say_failed(argument(rt, i, &mut path), e);
    }
    Filled {
        bytes: &buffer[..n],
        failed: error.is_some(),
    }
}

// The whole text of the file that an argument names, which has to be shorter than the buffer. An error has what was
// read before a read failed, nothing where the file can't be opened or is too long; standard error has a line that
// says why.
pub fn read_text<'a>(rt: &HostRuntime, i: usize, buffer: &'a mut [u8]) -> Result<&'a [u8], &'a [u8]>
    ensures text { IfOk result (λ text. length text.now ≤ length buffer.old) }
    ensures before { IfErr result (λ bytes. length bytes.now ≤ length buffer.old) }
{
    let Some(mut file) = open_argument(rt, i) else {
        return Err(&[]);
    };
    let most = buffer.len();
    let filled = fill_from(rt, &mut file, i, buffer);
    if filled.failed {
        return Err(filled.bytes);
    }
    if filled.bytes.len() == most {
        say_argument(rt, STDERR_FILENO, i);
        say(STDERR_FILENO, b": the file is too long\n");
        return Err(&[]);
    }
    Ok(filled.bytes)
}

// The length of a file, whose position goes to its start. None where it has none, as a pipe.
pub fn length_of(file: &mut File) -> Option<u64> {
    let length = file.seek(SeekFrom::End(0)).ok()?;
    match file.seek(SeekFrom::Start(0)) {
        Ok(0) => Some(length),
        _ => None,
    }
}
