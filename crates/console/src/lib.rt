// What a person reads and writes: files by name, what failed, and the words of a command line. A command line is bytes in which
// every word ends with a 0. What can't be done is said where it is found; the callers pass on that it was.
#![tactic(auto)]

ghost use Rattle.std.specs.Prelude.{◌≤◌, ◌≡◌, length, take, IfSome};
ghost use Rattle.console.specs.declared.Stop.TheVariants.{Output};

use std::env::{Env, FillError};
use std::fs::{File, OpenOptions};
use std::io::{Read, Write};
use std::{fs, io, str};

// Why a command stops.
#[derive(Drop)]
pub enum Stop {
    // what is wrong has been said
    Said,
    // standard output or standard error can't be written
    Output(io::Error),
}

impl From<io::Error> for Stop {
    ghost from_gives = { λ e r. r ≡ Output e };

    fn from(error: io::Error) -> Stop {
        Stop::Output(error)
    }
}

// The words of a reason: an error of the system has its number after them, in brackets.
fn reason_of(text: &[u8]) -> &[u8] {
    match text.iter().position(|byte| *byte == b'(') {
        Some(bracket) => &text[..bracket.saturating_sub(1)],
        None => text,
    }
}

// A line on standard error: what failed, a colon and the reason.
pub fn say_failure(rt: &HostRuntime, name: &[u8], error: &io::Error) -> io::Result<()> {
    let mut text = [0u8; 256];
    let mut rest = &mut text[..];
    let _whole = write!(rest, "{error}").is_ok();
    let size = 256usize.saturating_sub(rest.len());
    let mut stderr = rt.stderr();
    stderr.write_all(name)?;
    stderr.write_all(b": ")?;
    stderr.write_all(reason_of(&text[..size]))?;
    stderr.write_all(b"\n")
}

// A file that failed is named on standard error, with the reason; on standard output a script sees that it failed.
pub fn fail<T>(rt: &HostRuntime, name: &[u8], error: &io::Error) -> Result<T, Stop> {
    say_failure(rt, name, error)?;
    println!(rt; "failed")?;
    Err(Stop::Said)
}

// The name of a file as text; one that is no UTF-8 names no file here.
fn path_of(name: &[u8]) -> io::Result<&str> {
    str::from_utf8(name).map_err(|_| io::Error::from(io::ErrorKind::InvalidInput))
}

// Opens a file for reading.
pub fn open_read(rt: &HostRuntime, name: &[u8]) -> io::Result<File> {
    fs::open(rt, path_of(name)?)
}

// Opens a file from which something can be read: a folder opens, and fails here.
fn open_checked(rt: &HostRuntime, name: &[u8]) -> io::Result<File> {
    let mut file = open_read(rt, name)?;
    file.read(&mut [])?;
    Ok(file)
}

// Opens a file for reading; one that can't be read is said.
pub fn open(rt: &HostRuntime, name: &[u8]) -> Result<File, Stop> {
    open_checked(rt, name).or_else(|error| fail(rt, name, &error))
}

// Reads until the space is full, the input ends or a read fails, and answers how many bytes it put at the start of the space.
pub fn read_full(input: &mut impl Read, space: &mut [u8]) -> usize
    ensures { (result ≤ length space.new) × (result ≡ length (take result space.new)) }
{
    let mut done = 0;
    // no `for`: how many reads there are is the input's to say
    while done < space.len() {
        match input.read(&mut space[done..]) {
            Ok(0) | Err(_) => break,
            Ok(n) => done += n,
        }
    }
    done
}

// Reads as much of an open file as there is space for, and closes it.
pub fn read<'a>(file: File, space: &'a mut [u8]) -> &'a [u8]
    ensures { length result.now ≤ length space.old }
{
    let mut input = file;
    let size = read_full(&mut input, space);
    &space[..size]
}

// The longest name of a file to be written, and the ending of the new file beside it.
const LONGEST: usize = 4000;

const NEW: [u8; 4] = *b".new";

// The name of the new file beside a file; a name that is too long is said.
fn beside<'a>(rt: &HostRuntime, name: &[u8], space: &'a mut [u8; 4096]) -> Result<&'a [u8], Stop> {
    let size = name.len();
    if LONGEST < size {
        return fail(rt, name, &io::Error::from(io::ErrorKind::InvalidFilename));
    }
    space[..size].copy_from_slice(name);
    space[size..size + NEW.len()].copy_from_slice(&NEW);
    Ok(&space[..size + NEW.len()])
}

// Creates a file, where there is none of that name.
fn create(rt: &HostRuntime, path: &[u8]) -> io::Result<File> {
    OpenOptions::new()
        .write(true)
        .create_new(true)
        .open(rt, path_of(path)?)
}

// Fills the new file at `path` so that the bytes reach it, closes it, and gives it its name.
fn put(rt: &HostRuntime, file: File, path: &[u8], name: &[u8], bytes: &[u8]) -> io::Result<()> {
    let mut output = file;
    output.write_all(bytes)?;
    output.sync_all()?;
    drop(output);
    fs::rename(rt, path_of(path)?, path_of(name)?)
}

// Removes the new file; one that can't be removed stays.
fn remove(rt: &HostRuntime, path: &[u8]) -> io::Result<()> {
    fs::remove_file(rt, path_of(path)?)
}

// Writes a file: to a new one beside it, then renamed, so that what fails leaves an old one as it was. What failed is said.
pub fn write_file(rt: &HostRuntime, name: &[u8], bytes: &[u8]) -> Result<(), Stop> {
    let mut space = [0u8; 4096];
    let path = beside(rt, name, &mut space)?;
    let file = create(rt, path).or_else(|error| fail(rt, path, &error))?;
    put(rt, file, path, name, bytes).or_else(|error| {
        let _removed = remove(rt, path).is_ok();
        fail(rt, name, &error)
    })
}

// How many words a line has.
pub fn count_words(line: &[u8]) -> usize
    ensures { result ≤ length line.now }
{
    line.iter().filter(|byte| **byte == 0).count()
}

// Word i of a line, from 0; empty where it has no such word.
pub fn word_of(line: &[u8], i: usize) -> &[u8] {
    line.split(|byte| *byte == 0).nth(i).unwrap_or(&[])
}

// Whether the program was started with an argument i; its own name is argument 0.
fn has_argument(rt: &HostRuntime, i: usize) -> bool {
    !matches!(rt.arg(i, &mut []), Err(FillError::NotPresent))
}

// How many arguments the program was started with, its own name among them.
pub fn argument_count(rt: &HostRuntime) -> usize {
    (0..usize::MAX).take_while(|i| has_argument(rt, *i)).count()
}

// Argument i of the program, put at the start of the space; none where it is missing, empty or too long.
pub fn argument<'a>(rt: &HostRuntime, i: usize, space: &'a mut [u8]) -> Option<&'a [u8]>
    ensures { IfSome result (λ s. length s.now ≤ length space.old) }
{
    match rt.arg(i, space) {
        Ok(0) | Err(_) => None,
        Ok(n) => Some(&space[..n]),
    }
}

// The command line that the program was started with, without its own name. An argument that is longer than the space left is
// an empty word.
pub fn arguments<'a>(rt: &HostRuntime, space: &'a mut [u8]) -> &'a [u8] {
    let mut at = 0;
    for i in 1..usize::MAX {
        let n = match rt.arg(i, &mut space[at..]) {
            Ok(n) => n,
            Err(FillError::TooLong) => 0,
            Err(FillError::NotPresent) => break,
        };
        if n < space.len() - at {
            space[at + n] = 0;
            at += n + 1;
        }
    }
    &space[..at]
}
