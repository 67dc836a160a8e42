// What a refusal means and where, in words on standard error; on standard output its number and place, for a script.
#![tactic(auto)]

use console::Stop;
use model::{Fault, Refusal};
use std::{fmt, io};

// The number of a refusal, printed as what it means.
#[derive(Clone, Copy)]
struct Meaning(u8);

impl fmt::Display for Meaning {
    fn fmt<W: fmt::Write>(&self, f: &mut fmt::Formatter<W>) -> fmt::Result {
        let refusal = Refusal::try_from(self.0);
        f.write_str(match self.0 {
            0..=6 => reading(refusal),
            7..=16 => check(refusal),
            17..=39 => call(refusal),
            _ => form(refusal),
        })
    }
}

// 1 to 6: how a program text is read.
fn reading(refusal: Result<Refusal, ()>) -> &'static str {
    match refusal {
        Ok(Refusal::TextTooLong) => "a text is too long",
        Ok(Refusal::ProgramEndsEarly) => "the program ends early",
        Ok(Refusal::NoSuchCommand) => "no such command here",
        Ok(Refusal::OverABound) => "too many signals, chains, rows or links, or nested too deep",
        Ok(Refusal::OperandOutOfRange) => {
            "an operand outside its range, a second CAP, or a chain under 2 links"
        }
        _ => "bytes after END",
    }
}

// 7 to 16: the checks of a pair.
fn check(refusal: Result<Refusal, ()>) -> &'static str {
    match refusal {
        Ok(Refusal::UndeclaredSignal) => "an undeclared signal",
        Ok(Refusal::PeriodRuleBroken) => "a period rule is broken",
        Ok(Refusal::HypercycleTooLong) => "the hypercycle is over 240",
        Ok(Refusal::LinkNotReadOnce) => "a link without exactly one read of the one before",
        Ok(Refusal::ScheduleText) => {
            "the schedule ends early, has an unknown command, or bytes after END"
        }
        Ok(Refusal::SignalNotOnce) => "a signal is put twice, is undeclared, or is missing",
        Ok(Refusal::Phase) => "a phase that is not below its period",
        Ok(Refusal::ReadUnmet) => "a read is not met",
        Ok(Refusal::OverCap) => "a cycle is over CAP",
        _ => "a chain is too late",
    }
}

// 17 to 31: images, scripts, rows and joins.
fn call(refusal: Result<Refusal, ()>) -> &'static str {
    match refusal {
        Ok(Refusal::ImageBufferShort) => "the space for the result is too short",
        Ok(Refusal::ImageNotWellFormed) =>
            "the file is no image, or has neither L nor L + 4N bytes",
        Ok(Refusal::ScriptText) => {
            "the script is too long, is cut, has an unknown command, or bytes after END"
        }
        Ok(Refusal::SetOfNoInput) => "SET of a signal that is no input",
        Ok(Refusal::WordInTwoRows) => "a word lies in two rows",
        Ok(Refusal::WordInNoRow) => "a word lies in no row",
        Ok(Refusal::WrongLink) => {
            "a link that names no IN and signal of two parts, or unequal periods; rows in two parts"
        }
        _ => "a call on a board or its state",
    }
}

// 40 to 48: the text form, and which signals depend on an input.
fn form(refusal: Result<Refusal, ()>) -> &'static str {
    match refusal {
        Ok(Refusal::UnknownWord) => "no such word here",
        Ok(Refusal::OperandMissing) => "the text ends where an operand is to follow",
        Ok(Refusal::NoNumber) => "no number and no name that can stand here",
        Ok(Refusal::NumberOutside) => "a number outside its range",
        Ok(Refusal::TextBufferShort) => "the space for the result is too short",
        Ok(Refusal::UnknownByte) => "a byte that is no command",
        Ok(Refusal::OperandCut) => "the file ends within an operand",
        Ok(Refusal::FormTooLong) => "more than 16777216 bytes",
        _ => "the signal is no input",
    }
}

// What the number of a refusal means.
pub fn say_meaning(rt: &HostRuntime, number: u8) -> io::Result<()> {
    eprint!(rt; "{}", Meaning(number))
}

// The refusal for a script, and the start of what is said of it.
pub fn refuse(rt: &HostRuntime, fault: Fault) -> io::Result<()> {
    println!(rt; "refused {} {}", fault.number, fault.place)?;
    say_refusal(rt, fault)
}

pub fn say_refusal(rt: &HostRuntime, fault: Fault) -> io::Result<()> {
    eprint!(rt; "refused by {}: ", fault.number)?;
    say_meaning(rt, fault.number)
}

// The command of `width` bytes at `place` in words, where there is one.
fn words_of<'a>(bytes: &[u8], place: usize, width: usize, text: &'a mut [u8]) -> Option<&'a [u8]> {
    let command = bytes.get(place..)?.get(..width)?;
    let size = text_list::list(command, text).ok()?;
    let (_newline, words) = text.get(..size)?.split_last()?;
    Some(words)
}

// Where: the offset in a file, and the command that stands there, of at most 13 bytes.
pub fn say_offset(rt: &HostRuntime, place: usize, bytes: &[u8]) -> io::Result<()> {
    eprint!(rt; " {place}")?;
    let mut text = [0u8; 4096];
    for width in 1..14 {
        if let Some(words) = words_of(bytes, place, width, &mut text) {
            eprint!(rt; ": ")?;
            rt.stderr().write_all(words)?;
            break;
        }
    }
    eprintln!(rt)
}

// A signal. A refused pair has no tables that would tell its period and phase.
fn say_signal(rt: &HostRuntime, x: usize) -> io::Result<()> {
    eprint!(rt; "signal {x}")?;
    if x < 64 {
        eprint!(rt; " (period 0, phase 0)")?;
    }
    Ok(())
}

// Of a read that is not met: what is read, and in place of the reader signal 0.
fn say_read(rt: &HostRuntime, program: &[u8], place: usize) -> io::Result<()> {
    say_signal(rt, 0)?;
    eprint!(rt; " reads ")?;
    if let Some([_read, signal, ..]) = program.get(place..) {
        say_signal(rt, usize::from(*signal))?;
        eprintln!(rt)?;
    }
    Ok(())
}

// Where a script is refused.
pub fn say_script(rt: &HostRuntime, fault: Fault, script: &[u8]) -> io::Result<()> {
    eprint!(rt; ", in the script at byte")?;
    say_offset(rt, fault.place, script)
}

// Where a pair is refused: the offset in the program or the schedule, or the cycle.
pub fn say_where(
    rt: &HostRuntime,
    fault: Fault,
    program: &[u8],
    schedule: &[u8],
) -> io::Result<()> {
    let place = fault.place;
    match Refusal::try_from(fault.number) {
        Ok(Refusal::TextTooLong | Refusal::HypercycleTooLong | Refusal::WordInNoRow) => {
            eprintln!(rt)
        }
        Ok(Refusal::ScheduleText | Refusal::SignalNotOnce | Refusal::Phase) => {
            eprint!(rt; ", in the schedule at byte")?;
            say_offset(rt, place, schedule)
        }
        Ok(Refusal::OverCap) => eprintln!(rt; ", cycle {place}"),
        refusal => {
            eprint!(rt; ", in the program at byte")?;
            say_offset(rt, place, program)?;
            if refusal == Ok(Refusal::ReadUnmet) {
                say_read(rt, program, place)?;
            }
            Ok(())
        }
    }
}

// A refused pair, or space that is too short for its image.
pub fn refuse_pair<T>(
    rt: &HostRuntime,
    fault: Fault,
    program: &[u8],
    schedule: &[u8],
) -> Result<T, Stop> {
    refuse(rt, fault)?;
    say_where(rt, fault, program, schedule)?;
    Err(Stop::Said)
}

// The line of a text in which an offset stands, from 1.
fn line_of(text: &[u8], place: usize) -> usize {
    let newlines = text.iter().take(place).filter(|byte| **byte == b'\n');
    newlines.count().saturating_add(1)
}

// The word at an offset, up to a blank or the end of the text.
fn word_at(text: &[u8], place: usize) -> Option<&[u8]> {
    text.get(place..)?.split(|byte| *byte <= b' ').next()
}

// A text in words that is refused: the offset, the line, and the word that stands there.
pub fn refuse_text<T>(rt: &HostRuntime, fault: Fault, text: &[u8]) -> Result<T, Stop> {
    refuse(rt, fault)?;
    let place = fault.place;
    eprint!(rt; ", at byte {place}, line {}", line_of(text, place))?;
    if let Some(word) = word_at(text, place)
        && !word.is_empty()
    {
        eprint!(rt; ": ")?;
        rt.stderr().write_all(word)?;
    }
    eprintln!(rt)?;
    Err(Stop::Said)
}

// Bytes that are refused as a program, schedule or script in the text form, or as one that was to be converted.
pub fn refuse_bytes<T>(rt: &HostRuntime, fault: Fault, bytes: &[u8]) -> Result<T, Stop> {
    refuse(rt, fault)?;
    eprint!(rt; ", at byte")?;
    // the refusals of the text form stand at no command
    if fault.number < Refusal::UnknownWord as u8 {
        say_offset(rt, fault.place, bytes)?;
    } else {
        eprintln!(rt; " {}", fault.place)?;
    }
    Err(Stop::Said)
}

// A refusal that has no place.
pub fn refuse_call<T>(rt: &HostRuntime, fault: Fault) -> Result<T, Stop> {
    refuse(rt, fault)?;
    eprintln!(rt)?;
    Err(Stop::Said)
}
