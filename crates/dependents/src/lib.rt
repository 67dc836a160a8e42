// Which signals an input reaches: those that read it, by themselves or through others.
#![tactic(auto)]

ghost use Rattle.std.specs.Prelude.{Bool, List, ◌≡◌, ℕ, ◌≤◌, ◌<◌, length};
ghost use Rattle.model.specs.Rules.Dependents.{any_read, mark_readers, mark_byte, mark_bytes, dependents_of};
ghost use Rattle.model.specs.Rules.Machine.{Does, ran_of};
ghost use Rattle.model.specs.Rules.Program.{Program, signal_at, body_reads};
ghost use Rattle.model.specs.Rules.Script.{is_input_of};
ghost use Rattle.text_program.specs.Tables.{Stands, Standing, Indexes};
ghost use Rattle.check_pair.specs.Checked.{Spacious};
ghost use Rattle.dependents.specs.Marks.{is_marked, MarksBy, ReadsDeclared};

use model::{Fault, Refusal};
use text_program::Tables;
use text_schedule::PairTables;

// Whether signal x of a program that is read is an IN.
fn is_input(text: &[u8], tables: Tables, x: usize) -> bool
    requires { (reads : List ℕ) × Standing text.now reads tables }
    ensures { (p : Program) (reads : List ℕ) → Stands text.now reads tables p → result ≡ is_input_of p x }
{
    if tables.signals <= x {
        return false;
    }
    let places = tables.places;
    let place = basics::from_entry(places[x]);
    text[place] == 0x10
}

// Whether a signal that is read is the input, or marked.
fn is_marked(marks: &[u8; 64], input: usize, signal: usize) -> bool
    requires { signal < 64 }
    ensures { result ≡ is_marked marks.now input signal }
{
    if signal == input {
        return true;
    }
    marks[signal] == 1
}

// The mark of one signal: 1 where one of its reads is of the input or of a signal marked before. Reads go by their index in the
// table.
fn mark_of(
    text: &[u8],
    reads: &[u16],
    firsts: &[u16; 65],
    marks: &[u8; 64],
    input: usize,
    reader: usize,
) -> u8
    requires { (n : ℕ) × (reader < n) × ReadsDeclared text.now reads.now firsts.now n }
    ensures { (p : Program) (n : ℕ) → Indexes text.now reads.now firsts.now n p →
        reader < n → result ≡ mark_byte (any_read (is_marked marks.now input) (body_reads (signal_at p reader).body)) }
{
    let end = basics::from_entry(firsts[reader + 1]);
    for i in basics::from_entry(firsts[reader])..end {
        let at = basics::from_entry(reads[i]);
        let taken = text_command::taken_at(text, at);
        let operands = taken.operands;
        let signal = basics::from_byte(operands.signal);
        if is_marked(marks, input, signal) {
            return 1;
        }
    }
    0
}

// One round: each signal is marked that reads the input, or a signal marked before.
fn mark_readers(
    text: &[u8],
    reads: &[u16],
    firsts: &[u16; 65],
    signals: usize,
    old: &[u8; 64],
    input: usize,
) -> [u8; 64]
    requires { ReadsDeclared text.now reads.now firsts.now signals }
    ensures { (p : Program) → Indexes text.now reads.now firsts.now signals p →
        (bs : List Bool) → MarksBy bs old.now → MarksBy (mark_readers p input bs) result }
{
    let mut marks: [u8; 64] = [0; 64];
    for reader in 0..signals {
        marks[reader] = mark_of(text, reads, firsts, old, input, reader);
    }
    marks
}

// As many rounds as there are signals: they mark all that the input reaches.
fn mark_all(
    text: &[u8],
    reads: &[u16],
    firsts: &[u16; 65],
    signals: usize,
    input: usize,
) -> [u8; 64]
    requires { ReadsDeclared text.now reads.now firsts.now signals }
    ensures { (p : Program) → Indexes text.now reads.now firsts.now signals p →
        result ≡ mark_bytes p input }
{
    let mut marks: [u8; 64] = [0; 64];
    for round in 0..signals {
        marks = mark_readers(text, reads, firsts, signals, &marks, input);
    }
    marks
}

// The marks of a program and a schedule, with a table for the offsets of the reads.
fn dependents_with(
    program: &[u8],
    schedule: &[u8],
    input: usize,
    reads: &mut [u16],
    marks: &mut [u8; 64],
) -> Result<(), Fault>
    requires { Spacious (length program.now) (length reads.old) }
    ensures { Does
        (dependents_of program.now schedule.now input marks.old)
        (ran_of result) marks.new }
{
    let mut pair = PairTables::new();
    check_pair::check_tables(program, schedule, reads, &mut pair)?;
    let tables = &pair.tables;
    if !is_input(program, *tables, input) {
        return basics::refuse(Refusal::NoInput, 0);
    }
    *marks = mark_all(program, reads, &tables.firsts, tables.signals, input);
    Ok(())
}

// With a table of ROOM entries: filling one for the longest program would take longer than the checks of a short one.
fn dependents_in<const ROOM: usize>(
    program: &[u8],
    schedule: &[u8],
    input: usize,
    marks: &mut [u8; 64],
) -> Result<(), Fault>
    requires { Spacious (length program.now) ROOM × (ROOM ≤ 4096) }
    ensures { Does
        (dependents_of program.now schedule.now input marks.old)
        (ran_of result) marks.new }
{
    let mut reads: [u16; ROOM] = [0; ROOM];
    dependents_with(program, schedule, input, &mut reads, marks)
}

// Marks by 1 each signal of an accepted pair that depends on an input, and by 0 every other of the 64. A refused call leaves the
// marks as they were.
pub fn dependents(
    program: &[u8],
    schedule: &[u8],
    input: usize,
    marks: &mut [u8; 64],
) -> Result<(), Fault>
    ensures { Does
        (dependents_of program.now schedule.now input marks.old)
        (ran_of result) marks.new }
{
    if program.len() <= 512 {
        return dependents_in::<256>(program, schedule, input, marks);
    }
    dependents_in::<4096>(program, schedule, input, marks)
}
