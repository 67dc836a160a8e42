// The checks of a pair in the stated order.
#![tactic(auto)]

ghost use Rattle.std.specs.Prelude.{◌≡◌, ◌≤◌, length};
ghost use Rattle.model.specs.Rules.Compile.{short_enough, pair_of};
ghost use Rattle.model.specs.Rules.Outcome.{yielded_of};
ghost use Rattle.model.specs.Rules.Program.{Program, count};
ghost use Rattle.basics.specs.Judgement.{judgement_of};
ghost use Rattle.text_program.specs.Tables.{PeriodsOf, Stands, Standing, Unread, filled};
ghost use Rattle.text_schedule.specs.Slots.{ScheduledAs};
ghost use Rattle.check_pair.specs.Checked.{CheckedWith, CheckedAs, Spacious};
ghost use Rattle.check_pair.specs.Groups.{rates_of, schedule_for};

use model::{Fault, Refusal};
use text_program::Tables;
use text_schedule::{PairTables, Slots};

// The least factor of a read, as the definition's `least_factor`.
const LEAST_FACTOR: u8 = 2;

// 1 where either text is too long.
pub fn check_lengths(program: &[u8], schedule: &[u8]) -> Result<(), Fault>
    ensures { result ≡ judgement_of (short_enough program.now schedule.now) }
{
    if 8192 < program.len() {
        return basics::refuse(Refusal::TextTooLong, 0);
    }
    if 193 < schedule.len() {
        return basics::refuse(Refusal::TextTooLong, 0);
    }
    Ok(())
}

// A program that is read: 7 to 10, then 29 and 30. Answers its hypercycle.
fn check_program(text: &[u8], reads: &[u16], tables: &Tables) -> Result<usize, Fault>
    requires { Standing text.now reads.now tables.now }
    ensures { (p : Program) → Stands text.now reads.now tables.now p → yielded_of result ≡ rates_of p }
{
    check_rates::check_rates(text, reads, *tables)?; // 7, 8
    let hypercycle = check_hypercycle::check_hypercycle(tables.signals, &tables.periods)?; // 9
    check_links::check_links(text, reads, *tables)?; // 10
    check_table::check_table(text, *tables)?; // 29, 30
    Ok(hypercycle)
}

// The schedule of a program with these signals: 11, then 12 and 13.
fn check_puts(schedule: &[u8], signals: usize, periods: &[u8; 64]) -> Result<Slots, Fault>
    requires { (signals ≤ 64) × (length schedule.now ≤ 193) }
    ensures { (p : Program) → count p ≡ signals → PeriodsOf p periods.now →
        ScheduledAs p (schedule_for p schedule.now) result }
{
    let end = text_schedule::read_schedule(schedule)?; // 11
    text_schedule::check_schedule(schedule, end, signals, periods) // 12, 13
}

// All checks of a program and a schedule, with a table for the offsets of the reads: an entry for each two bytes of a program
// that passes 1. Fills new tables, which are lent, for they are too large to be handed out through every `?`. All of these are of
// use where all is fine.
pub fn check_tables(
    program: &[u8],
    schedule: &[u8],
    reads: &mut [u16],
    pair: &mut PairTables,
) -> Result<(), Fault>
    requires { Spacious (length program.now) (length reads.old) × Unread pair.old.tables }
    ensures { CheckedWith program.now reads.new
        (pair_of program.now schedule.now) (filled pair.new result) }
{
    check_lengths(program, schedule)?; // 1
    text_program::read_tables(LEAST_FACTOR, program, reads, &mut pair.tables)?; // 2 to 6
    let hypercycle = check_program(program, reads, &pair.tables)?; // 7 to 10, 29, 30
    let slots = check_puts(schedule, pair.tables.signals, &pair.tables.periods)?; // 11 to 13
    pair.slots = slots;
    pair.hypercycle = hypercycle;
    check_reads::check_reads(program, reads, pair)?; // 14
    check_load::check_load(pair)?; // 15
    check_latency::check_latency(program, reads, pair)?; // 16
    Ok(())
}

// The same, the tables handed out.
pub fn check_with(program: &[u8], schedule: &[u8], reads: &mut [u16]) -> Result<PairTables, Fault>
    requires { Spacious (length program.now) (length reads.old) }
    ensures { CheckedWith program.now reads.new
        (pair_of program.now schedule.now) result }
{
    let mut pair = PairTables::new();
    check_tables(program, schedule, reads, &mut pair)?;
    Ok(pair)
}

// With a table of ROOM entries: filling one for the longest program would take longer than the checks of a short one.
fn check_in<const ROOM: usize>(program: &[u8], schedule: &[u8]) -> Result<PairTables, Fault>
    requires { Spacious (length program.now) ROOM × (ROOM ≤ 4096) }
    ensures { CheckedAs program.now (pair_of program.now schedule.now) result }
{
    let mut reads: [u16; ROOM] = [0; ROOM];
    check_with(program, schedule, &mut reads)
}

// All checks of a program and a schedule, 1 to 16, 29 and 30.
pub fn check_pair(program: &[u8], schedule: &[u8]) -> Result<PairTables, Fault>
    ensures { CheckedAs program.now (pair_of program.now schedule.now) result }
{
    if program.len() <= 512 {
        return check_in::<256>(program, schedule);
    }
    check_in::<4096>(program, schedule)
}
