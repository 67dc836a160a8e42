// Schedule texts to tables: the signals in PUT order, and by signal its phase and its rank in that order.
#![tactic(auto)]

ghost use Rattle.std.specs.Prelude.{Ok, ◌≡◌, List, ◌≤◌, ◌<◌, length};
ghost use Rattle.model.specs.Rules.Outcome.{Parsed, accepted};
ghost use Rattle.model.specs.Rules.Program.{Program, count};
ghost use Rattle.model.specs.Rules.Schedule.{Put, parse_schedule};
ghost use Rattle.basics.specs.Judgement.{Answers};
ghost use Rattle.text_program.specs.Tables.{PeriodsOf, Unread};
ghost use Rattle.text_schedule.specs.Slots.{end_judged, all_ranked, PutJudged, Scheduled};
ghost use Rattle.text_schedule.specs.declared.Slots.{Slots};

use model::{Fault, Refusal, ScheduleCommand};
use text_program::Tables;

// The judgement at a command that is no PUT. END is the last byte.
fn judge_end(text: &[u8], at: usize, command: ScheduleCommand) -> Result<(), Fault>
    requires { at < length text.now }
    ensures { result ≡ end_judged text.now at command }
{
    match command {
        ScheduleCommand::EndsEarly => basics::refuse(Refusal::ScheduleText, text.len()),
        ScheduleCommand::Unknown => basics::refuse(Refusal::ScheduleText, at),
        ScheduleCommand::End => {
            let next = at + width::in_schedule(0x00);
            if next < text.len() {
                return basics::refuse(Refusal::ScheduleText, next);
            }
            Ok(())
        }
        ScheduleCommand::Put(_, _) => basics::refuse(Refusal::ScheduleText, at),
    }
}

// Reads a schedule text to its END (11), and answers where that stands.
pub fn read_schedule(text: &[u8]) -> Result<usize, Fault>
    ensures { Answers (λ puts at. puts.next ≡ at) (parse_schedule text.now) result }
{
    let mut at: usize = 0;
    // a `while`: it goes on by the width of what it has read
    while at < text.len() {
        let command = text_command::schedule_command_at(text, at);
        let ScheduleCommand::Put(_, _) = command else {
            judge_end(text, at, command)?;
            return Ok(at);
        };
        at += width::in_schedule(0x40);
    }
    basics::refuse(Refusal::ScheduleText, text.len())
}

// The tables of a schedule. The rank of a signal is its place in PUT order, and 64 while it is not put.
#[derive(Clone, Copy)]
pub struct Slots {
    pub puts: usize,
    pub order: [u8; 64],
    pub phases: [u8; 64],
    pub ranks: [u8; 64],
}

// The tables of a pair: its program's, its schedule's, and its hypercycle.
#[derive(Clone, Copy)]
pub struct PairTables {
    pub tables: Tables,
    pub slots: Slots,
    pub hypercycle: usize,
}

impl PairTables {
    pub fn new() -> Self
        ensures { Unread result.tables }
    {
        Self {
            tables: Tables::new(),
            slots: Slots {
                puts: 0,
                order: [0; 64],
                phases: [0; 64],
                ranks: [0; 64],
            },
            hypercycle: 0,
        }
    }
}

// One PUT, after those that have a rank: 12 and 13.
fn judge_put(
    ranks: &[u8; 64],
    periods: &[u8; 64],
    signals: usize,
    signal: u8,
    phase: u8,
    at: usize,
) -> Result<(), Fault>
    requires { signals ≤ 64 }
    ensures { (t : Slots) → t.ranks ≡ ranks.now →
        PutJudged t periods.now signals (record { place = at; signal = signal; phase = phase }) result }
{
    let x = signal as usize;
    if signals <= x {
        return basics::refuse(Refusal::SignalNotOnce, at);
    }
    if ranks[x] != 64 {
        return basics::refuse(Refusal::SignalNotOnce, at);
    }
    if periods[x] <= phase {
        return basics::refuse(Refusal::Phase, at);
    }
    Ok(())
}

// Whether every signal has a rank.
fn all_put(ranks: &[u8; 64], signals: usize) -> bool
    requires { signals ≤ 64 }
    ensures { result ≡ all_ranked ranks.now signals }
{
    for x in 0..signals {
        if ranks[x] == 64 {
            return false;
        }
    }
    true
}

// Goes through the PUTs of a schedule text that ends at `end`, for signals of these periods: 12 and 13, missing last.
pub fn check_schedule(
    text: &[u8],
    end: usize,
    signals: usize,
    periods: &[u8; 64],
) -> Result<Slots, Fault>
    requires { (signals ≤ 64) × (end ≤ 192) }
    ensures { (p : Program) (o : Parsed (List Put)) → count p ≡ signals → PeriodsOf p periods.now →
        parse_schedule text.now ≡ accepted o → o.next ≡ end → Scheduled p o result }
{
    let mut slots = Slots {
        puts: 0,
        order: [0; 64],
        phases: [0; 64],
        ranks: [64; 64],
    };
    let mut at: usize = 0;
    // a `while`: it goes on by the width of what it has read
    while at < end {
        let command = text_command::schedule_command_at(text, at);
        let ScheduleCommand::Put(signal, phase) = command else {
            return Ok(slots);
        };
        judge_put(&slots.ranks, periods, signals, signal, phase, at)?;
        let x = basics::from_byte(signal);
        slots.order[slots.puts] = signal;
        slots.phases[x] = phase;
        slots.ranks[x] = slots.puts as u8;
        slots.puts += 1;
        at += width::in_schedule(0x40);
    }
    if !all_put(&slots.ranks, signals) {
        return basics::refuse(Refusal::SignalNotOnce, end);
    }
    Ok(slots)
}
