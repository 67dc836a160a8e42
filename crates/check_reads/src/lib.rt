// Whether every read is met (14): over the reads by their index, with the operands that stand at their offsets.
#![tactic(auto)]

ghost use Rattle.std.specs.Prelude.{◌≡◌, ◌≤◌, ◌<◌};
ghost use Rattle.model.specs.Rules.Outcome.{lowest};
ghost use Rattle.model.specs.Rules.Program.{Program};
ghost use Rattle.model.specs.Rules.Reads.{met};
ghost use Rattle.model.specs.Rules.Schedule.{Schedule};
ghost use Rattle.basics.specs.Judgement.{judgement_of};
ghost use Rattle.text_program.specs.Tables.{Indexes, Indexed};
ghost use Rattle.text_schedule.specs.Arranged.{Arranged, Arrangement};
ghost use Rattle.check_reads.specs.Met.{Below, PacedAt, read_met, unmet, MetAs};

use model::{Fault, Kind, Refusal, Sampled};
use read_rule::Timing;
use text_program::Tables;
use text_schedule::PairTables;

// One read in the equation of `reader`.
fn read_met(
    signals: usize,
    periods: &[u8; 64],
    phases: &[u8; 64],
    ranks: &[u8; 64],
    at: usize,
    reader: usize,
    kind: Kind,
    operands: Sampled,
) -> Result<(), Fault>
    requires { signals ≤ 64 }
    ensures { PacedAt periods.now phases.now reader kind operands →
        result ≡ read_met periods.now phases.now ranks.now signals at reader kind operands }
{
    let read = operands.signal as usize;
    if signals <= read {
        return Ok(());
    }
    if signals <= reader {
        return Ok(());
    }
    let w = Timing {
        period: periods[read],
        phase: phases[read],
    };
    let r = Timing {
        period: periods[reader],
        phase: phases[reader],
    };
    let before = ranks[read] < ranks[reader];
    if read_rule::is_met(kind, operands, w, r, before) {
        return Ok(());
    }
    basics::refuse(Refusal::ReadUnmet, at)
}

// 14 at the lowest offset of a signal's reads, which go by their index in the table.
fn signal_met(
    text: &[u8],
    reads: &[u16],
    firsts: &[u16; 65],
    signals: usize,
    periods: &[u8; 64],
    phases: &[u8; 64],
    ranks: &[u8; 64],
    reader: usize,
) -> Result<(), Fault>
    requires { (reader < signals) × (signals ≤ 64) × Below periods.now phases.now signals ×
        Indexed text.now reads.now firsts.now signals }
    ensures { (p : Program) → Indexes text.now reads.now firsts.now signals p →
        MetAs p periods.now phases.now ranks.now (λ s. lowest (unmet p s reader)) result }
{
    let end = basics::from_entry(firsts[reader + 1]);
    for i in basics::from_entry(firsts[reader])..end {
        let at = basics::from_entry(reads[i]);
        let taken = text_command::taken_at(text, at);
        let kind = taken.kind;
        let operands = taken.operands;
        read_met(signals, periods, phases, ranks, at, reader, kind, operands)?;
    }
    Ok(())
}

// 14 at the lowest read offset.
fn reads_met(
    text: &[u8],
    reads: &[u16],
    firsts: &[u16; 65],
    signals: usize,
    periods: &[u8; 64],
    phases: &[u8; 64],
    ranks: &[u8; 64],
) -> Result<(), Fault>
    requires { (signals ≤ 64) × Below periods.now phases.now signals ×
        Indexed text.now reads.now firsts.now signals }
    ensures { (p : Program) → Indexes text.now reads.now firsts.now signals p →
        MetAs p periods.now phases.now ranks.now (λ s. met p s) result }
{
    for reader in 0..signals {
        signal_met(text, reads, firsts, signals, periods, phases, ranks, reader)?;
    }
    Ok(())
}

// 14 of a pair by its tables.
pub fn check_reads(text: &[u8], reads: &[u16], pair: &PairTables) -> Result<(), Fault>
    requires { Arrangement text.now reads.now pair.now }
    ensures { (p : Program) (s : Schedule) → Arranged text.now reads.now pair.now p s →
        result ≡ judgement_of (met p s) }
{
    reads_met(
        text,
        reads,
        &pair.tables.firsts,
        pair.tables.signals,
        &pair.tables.periods,
        &pair.slots.phases,
        &pair.slots.ranks,
    )
}
