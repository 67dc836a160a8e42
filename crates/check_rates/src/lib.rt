// The checks of declarations and rates: refusals 7 and 8.
#![tactic(auto)]

ghost use Rattle.std.specs.Prelude.{List, ◌≡◌, ℕ, ◌≤◌, ◌<◌};
ghost use Rattle.model.specs.Rules.Outcome.{lowest};
ghost use Rattle.model.specs.Rules.Program.{Program, signal_at};
ghost use Rattle.model.specs.Rules.Rates.{period_rule, declared_and_rated};
ghost use Rattle.text_program.specs.Tables.{PeriodsOf, Stands, Standing, Indexes, Indexed, chain_at};
ghost use Rattle.check_rates.specs.Rates.{
  period_at,
  factor_of,
  rate_judged,
  read_judged,
  signal_rates,
  read_rates,
  chain_rates,
  link_rates,
  lower_of,
};
ghost use Rattle.basics.specs.Judgement.{judgement_of};

use model::{Fault, Kind, Refusal, Sampled};
use text_program::Tables;

// The period of a signal by the table; 0 past its end.
pub fn period_at(periods: &[u8; 64], signal: usize) -> u8
    ensures { result ≡ period_at periods.now signal }
{
    if signal < 64 { periods[signal] } else { 0 }
}

// The factor of a read: NOW and LAST are by 1.
fn factor_of(kind: Kind, n: u8) -> u8
    ensures { result ≡ factor_of kind n }
{
    match kind {
        Kind::Now => 1,
        Kind::Last => 1,
        Kind::When => n,
        Kind::LastWhen => n,
        Kind::Current => n,
    }
}

// The period rule of a read with factor n: w is the period of the signal read, r the reader's. One product for the five kinds: a
// branch on the kind would be guessed wrong at every other read.
fn period_rule(kind: Kind, w: u8, r: u8, n: u8) -> bool
    ensures { result ≡ period_rule kind w r n }
{
    let factor = basics::from_byte(factor_of(kind, n));
    let current = read_rule::is_current(kind);
    let longer = basics::from_byte(basics::select(current, w, r));
    let shorter = basics::from_byte(basics::select(current, r, w));
    longer == factor * shorter
}

// 7 at a read or LINK of a signal that is not declared, then 8 at a read that breaks its period rule.
fn judge_rate(declared: bool, kept: bool, place: usize) -> Result<(), Fault>
    ensures { result ≡ rate_judged declared kept place }
{
    if !declared {
        return basics::refuse(Refusal::UndeclaredSignal, place);
    }
    if !kept {
        return basics::refuse(Refusal::PeriodRuleBroken, place);
    }
    Ok(())
}

fn judge_read(
    count: usize,
    periods: &[u8; 64],
    at: usize,
    reader: usize,
    kind: Kind,
    operands: Sampled,
) -> Result<(), Fault>
    ensures { result ≡ read_judged count periods.now at reader kind operands }
{
    let signal = basics::from_byte(operands.signal);
    let w = period_at(periods, signal);
    let r = period_at(periods, reader);
    let kept = period_rule(kind, w, r, operands.factor);
    judge_rate(signal < count, kept, at)
}

// The first read of a signal's equation that is of an undeclared signal (7) or breaks its period rule (8). Reads go by their
// index in the table.
fn judge_signal(
    text: &[u8],
    reads: &[u16],
    firsts: &[u16; 65],
    count: usize,
    periods: &[u8; 64],
    reader: usize,
) -> Result<(), Fault>
    requires { (reader < count) × (count ≤ 64) × Indexed text.now reads.now firsts.now count }
    ensures { (p : Program) → Indexes text.now reads.now firsts.now count p →
        PeriodsOf p periods.now → result ≡ judgement_of (lowest (signal_rates p (signal_at p reader))) }
{
    let end = basics::from_entry(firsts[reader + 1]);
    for i in basics::from_entry(firsts[reader])..end {
        let at = basics::from_entry(reads[i]);
        let taken = text_command::taken_at(text, at);
        let kind = taken.kind;
        let operands = taken.operands;
        judge_read(count, periods, at, reader, kind, operands)?;
    }
    Ok(())
}

// The same of all signals.
fn judge_reads(
    text: &[u8],
    reads: &[u16],
    firsts: &[u16; 65],
    count: usize,
    periods: &[u8; 64],
) -> Result<(), Fault>
    requires { (count ≤ 64) × Indexed text.now reads.now firsts.now count }
    ensures { (p : Program) → Indexes text.now reads.now firsts.now count p →
        PeriodsOf p periods.now → result ≡ judgement_of (lowest (read_rates p)) }
{
    for reader in 0..count {
        judge_signal(text, reads, firsts, count, periods, reader)?;
    }
    Ok(())
}

// The first LINK of a chain that is of an undeclared signal (7).
fn judge_chain(text: &[u8], tables: Tables, chain: usize) -> Result<(), Fault>
    requires { ((reads : List ℕ) × Standing text.now reads tables) × (chain < tables.chains) }
    ensures { (p : Program) (reads : List ℕ) → Stands text.now reads tables p →
        result ≡ judgement_of (lowest (chain_rates p (chain_at p chain))) }
{
    let starts = tables.starts;
    let lengths = tables.lengths;
    let first = basics::from_entry(starts[chain]) + width::in_program(0x12);
    let links = basics::from_byte(lengths[chain]);
    for i in 0..links {
        let at = first + width::in_program(0x13) * i;
        let signal = basics::from_byte(text[at + 1]);
        judge_rate(signal < tables.signals, true, at)?;
    }
    Ok(())
}

// The same of all chains.
fn judge_links(text: &[u8], tables: Tables) -> Result<(), Fault>
    requires { (reads : List ℕ) × Standing text.now reads tables }
    ensures { (p : Program) (reads : List ℕ) → Stands text.now reads tables p →
        result ≡ judgement_of (lowest (link_rates p)) }
{
    for chain in 0..tables.chains {
        judge_chain(text, tables, chain)?;
    }
    Ok(())
}

// The one of two refusals that has the lower place.
fn lower(a: Result<(), Fault>, b: Result<(), Fault>) -> Result<(), Fault>
    ensures { result ≡ lower_of a b }
{
    match a {
        Ok(()) => b,
        Err(one) => match b {
            Ok(()) => a,
            Err(other) => {
                if other.place < one.place {
                    return b;
                }
                a
            }
        },
    }
}

// 7 and 8 in order of offset.
pub fn check_rates(text: &[u8], reads: &[u16], tables: Tables) -> Result<(), Fault>
    requires { Standing text.now reads.now tables }
    ensures { (p : Program) → Stands text.now reads.now tables p →
        result ≡ judgement_of (declared_and_rated p) }
{
    let firsts = tables.firsts;
    let periods = tables.periods;
    let of_reads = judge_reads(text, reads, &firsts, tables.signals, &periods);
    let of_links = judge_links(text, tables);
    lower(of_reads, of_links)
}
