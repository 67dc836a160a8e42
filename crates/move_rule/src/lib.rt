// The phases that are left to each signal of an accepted pair where it moves alone: those at which every read is met at its
// settled index and every chain keeps its limit.
#![tactic(auto)]

ghost use Rattle.std.specs.Prelude.{◌↔◌, ◌≡◌, ℕ, ◌≤◌, ◌<◌};
ghost use Rattle.model.specs.Rules.Latency.{timely};
ghost use Rattle.model.specs.Rules.Outcome.{accepted};
ghost use Rattle.model.specs.Rules.Program.{Program, Chain, Read, count, signal_at, body_reads};
ghost use Rattle.model.specs.Rules.Schedule.{Schedule};
ghost use Rattle.model.specs.Says.Feasible.{All, Met};
ghost use Rattle.check_latency.specs.Timely.{Timed, LeewayOf};
ghost use Rattle.move_rule.specs.Ranges.{ReadStays, ReadsStay, ChainStays, ChainsStay};
ghost use Rattle.move_rule.specs.Narrowing.{Long, NarrowedAt, Narrowed, MetTables, Reading, Claim, Slack, LinksPhased};

use check_latency::Leeway;
use model::{Kind, Sampled};
use read_rule::{Phases, Timing};
use text_program::Tables;

fn greater(a: usize, b: usize) -> usize
    ensures { (f : ℕ) → (result ≤ f) ↔ ((a ≤ f) × (b ≤ f)) }
{
    if a < b { b } else { a }
}

fn lesser(a: usize, b: usize) -> usize
    ensures { (f : ℕ) → (f < result) ↔ ((f < a) × (f < b)) }
{
    if b < a { b } else { a }
}

// Of the phases that are left to signal x, those that lie in another range too.
fn narrow(lows: &mut [usize; 64], highs: &mut [usize; 64], x: usize, phases: Phases)
    requires { (x < 64) × Long lows.old highs.old }
    ensures { NarrowedAt x phases lows.old highs.old lows.new highs.new }
{
    lows[x] = greater(lows[x], phases.low);
    highs[x] = lesser(highs[x], phases.high);
}

// What one read in the equation of `reader` leaves: at its settled index it has to be met again, whichever of its two signals
// moves. A read of oneself is met at every phase.
fn narrow_by_read(
    lows: &mut [usize; 64],
    highs: &mut [usize; 64],
    periods: &[u8; 64],
    phases: &[u8; 64],
    ranks: &[u8; 64],
    reader: usize,
    kind: Kind,
    operands: Sampled,
)
    requires { (reader < 64) × (operands.signal < 64) × Long lows.old highs.old }
    ensures { (p : Program) (s : Schedule) (ρ : Read) →
        MetTables periods.now phases.now ranks.now p s →
        reader < count p → kind ≡ ρ.kind → operands ≡ ρ.operands → Met p s reader ρ →
        Narrowed p (λ x f. ReadStays p s x f reader ρ)
        lows.old highs.old lows.new highs.new }
{
    let read = basics::from_byte(operands.signal);
    if read == reader {
        return;
    }
    let w = Timing {
        period: periods[read],
        phase: phases[read],
    };
    let r = Timing {
        period: periods[reader],
        phase: phases[reader],
    };
    let before = ranks[read] < ranks[reader];
    let index = basics::from_byte(check_latency::settled_index(kind, operands, w, r));
    let of_read = read_rule::phases_met(kind, index, w, r, before, false);
    narrow(lows, highs, read, of_read);
    let of_reader = read_rule::phases_met(kind, index, w, r, before, true);
    narrow(lows, highs, reader, of_reader);
}

// What the reads of one signal leave, which go by their index in the table.
fn narrow_by_signal(
    lows: &mut [usize; 64],
    highs: &mut [usize; 64],
    text: &[u8],
    reads: &[u16],
    firsts: &[u16; 65],
    periods: &[u8; 64],
    phases: &[u8; 64],
    ranks: &[u8; 64],
    reader: usize,
)
    requires { Long lows.old highs.old ×
        ((k : Reading text.now reads.now firsts.now periods.now phases.now ranks.now) ×
        (reader < count k.program)) }
    ensures { Long lows.new highs.new ×
        Claim text.now reads.now firsts.now periods.now phases.now
        ranks.now (λ p s. reader < count p →
        Narrowed p (λ x f. All (ReadStays p s x f reader) (body_reads (signal_at p reader).body))
        lows.old highs.old lows.new highs.new) }
{
    let end = basics::from_entry(firsts[reader + 1]);
    for i in basics::from_entry(firsts[reader])..end {
        let at = basics::from_entry(reads[i]);
        let taken = text_command::taken_at(text, at);
        let kind = taken.kind;
        let operands = taken.operands;
        narrow_by_read(lows, highs, periods, phases, ranks, reader, kind, operands);
    }
}

// What all reads leave.
pub fn narrow_by_reads(
    lows: &mut [usize; 64],
    highs: &mut [usize; 64],
    text: &[u8],
    reads: &[u16],
    firsts: &[u16; 65],
    signals: usize,
    periods: &[u8; 64],
    phases: &[u8; 64],
    ranks: &[u8; 64],
)
    requires { Long lows.old highs.old ×
        ((k : Reading text.now reads.now firsts.now periods.now phases.now ranks.now) ×
        (count k.program ≡ signals)) }
    ensures { Long lows.new highs.new ×
        Claim text.now reads.now firsts.now periods.now phases.now
        ranks.now (λ p s. count p ≡ signals → Narrowed p (ReadsStay p s)
        lows.old highs.old lows.new highs.new) }
{
    for reader in 0..signals {
        narrow_by_signal(
            lows, highs, text, reads, firsts, periods, phases, ranks, reader,
        );
    }
}

// What a chain leaves: by as many cycles as its bound is above the least that it keeps, its last link may come later, or its
// first earlier. Where one signal is both, its latencies stay.
fn narrow_by_chain(
    lows: &mut [usize; 64],
    highs: &mut [usize; 64],
    phases: &[u8; 64],
    leeway: Leeway,
)
    requires { Slack leeway × Long lows.old highs.old }
    ensures { (p : Program) (s : Schedule) (h : ℕ) (c : Chain) →
        LinksPhased p s phases.now leeway → LeewayOf p s h c leeway →
        Narrowed p (λ x f. ChainStays p s h x f c)
        lows.old highs.old lows.new highs.new }
{
    let last = basics::from_byte(leeway.last);
    let first = basics::from_byte(leeway.source);
    if last == first {
        return;
    }
    let spare = leeway.bound - leeway.least;
    let latest = basics::from_byte(phases[last]) + spare;
    let later = Phases {
        low: 0,
        high: latest + 1,
    };
    narrow(lows, highs, last, later);
    let reach = greater(basics::from_byte(phases[first]), spare);
    let earlier = Phases {
        low: reach - spare,
        high: 256,
    };
    narrow(lows, highs, first, earlier);
}

// What all chains leave.
pub fn narrow_by_chains(
    lows: &mut [usize; 64],
    highs: &mut [usize; 64],
    text: &[u8],
    reads: &[u16],
    tables: Tables,
    periods: &[u8; 64],
    phases: &[u8; 64],
    h: usize,
)
    requires { Long lows.old highs.old ×
        ((p : Program) × (s : Schedule) × Timed text.now reads.now tables periods.now phases.now h p s ×
        (timely p s h ≡ accepted tt)) }
    ensures { Long lows.new highs.new ×
        ((p : Program) (s : Schedule) →
        Timed text.now reads.now tables periods.now phases.now h p s →
        timely p s h ≡ accepted tt → Narrowed p (ChainsStay p s h)
        lows.old highs.old lows.new highs.new) }
{
    for chain in 0..tables.chains {
        let leeway = check_latency::leeway_of(text, reads, tables, periods, phases, h, chain);
        narrow_by_chain(lows, highs, phases, leeway);
    }
}
