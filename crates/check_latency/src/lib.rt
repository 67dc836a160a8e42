// The hops of a chain, each by the one read of the link before.
#![tactic(auto)]

ghost use Rattle.std.specs.Prelude.{◌≡◌, ℕ, ◌<◌};
ghost use Rattle.model.specs.Rules.Command.{declaration_at};
ghost use Rattle.model.specs.Rules.Latency.{read_among, backwards, keeps, timely};
ghost use Rattle.model.specs.Rules.Outcome.{accepted};
ghost use Rattle.model.specs.Rules.Program.{Program, count, signal_at, body_reads};
ghost use Rattle.model.specs.Rules.Rates.{count_reads};
ghost use Rattle.model.specs.Rules.Reads.{settled_index, met};
ghost use Rattle.model.specs.Rules.Schedule.{Schedule};
ghost use Rattle.model.specs.Rules.Search.{found_or};
ghost use Rattle.model.specs.declared.Declaration.TheVariants.{Latency};
ghost use Rattle.model.specs.declared.Mode.{Mode};
ghost use Rattle.latency_rule.specs.Back.{no_hop};
ghost use Rattle.latency_rule.specs.Hops.{hop_of};
ghost use Rattle.check_rates.specs.Rates.{period_at};
ghost use Rattle.basics.specs.Judgement.{judgement_of};
ghost use Rattle.text_program.specs.Tables.{chain_at, Standing};
ghost use Rattle.text_schedule.specs.Arranged.{Arranged};
ghost use Rattle.read_rule.specs.Reads.{rate_in};
ghost use Rattle.check_latency.specs.Timely.{
  ByteFound,
  MetPair,
  Known,
  ChainsLinked,
  Joinable,
  Timed,
  Judgeable,
  limit_of,
  RouteOf,
  LeewayOf,
};

use latency_rule::{Hop, Route};
use model::{Declaration, Fault, Index, Kind, Mode, Refusal, Sampled};
use read_rule::Timing;
use text_program::Tables;
use text_schedule::PairTables;

// The index found, or 0.
fn index_found(found: Option<usize>) -> u8
    requires { ByteFound found }
    ensures { result ≡ found_or 0 found }
{
    match found {
        Some(i) => i as u8,
        None => 0,
    }
}

// The index of a read: its own, or the one settled.
pub fn settled_index(kind: Kind, sampled: Sampled, w: Timing, r: Timing) -> u8
    ensures { result ≡ settled_index kind (rate_in w) (rate_in r) sampled.factor sampled.index }
{
    let index = sampled.index;
    match index {
        Index::Fixed(i) => i,
        Index::Open => {
            let found = read_rule::find_index(kind, sampled, w, r);
            index_found(found)
        }
    }
}

// A signal's period and phase by the tables.
fn timing_at(periods: &[u8; 64], phases: &[u8; 64], x: u8) -> Timing
    ensures { result ≡ record { period = period_at periods.now x; phase = period_at phases.now x } }
{
    Timing {
        period: check_rates::period_at(periods, x as usize),
        phase: check_rates::period_at(phases, x as usize),
    }
}

// The limit of a chain: which runs are to keep the bound, and the bound.
#[derive(Clone, Copy)]
pub struct Limit {
    pub mode: Mode,
    pub bound: u16,
}

// The limit that a LAT gives.
fn limit_at(text: &[u8], at: usize) -> Limit
    ensures { (mode : Mode) (bound : ℕ) → declaration_at text.now at ≡ Latency mode bound →
        result ≡ record { mode = mode; bound = bound } }
{
    let declaration = text_command::declaration_at(text, at);
    let Declaration::Latency(mode, bound) = declaration else {
        return Limit {
            mode: Mode::Exists,
            bound: 0,
        };
    };
    Limit {
        mode: mode,
        bound: bound,
    }
}

// A chain as its commands give it: its limit, its route, and the signals of its first and its last link.
#[derive(Clone, Copy)]
pub struct Followed {
    pub limit: Limit,
    pub route: Route,
    pub source: u8,
    pub last: u8,
}

// A hop that no read has.
fn no_hop() -> Hop
    ensures { result ≡ no_hop }
{
    Hop {
        kind: Kind::Now,
        factor: 0,
        index: 0,
    }
}

// The hop of the one read of w in the equation of r.
pub fn hop_at(
    text: &[u8],
    reads: &[u16],
    tables: Tables,
    periods: &[u8; 64],
    phases: &[u8; 64],
    w: u8,
    r: u8,
) -> Hop
    requires { Standing text.now reads.now tables }
    ensures { (p : Program) (s : Schedule) →
        Known text.now reads.now tables periods.now phases.now p s →
        w < count p → r < count p →
        count_reads w (body_reads (signal_at p r).body) ≡ 1 → result ≡ hop_of p s r (read_among w (body_reads (signal_at p r).body)) }
{
    let firsts = tables.firsts;
    let found = check_links::one_read(text, reads, &firsts, tables.signals, w, r);
    let Some(at) = found else {
        return no_hop();
    };
    let taken = text_command::taken_at(text, at);
    let read = timing_at(periods, phases, w);
    let reader = timing_at(periods, phases, r);
    let kind = taken.kind;
    let operands = taken.operands;
    let index = settled_index(kind, operands, read, reader);
    Hop {
        kind: kind,
        factor: operands.factor,
        index: index,
    }
}

// Follows a chain, link after link.
fn follow(
    text: &[u8],
    reads: &[u16],
    tables: Tables,
    periods: &[u8; 64],
    phases: &[u8; 64],
    chain: usize,
) -> Followed
    requires { Joinable text.now reads.now tables periods.now phases.now × (chain < tables.chains) }
    ensures { (p : Program) (s : Schedule) →
        ChainsLinked text.now reads.now tables periods.now phases.now p s →
        (result.limit ≡ limit_of (chain_at p chain)) × RouteOf p s result (backwards (chain_at p chain)) }
{
    let starts = tables.starts;
    let lengths = tables.lengths;
    let start = basics::from_entry(starts[chain]);
    let mut at = start + width::in_program(0x12);
    let links = basics::from_byte(lengths[chain]);
    let source = text[at + 1];
    let mut last = source;
    let mut count: usize = 0;
    let mut hops = [no_hop(); 15];
    for more in (1..links).rev() {
        let second = at + width::in_program(0x13);
        let signal = text[second + 1];
        let hop = hop_at(text, reads, tables, periods, phases, last, signal);
        hops[count] = hop;
        count = count + 1;
        last = signal;
        at = second;
    }
    let route = Route {
        hops: hops,
        count: count,
        source: timing_at(periods, phases, source),
        last: timing_at(periods, phases, last),
    };
    Followed {
        limit: limit_at(text, start),
        route: route,
        source: source,
        last: last,
    }
}

// Whether a chain keeps its limit.
fn keeps_time(
    text: &[u8],
    reads: &[u16],
    tables: Tables,
    periods: &[u8; 64],
    phases: &[u8; 64],
    h: usize,
    chain: usize,
) -> bool
    requires { Judgeable text.now reads.now tables periods.now phases.now h × (chain < tables.chains) }
    ensures { (p : Program) (s : Schedule) →
        Timed text.now reads.now tables periods.now phases.now h p s →
        result ≡ keeps p s h (chain_at p chain) }
{
    let followed = follow(text, reads, tables, periods, phases, chain);
    let limit = followed.limit;
    let mode = limit.mode;
    let route = followed.route;
    latency_rule::is_timely(mode, limit.bound as usize, route, h)
}

// 16 at the lowest LAT whose chain does not keep its limit. (Chains × links × runs in the window.)
fn judge_chains(
    text: &[u8],
    reads: &[u16],
    tables: Tables,
    periods: &[u8; 64],
    phases: &[u8; 64],
    h: usize,
) -> Result<(), Fault>
    requires { Judgeable text.now reads.now tables periods.now phases.now h }
    ensures { (p : Program) (s : Schedule) →
        Timed text.now reads.now tables periods.now phases.now h p s →
        result ≡ judgement_of (timely p s h) }
{
    let starts = tables.starts;
    for chain in 0..tables.chains {
        if !keeps_time(text, reads, tables, periods, phases, h, chain) {
            return basics::refuse(Refusal::Latency, basics::from_entry(starts[chain]));
        }
    }
    Ok(())
}

// 16 of a pair by its tables. Its reads are met.
pub fn check_latency(text: &[u8], reads: &[u16], pair: &PairTables) -> Result<(), Fault>
    requires { MetPair text.now reads.now pair.now }
    ensures { (p : Program) (s : Schedule) → Arranged text.now reads.now pair.now p s → met p s ≡ accepted tt →
        result ≡ judgement_of (timely p s pair.now.hypercycle) }
{
    if pair.tables.chains == 0 {
        return Ok(());
    }
    judge_chains(
        text,
        reads,
        pair.tables,
        &pair.tables.periods,
        &pair.slots.phases,
        pair.hypercycle,
    )
}

// A chain's first and last link, its bound, and the least bound with which it would keep its limit.
#[derive(Clone, Copy)]
pub struct Leeway {
    pub source: u8,
    pub last: u8,
    pub bound: usize,
    pub least: usize,
}

// The leeway of a chain. (Links × runs in the window.)
pub fn leeway_of(
    text: &[u8],
    reads: &[u16],
    tables: Tables,
    periods: &[u8; 64],
    phases: &[u8; 64],
    h: usize,
    chain: usize,
) -> Leeway
    requires { Judgeable text.now reads.now tables periods.now phases.now h × (chain < tables.chains) }
    ensures { (p : Program) (s : Schedule) →
        Timed text.now reads.now tables periods.now phases.now h p s →
        LeewayOf p s h (chain_at p chain) result }
{
    let followed = follow(text, reads, tables, periods, phases, chain);
    let limit = followed.limit;
    let mode = limit.mode;
    let route = followed.route;
    Leeway {
        source: followed.source,
        last: followed.last,
        bound: basics::from_entry(limit.bound),
        least: latency_rule::least_bound(mode, route, h),
    }
}
