// One read: its line, its order, the index that it settles on, and whether it is met.
#![tactic(auto)]

ghost use Rattle.std.specs.Prelude.{false, cond, ◌≡◌, ℕ, ◌-◌, ◌≤◌, ◌<◌};
ghost use Rattle.model.specs.Rules.Reads.{writer_first};
ghost use Rattle.model.specs.Rules.Search.{first_from};
ghost use Rattle.read_rule.specs.Lines.{
  is_plain,
  is_current,
  is_before,
  SmallLine,
  LineFor,
  number_at,
  meets_at,
  CandidatesOf,
  Paced,
};
ghost use Rattle.read_rule.specs.Reads.{rate_in, index_found, met_by, MetIn};

use model::{Index, Kind, Sampled};

// A signal's period and phase.
#[derive(Clone, Copy)]
pub struct Timing {
    pub period: u8,
    pub phase: u8,
}

fn either(first: bool, a: usize, b: usize) -> usize
    ensures { (result ≡ cond first a b) × ((a ≤ 256) → (b ≤ 256) → result ≤ 256) }
{
    if first { a } else { b }
}

// NOW and LAST: a read of an equal period.
pub fn is_plain(kind: Kind) -> bool
    ensures { result ≡ is_plain kind }
{
    match kind {
        Kind::Now => true,
        Kind::Last => true,
        Kind::When => false,
        Kind::LastWhen => false,
        Kind::Current => false,
    }
}

// CURRENT: the signal read has the longer period, and the runs counted are the reader's.
pub fn is_current(kind: Kind) -> bool
    ensures { result ≡ is_current kind }
{
    match kind {
        Kind::Now => false,
        Kind::Last => false,
        Kind::When => false,
        Kind::LastWhen => false,
        Kind::Current => true,
    }
}

// Whether a read uses the last run at or before its cycle, and not the first at or after it.
fn is_before(kind: Kind) -> bool
    ensures { result ≡ is_before kind }
{
    match kind {
        Kind::Now => true,
        Kind::Last => false,
        Kind::When => true,
        Kind::LastWhen => false,
        Kind::Current => false,
    }
}

// Whether a read wants the signal read to run first where runs share a cycle.
fn wants_first(kind: Kind) -> bool
    ensures { result ≡ writer_first kind }
{
    match kind {
        Kind::Now => true,
        Kind::Last => false,
        Kind::When => true,
        Kind::LastWhen => false,
        Kind::Current => true,
    }
}

// One form for the lines of the five reads, so that no branch is taken by the kind: index i meets it where the number origin +
// i * stride is one of the `step` from `cycle` on. For LAST, LASTWHEN and CURRENT these numbers are cycles of runs, for NOW and
// WHEN the cycles just before the next run, `ahead` after the run. Every index of NOW and LAST has the same number, and a step
// that is over any phase.
#[derive(Clone, Copy)]
struct Line {
    origin: usize,
    stride: usize,
    step: usize,
    cycle: usize,
    ahead: usize,
}

// The difference, or 0.
fn minus(a: usize, b: usize) -> usize
    ensures { result ≡ a - b }
{
    if a <= b { 0 } else { a - b }
}

fn line_of(kind: Kind, w: Timing, r: Timing) -> Line
    ensures { LineFor kind w r result }
{
    let plain = is_plain(kind);
    let current = is_current(kind);
    let period = either(
        current,
        basics::from_byte(r.period),
        basics::from_byte(w.period),
    );
    let start = either(
        current,
        basics::from_byte(r.phase),
        basics::from_byte(w.phase),
    );
    let cycle = either(
        current,
        basics::from_byte(w.phase),
        basics::from_byte(r.phase),
    );
    let step = either(plain, 256, period);
    let stride = either(plain, 0, period);
    let ahead = either(is_before(kind), minus(step, 1), 0);
    Line {
        origin: start + ahead,
        stride: stride,
        step: step,
        cycle: cycle,
        ahead: ahead,
    }
}

// The number of an index on a line.
fn number_at(line: Line, index: usize) -> usize
    requires { SmallLine line × (index ≤ 256) }
    ensures { result ≡ number_at line index }
{
    line.origin + index * line.stride
}

fn meets(line: Line, index: usize) -> bool
    requires { SmallLine line × (index ≤ 256) }
    ensures { result ≡ meets_at line index }
{
    let number = number_at(line, index);
    if number < line.cycle {
        return false;
    }
    number < line.cycle + line.step
}

// The lowest index that can meet a line.
fn lowest_index(line: Line) -> usize
    requires { SmallLine line }
    ensures { (k : ℕ) → k < result → meets_at line k ≡ false }
{
    if line.step == 0 {
        return 0;
    }
    let past = line.cycle + (line.step - 1);
    minus(past, line.origin) / line.step
}

// The candidates for the index of a read: those from `from` on that are below `to`.
#[derive(Clone, Copy)]
struct Candidates {
    from: usize,
    to: usize,
}

// The index of a read is its own, or an open one's from the lowest to n - 1: the division is for open reads alone.
fn candidates_of(line: Line, sampled: Sampled) -> Candidates
    requires { SmallLine line }
    ensures { CandidatesOf line sampled result }
{
    let index = sampled.index;
    match index {
        Index::Fixed(i) => Candidates {
            from: basics::from_byte(i),
            to: basics::from_byte(i) + 1,
        },
        Index::Open => Candidates {
            from: lowest_index(line),
            to: basics::from_byte(sampled.factor),
        },
    }
}

// The first candidate that meets its line, or none.
fn settle(line: Line, from: usize, to: usize) -> Option<usize>
    requires { SmallLine line × (to ≤ 256) }
    ensures { result ≡ first_from from (to - from) (meets_at line) }
{
    let mut i = from;
    let settled = loop {
        if to <= i {
            break None;
        }
        if meets(line, i) {
            break Some(i);
        }
        i = i + 1;
    };
    settled
}

// The index of a read whose line holds: its own, or the one settled.
pub fn find_index(kind: Kind, sampled: Sampled, w: Timing, r: Timing) -> Option<usize>
    ensures { result ≡ index_found kind sampled (rate_in w) (rate_in r) }
{
    let line = line_of(kind, w, r);
    let among = candidates_of(line, sampled);
    settle(line, among.from, among.to)
}

// A read is met if its line and its order both hold. Runs share a cycle where the number is `ahead` after the cycle.
pub fn is_met(kind: Kind, sampled: Sampled, w: Timing, r: Timing, before: bool) -> bool
    ensures { Paced kind sampled w r → result ≡ met_by kind sampled (rate_in w) (rate_in r) before }
{
    let line = line_of(kind, w, r);
    let among = candidates_of(line, sampled);
    let found = settle(line, among.from, among.to);
    let Some(i) = found else {
        return false;
    };
    let number = number_at(line, i);
    if number == line.cycle + line.ahead {
        return before == wants_first(kind);
    }
    true
}

// The phases that one signal of a read may take: from `low` up to `high`, which is none of them.
#[derive(Clone, Copy)]
pub struct Phases {
    pub low: usize,
    pub high: usize,
}

// The phases at which a read is met at an index where one of its two signals moves and the other stays: the reader's, or those of
// the signal read. Runs share a cycle at one end of the line alone, which is cut off where they are put the wrong way round.
pub fn phases_met(
    kind: Kind,
    index: usize,
    w: Timing,
    r: Timing,
    before: bool,
    reader: bool,
) -> Phases
    requires { index < 256 }
    ensures { MetIn reader kind (rate_in w) (rate_in r) index before result }
{
    let line = line_of(kind, w, r);
    let wrong = either(before == wants_first(kind), 0, 1);
    let low_end = either(is_before(kind), 0, wrong);
    let high_end = either(is_before(kind), wrong, 0);
    if reader == is_current(kind) {
        let stretch = index * line.stride;
        let base = line.ahead + stretch;
        let first = line.cycle + low_end;
        let past = line.cycle + line.step;
        let cut = base + high_end;
        return Phases {
            low: minus(first, base),
            high: minus(past, cut),
        };
    }
    let number = number_at(line, index);
    let last = number + high_end;
    Phases {
        low: minus(last + 1, line.step),
        high: minus(number + 1, low_end),
    }
}
