// Latency: going back from runs of the last link over the reads of a chain.
#![tactic(auto)]

ghost use Rattle.std.specs.Prelude.{◌≡◌, not, ◌+◌, ◌*◌, ◌-◌, ◌/◌, ◌≤◌, ◌<◌};
ghost use Rattle.model.specs.Rules.Search.{first_below, is_found, all_below};
ghost use Rattle.model.specs.Rules.Reads.{run_cycle};
ghost use Rattle.read_rule.specs.Reads.{rate_in};
ghost use Rattle.latency_rule.specs.Back.{
  used_by,
  back_by,
  SmallFound,
  Passable,
  run_latency_by,
  late_by,
  in_time_by,
  window_by,
  from_by,
  timely_in,
  PassableIn,
  all_plain,
  Decide,
  enough_for_none,
  enough_for,
  LeastBound,
};

use model::{Kind, Mode};
use read_rule::Timing;

// One read on the way back: its kind, its factor and its settled index.
#[derive(Clone, Copy)]
pub struct Hop {
    pub kind: Kind,
    pub factor: u8,
    pub index: u8,
}

// The way back over a chain: its reads in the order of the links, and the rates of its first and last link.
#[derive(Clone, Copy)]
pub struct Route {
    pub hops: [Hop; 15],
    pub count: usize,
    pub source: Timing,
    pub last: Timing,
}

// So many runs of the last link, from one on.
#[derive(Clone, Copy)]
pub struct Runs {
    pub from: usize,
    pub count: usize,
}

// The history entry of the signal read that element k of the reader uses.
fn entry_of(hop: Hop, k: usize) -> usize
    requires { (k ≤ 1000000) × (hop.index < hop.factor) }
    ensures { result ≡ used_by hop k }
{
    let n = hop.factor as usize;
    let i = hop.index as usize;
    let kind = hop.kind;
    match kind {
        Kind::Now => k + 1,
        Kind::Last => k,
        Kind::When => k * n + i + 1,
        Kind::LastWhen => k * n + i,
        Kind::Current => (k + n - i) / n,
    }
}

// Goes back from element k over the hops, the last of them first.
fn go_back(route: Route, k: usize) -> Option<usize>
    requires { Passable route k 1 }
    ensures { (result ≡ back_by route.hops route.count k) × SmallFound result }
{
    let hops = route.hops;
    let mut element = k;
    for i in (0..route.count).rev() {
        let hop = hops[i];
        let entry = entry_of(hop, element);
        if entry == 0 {
            return None;
        }
        element = entry - 1;
    }
    Some(element)
}

// The cycle of a run.
fn cycle_of(timing: Timing, k: usize) -> usize
    requires { k ≤ 1000000 }
    ensures { (result ≡ run_cycle (rate_in timing) k) × (result ≤ 255000255) }
{
    k * (timing.period as usize) + (timing.phase as usize)
}

// How many cycles lie from one to another.
fn cycles_between(from: usize, to: usize) -> usize
    ensures { result ≡ to - from }
{
    if to <= from { 0 } else { to - from }
}

// The latency of run k of the last link, if the run counts.
fn run_latency(route: Route, k: usize) -> Option<usize>
    requires { Passable route k 1 }
    ensures { result ≡ run_latency_by route k }
{
    let found = go_back(route, k);
    match found {
        Some(m) => {
            let cycles = cycles_between(cycle_of(route.source, m), cycle_of(route.last, k));
            let latency = cycles + 1;
            Some(latency)
        }
        None => None,
    }
}

fn is_late(bound: usize, latency: Option<usize>) -> bool
    ensures { result ≡ late_by bound latency }
{
    match latency {
        Some(l) => bound < l,
        None => false,
    }
}

fn is_in_time(bound: usize, latency: Option<usize>) -> bool
    ensures { result ≡ in_time_by bound latency }
{
    match latency {
        Some(l) => l <= bound,
        None => false,
    }
}

// Backward: whether every run of the window that counts is within the bound.
fn all_in_time(bound: usize, route: Route, from: usize, window: usize) -> bool
    requires { Passable route from window }
    ensures { result ≡ all_below window (λ i. not (late_by bound (run_latency_by route (from + i)))) }
{
    for i in 0..window {
        let latency = run_latency(route, from + i);
        if is_late(bound, latency) {
            return false;
        }
    }
    true
}

// Exists: whether some run of the window that counts is within the bound.
fn one_in_time(bound: usize, route: Route, from: usize, window: usize) -> bool
    requires { Passable route from window }
    ensures { result ≡ is_found (first_below window (λ i. in_time_by bound (run_latency_by route (from + i)))) }
{
    for i in 0..window {
        let latency = run_latency(route, from + i);
        if is_in_time(bound, latency) {
            return true;
        }
    }
    false
}

fn all_plain(route: Route) -> bool
    requires { route.count ≤ 15 }
    ensures { result ≡ all_plain route.hops route.count }
{
    let hops = route.hops;
    for i in 0..route.count {
        let hop = hops[i];
        let kind = hop.kind;
        if !read_rule::is_plain(kind) {
            return false;
        }
    }
    true
}

// The runs that decide: those of one hypercycle h, after as many hypercycles as there are hops, since every run counts from there
// on; and the first of them where all periods on the way are equal, since every run that counts then goes back alike.
fn deciding_runs(route: Route, h: usize) -> Runs
    requires { PassableIn route h }
    ensures { Decide route h result }
{
    let window = h / (route.last.period as usize);
    let from = route.count * window;
    let all = Runs {
        from: from,
        count: window,
    };
    if window < 2 {
        return all;
    }
    if route.last.period != route.source.period {
        return all;
    }
    if !all_plain(route) {
        return all;
    }
    Runs {
        from: from,
        count: 1,
    }
}

// Whether a chain keeps the bound in hypercycles of h. (Links × runs in the window.)
pub fn is_timely(mode: Mode, bound: usize, route: Route, h: usize) -> bool
    requires { PassableIn route h }
    ensures { result ≡ timely_in mode bound route h }
{
    let runs = deciding_runs(route, h);
    match mode {
        Mode::Exists => one_in_time(bound, route, runs.from, runs.count),
        Mode::Backward => all_in_time(bound, route, runs.from, runs.count),
    }
}

// The bound that is enough for a run beside the least so far: for all runs, or for one of them.
fn enough_for(mode: Mode, least: usize, latency: Option<usize>) -> usize
    ensures { result ≡ enough_for mode least latency }
{
    let Some(l) = latency else {
        return least;
    };
    match mode {
        Mode::Exists => if l < least { l } else { least },
        Mode::Backward => if least < l { l } else { least },
    }
}

// Before any run is looked at: every bound is enough for all of none, and no bound for one of none.
fn enough_for_none(mode: Mode) -> usize
    ensures { result ≡ enough_for_none mode }
{
    match mode {
        Mode::Exists => 1000000000,
        Mode::Backward => 0,
    }
}

// The least bound that a chain keeps in hypercycles of h. (Links × runs in the window.)
pub fn least_bound(mode: Mode, route: Route, h: usize) -> usize
    requires { PassableIn route h }
    ensures { LeastBound mode route (from_by route h) (window_by route h) result }
{
    let runs = deciding_runs(route, h);
    let mut bound = enough_for_none(mode);
    for i in 0..runs.count {
        let latency = run_latency(route, runs.from + i);
        bound = enough_for(mode, bound, latency);
    }
    bound
}
