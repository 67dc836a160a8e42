// Load: in no cycle of the hypercycle does the summed weight of the signals run exceed CAP (15).
#![tactic(auto)]

ghost use Rattle.std.specs.Prelude.{List, ◌≡◌, ℕ, ◌*◌, ◌≤◌, ◌<◌, ltb, length, get_or};
ghost use Rattle.model.specs.Rules.Load.{loaded};
ghost use Rattle.model.specs.Rules.Program.{Program, count};
ghost use Rattle.model.specs.Rules.Schedule.{Schedule};
ghost use Rattle.model.specs.Rules.Search.{first_below};
ghost use Rattle.basics.specs.Judgement.{judgement_of};
ghost use Rattle.text_program.specs.Tables.{PeriodsOf, WeightsOf, cap_of};
ghost use Rattle.text_schedule.specs.Arranged.{Arranged, Arrangement};
ghost use Rattle.check_load.specs.Load.{LoadsOf, PhasesOf};

use model::{Fault, Refusal};
use text_program::Tables;
use text_schedule::PairTables;

// The load of each cycle below the hypercycle. A step for each run of each signal.
pub fn loads_of(
    signals: usize,
    periods: &[u8; 64],
    phases: &[u8; 64],
    weights: &[u16; 64],
    hypercycle: usize,
) -> [u32; 240]
    requires { (signals ≤ 64) × (hypercycle ≤ 240) ×
        ((x : ℕ) → x < signals → get_or phases.now x 0 < get_or periods.now x 0) }
    ensures { LoadsOf periods.now phases.now weights.now signals hypercycle result }
{
    let mut loads: [u32; 240] = [0; 240];
    for x in 0..signals {
        runs::add_runs(&mut loads, periods[x], phases[x], weights[x], hypercycle);
    }
    loads
}

// The lowest cycle below the hypercycle whose load is over the limit.
fn first_over(loads: &[u32; 240], limit: u32, hypercycle: usize) -> Option<usize>
    requires { hypercycle ≤ 240 }
    ensures { result ≡ first_below hypercycle (λ c. ltb limit (get_or loads.now c 0)) }
{
    for cycle in 0..hypercycle {
        let load = loads[cycle];
        if limit < load {
            return Some(cycle);
        }
    }
    None
}

// 15 at the lowest cycle of the hypercycle whose load is over CAP. Its cost is a step for each run and each cycle.
pub fn judge_load(
    signals: usize,
    periods: &[u8; 64],
    phases: &[u8; 64],
    weights: &[u16; 64],
    cap: Option<u32>,
    hypercycle: usize,
) -> Result<(), Fault>
    requires { (signals ≤ 64) × (hypercycle ≤ 240) ×
        ((x : ℕ) → x < signals → get_or phases.now x 0 < get_or periods.now x 0) }
    ensures { (p : Program) (s : Schedule) → count p ≡ signals → PeriodsOf p periods.now →
        WeightsOf p weights.now → PhasesOf p s phases.now → p.cap ≡ cap_of cap →
        result ≡ judgement_of (loaded p s hypercycle) }
{
    let Some(limit) = cap else {
        return Ok(());
    };
    let loads = loads_of(signals, periods, phases, weights, hypercycle);
    let over = first_over(&loads, limit, hypercycle);
    match over {
        Some(cycle) => basics::refuse(Refusal::OverCap, cycle),
        None => Ok(()),
    }
}

// 15 of a pair by its tables.
pub fn check_load(pair: &PairTables) -> Result<(), Fault>
    requires { (text reads : List ℕ) × Arrangement text reads pair.now }
    ensures { (text reads : List ℕ) (p : Program) (s : Schedule) → Arranged text reads pair.now p s →
        result ≡ judgement_of (loaded p s pair.now.hypercycle) }
{
    judge_load(
        pair.tables.signals,
        &pair.tables.periods,
        &pair.slots.phases,
        &pair.tables.weights,
        pair.tables.cap,
        pair.hypercycle,
    )
}
