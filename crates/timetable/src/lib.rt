// What runs when: the signals of an accepted pair with period, phase and label, and the load of each cycle.
#![tactic(auto)]

ghost use Rattle.model.specs.Rules.Compile.{pair_of};
ghost use Rattle.basics.specs.Judgement.{Answers};
ghost use Rattle.timetable.specs.Timetable.{TimetableOf};
ghost use Rattle.std.specs.Prelude.{◌≡◌};

use model::Fault;

// What runs when in an accepted pair.
#[derive(Clone, Copy)]
pub struct Timetable {
    pub signals: usize,
    pub hypercycle: usize,
    pub periods: [u8; 64],
    pub phases: [u8; 64],
    pub labels: [u16; 64],
    pub cap: Option<u32>,
    pub loads: [u32; 240],
}

// The timetable of a pair, which is refused as by the report.
pub fn of_pair(program: &[u8], schedule: &[u8]) -> Result<Timetable, Fault>
    ensures { Answers (λ q t. TimetableOf t q) (pair_of program.now schedule.now) result }
{
    let pair = check_pair::check_pair(program, schedule)?;
    let tables = pair.tables;
    let signals = tables.signals;
    let hypercycle = pair.hypercycle;
    let periods = tables.periods;
    let phases = pair.slots.phases;
    let loads = check_load::loads_of(signals, &periods, &phases, &tables.weights, hypercycle);
    Ok(Timetable {
        signals,
        hypercycle,
        periods,
        phases,
        labels: tables.labels,
        cap: tables.cap,
        loads,
    })
}
