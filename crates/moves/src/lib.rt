// Where one job may go: the phases that each signal of an accepted pair may take while all else stays.
#![tactic(auto)]

ghost use Rattle.std.specs.Prelude.{Some, true, List, ◌↔◌, ◌≡◌, ℕ, ◌+◌, ◌*◌, ◌≤◌, ◌<◌, length, get_or};
ghost use Rattle.model.specs.Rules.Machine.{Does};
ghost use Rattle.model.specs.Rules.Compile.{Pair};
ghost use Rattle.model.specs.Rules.Moves.{all_entries, moves_of};
ghost use Rattle.model.specs.Rules.Outcome.{yielded_of};
ghost use Rattle.model.specs.Says.Feasible.{Between};
ghost use Rattle.check_pair.specs.Checked.{Spacious};
ghost use Rattle.move_rule.specs.Narrowing.{Long};
ghost use Rattle.moves.specs.Listing.{Spare, FitsAt, put_entry, ListsOne, Lists, LeftBelow, ListsAll, Written};
ghost use Rattle.moves.specs.Listing.{AcceptedBy, Accepted, NarrowedBy};

use model::Fault;
use text_schedule::PairTables;

// The load of a cycle with a weight more.
fn load_with(load: u32, weight: u16) -> u64
    ensures { result ≡ load + weight }
{
    (load as u64) + (weight as u64)
}

// Whether a signal may run in the cycles of this phase: in none of them is the load over the limit with its weight more.
fn has_room(loads: &[u32; 240], limit: u32, period: u8, weight: u16, phase: usize, h: usize) -> bool
    requires { (phase < period) × (h ≤ 240) }
    ensures { (result ≡ true) ↔ Spare loads.now (Some limit) (record { period = period; phase = phase }) weight h }
{
    let step = basics::from_byte(period);
    let most = limit as u64;
    let mut next = phase;
    // a `while`: tried `for` by `step_by`, 1.3 to 1.6 times as slow over all phases of a pair
    while next < h {
        let load = load_with(loads[next], weight);
        if most < load {
            return false;
        }
        next += step;
    }
    true
}

// Whether a signal fits at a phase: its present one, or one whose cycles have room for it. Without CAP there is room everywhere.
fn fits(
    loads: &[u32; 240],
    cap: Option<u32>,
    period: u8,
    weight: u16,
    present: u8,
    phase: usize,
    h: usize,
) -> bool
    requires { (phase < period) × (h ≤ 240) }
    ensures { (result ≡ true) ↔ FitsAt loads.now cap period weight present h phase }
{
    let Some(limit) = cap else {
        return true;
    };
    if phase == basics::from_byte(present) {
        return true;
    }
    has_room(loads, limit, period, weight, phase, h)
}

// Writes entry `count` where the list has space for it whole.
fn put_entry(list: &mut [u8], count: usize, signal: u8, phase: u8)
    requires { count ≤ 100000 }
    ensures { list.new ≡ put_entry list.old count signal phase }
{
    let at = count * 2;
    let second = at + 1;
    if second < list.len() {
        list[at] = signal;
        list[second] = phase;
    }
}

// Lists signal x at a phase if it fits there, as entry `count`, and yields how many entries there are then.
fn list_phase(
    list: &mut [u8],
    count: usize,
    x: u8,
    phase: usize,
    loads: &[u32; 240],
    cap: Option<u32>,
    period: u8,
    weight: u16,
    present: u8,
    h: usize,
) -> usize
    requires { (phase < period) × (h ≤ 240) × (count ≤ 100000) }
    ensures { ListsOne (FitsAt loads.now cap period weight present h phase)
        x phase list.old list.new count result }
{
    if !fits(loads, cap, period, weight, present, phase, h) {
        return count;
    }
    put_entry(list, count, x, phase as u8);
    count + 1
}

// Lists the phases from `low` up to `high` at which signal x fits, after `count` entries, and yields how many entries there
// are then.
fn list_signal(
    list: &mut [u8],
    count: usize,
    x: u8,
    low: usize,
    high: usize,
    loads: &[u32; 240],
    cap: Option<u32>,
    period: u8,
    weight: u16,
    present: u8,
    h: usize,
) -> usize
    requires { (h ≤ 240) × (count ≤ 20000) × ((f : ℕ) → Between low f high → f < period) }
    ensures { (result ≤ count + 256) × (length list.new ≡ length list.old) ×
        Lists (FitsAt loads.now cap period weight present h)
        x period low high list.old list.new count result }
{
    let mut entries = count;
    for phase in low..high {
        entries = list_phase(
            list, entries, x, phase, loads, cap, period, weight, present, h,
        );
    }
    entries
}

// Lists the phases of all signals, and yields how many entries there are.
fn list_signals(
    list: &mut [u8],
    signals: usize,
    lows: &[usize; 64],
    highs: &[usize; 64],
    loads: &[u32; 240],
    cap: Option<u32>,
    periods: &[u8; 64],
    weights: &[u16; 64],
    phases: &[u8; 64],
    h: usize,
) -> usize
    requires { (signals ≤ 64) × (h ≤ 240) × LeftBelow signals lows.now highs.now periods.now }
    ensures { ListsAll signals lows.now highs.now loads.now cap
        periods.now weights.now phases.now h list.old list.new result }
{
    let mut entries: usize = 0;
    for x in 0..signals {
        entries = list_signal(
            list, entries, x as u8, lows[x], highs[x], loads, cap, periods[x], weights[x],
            phases[x], h,
        );
    }
    entries
}

// All phases of each signal: those below its period.
fn all_phases(periods: &[u8; 64]) -> [usize; 64]
    ensures { (length result ≡ 64) × ((x : ℕ) → x < 64 → get_or result x 0 ≡ get_or periods.now x 0) }
{
    let mut highs: [usize; 64] = [0; 64];
    for x in 0..64 {
        highs[x] = basics::from_byte(periods[x]);
    }
    highs
}

// Narrows the phases of each signal to those that all reads and all chains of an accepted pair leave.
fn narrow_all(
    lows: &mut [usize; 64],
    highs: &mut [usize; 64],
    text: &[u8],
    reads: &[u16],
    pair: PairTables,
)
    requires { Long lows.old highs.old × Accepted text.now reads.now pair }
    ensures { (schedule : List ℕ) (q : Pair) → AcceptedBy text.now reads.now schedule pair q →
        NarrowedBy q pair.hypercycle lows.old highs.old lows.new highs.new }
{
    let tables = pair.tables;
    let periods = tables.periods;
    let slots = pair.slots;
    move_rule::narrow_by_reads(
        lows,
        highs,
        text,
        reads,
        &tables.firsts,
        tables.signals,
        &periods,
        &slots.phases,
        &slots.ranks,
    );
    move_rule::narrow_by_chains(
        lows,
        highs,
        text,
        reads,
        tables,
        &periods,
        &slots.phases,
        pair.hypercycle,
    );
}

// Lists the moves of an accepted pair by its tables, and yields how many there are.
fn list_moves(text: &[u8], reads: &[u16], pair: PairTables, list: &mut [u8]) -> usize
    requires { Accepted text.now reads.now pair }
    ensures { (schedule : List ℕ) (q : Pair) → AcceptedBy text.now reads.now schedule pair q →
        Written (all_entries text.now schedule q) list.old list.new result }
{
    let tables = pair.tables;
    let slots = pair.slots;
    let n = tables.signals;
    let periods = tables.periods;
    let weights = tables.weights;
    let phases = slots.phases;
    let h = pair.hypercycle;
    let mut lows: [usize; 64] = [0; 64];
    let mut highs = all_phases(&periods);
    narrow_all(&mut lows, &mut highs, text, reads, pair);
    let loads = check_load::loads_of(n, &periods, &phases, &weights, h);
    list_signals(
        list, n, &lows, &highs, &loads, tables.cap, &periods, &weights, &phases, h,
    )
}

// The moves of a program and a schedule, with a table for the offsets of the reads.
fn moves_with(
    program: &[u8],
    schedule: &[u8],
    reads: &mut [u16],
    list: &mut [u8],
) -> Result<usize, Fault>
    requires { Spacious (length program.now) (length reads.old) }
    ensures { Does
        (moves_of program.now schedule.now list.old)
        (yielded_of result) list.new }
{
    let mut pair = PairTables::new();
    check_pair::check_tables(program, schedule, reads, &mut pair)?;
    Ok(list_moves(program, reads, pair, list))
}

// With a table of ROOM entries: filling one for the longest program would take longer than the checks of a short one.
fn moves_in<const ROOM: usize>(
    program: &[u8],
    schedule: &[u8],
    list: &mut [u8],
) -> Result<usize, Fault>
    requires { Spacious (length program.now) ROOM × (ROOM ≤ 4096) }
    ensures { Does
        (moves_of program.now schedule.now list.old)
        (yielded_of result) list.new }
{
    let mut reads: [u16; ROOM] = [0; ROOM];
    moves_with(program, schedule, &mut reads, list)
}

// Lists where one job may go: two bytes, signal and phase, for each move, by signal and then by rising phase, as many as the
// list has space for; the rest of it stays. Yields how many moves there are. A refused call leaves the list as it was.
pub fn moves(program: &[u8], schedule: &[u8], list: &mut [u8]) -> Result<usize, Fault>
    ensures { Does
        (moves_of program.now schedule.now list.old)
        (yielded_of result) list.new }
{
    if program.len() <= 512 {
        return moves_in::<256>(program, schedule, list);
    }
    moves_in::<4096>(program, schedule, list)
}
