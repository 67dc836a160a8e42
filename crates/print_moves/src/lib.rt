// The list of moves in words: signal by signal its number, label, present phase and the phases that it may have, as ranges.
#![tactic(auto)]

ghost use Rattle.std.specs.Prelude.{◌<◌};

use console::Stop;
use std::io;

// Which phases a signal may have, by the moves that the list has of it: each is two bytes, the signal and a phase.
fn phases_of(list: &[u8], signal: usize) -> [bool; 240] {
    let mut phases = [false; 240];
    for entry in list.chunks_exact(2) {
        if let [x, phase] = entry
            && usize::from(*x) == signal
            && *phase < 240
        {
            phases[usize::from(*phase)] = true;
        }
    }
    phases
}

// The start or the end of a range, where phase f is one.
fn print_phase(rt: &HostRuntime, phases: &[bool; 240], f: usize) -> io::Result<()>
    requires { f < 240 }
{
    let before = f > 0 && phases[f - 1];
    let after = f < 239 && phases[f + 1];
    match (before, phases[f], after) {
        (false, true, true) => print!(rt; " {f}-"),
        (false, true, false) => print!(rt; " {f}"),
        (true, true, false) => print!(rt; "{f}"),
        _ => Ok(()),
    }
}

fn print_phases(rt: &HostRuntime, phases: &[bool; 240]) -> io::Result<()> {
    for f in 0..240 {
        print_phase(rt, phases, f)?;
    }
    println!(rt)
}

// Prints where each signal of a pair may go, or how the pair is refused. There are at most 15,360 moves of 2 bytes.
pub fn print_moves(rt: &HostRuntime, program: &[u8], schedule: &[u8]) -> Result<(), Stop> {
    let mut list = [0u8; 30720];
    let count = moves::moves(program, schedule, &mut list).or_else(|fault| explain::refuse_pair(
        rt, fault, program, schedule,
    ))?;
    let list = &list[..2 * count.min(15360)];
    let table = timetable::of_pair(program, schedule).or_else(|fault| explain::refuse_pair(
        rt, fault, program, schedule,
    ))?;
    for x in 0..table.signals.min(64) {
        let label = table.labels[x];
        let phase = table.phases[x];
        print!(rt; "signal {x} label {label} phase {phase} may have")?;
        print_phases(rt, &phases_of(list, x))?;
    }
    Ok(())
}
