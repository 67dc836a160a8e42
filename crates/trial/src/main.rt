// A bench trial: reads a program, a schedule and a script from the three files that the arguments name, and prints a line for
// each cycle of the script, or the number of the refusal; on standard error it says in words what is wrong. All that is printed
// is made by `trial_prepare` and `trial_step`; here it is read and written.
#![tactic(auto)]

ghost use Rattle.std.specs.Prelude.{◌≤◌, length, IfOk};
ghost use Rattle.trial_step.specs.Underway.{at_start, Underway};

use model::{Fault, Refusal};
use std::io;

// Reads the file that argument i names to the start of the space; one that is missing or can't be opened counts as empty.
fn read_file<'a>(rt: &HostRuntime, i: usize, space: &'a mut [u8]) -> io::Result<&'a [u8]>
    ensures { IfOk result (λ s. length s.now ≤ length space.old) }
{
    let mut path = [0u8; 4096];
    let Some(name) = console::argument(rt, i, &mut path) else {
        return Ok(&[]);
    };
    match console::open_read(rt, name) {
        Ok(file) => Ok(console::read(file, space)),
        Err(error) => {
            console::say_failure(rt, name, &error)?;
            Ok(&[])
        }
    }
}

// The number, and in words what it means and where.
fn print_refusal(
    rt: &HostRuntime,
    fault: Fault,
    program: &[u8],
    schedule: &[u8],
    text: &[u8],
) -> io::Result<()> {
    println!(rt; "{}", fault.number)?;
    explain::say_refusal(rt, fault)?;
    match Refusal::try_from(fault.number) {
        Ok(Refusal::ScriptText | Refusal::SetOfNoInput) => explain::say_script(rt, fault, text),
        _ => explain::say_where(rt, fault, program, schedule),
    }
}

// Says on standard error how far a long trial is, every 10,000 lines.
fn tell(rt: &HostRuntime, before: u32, done: u32, lines: usize) -> io::Result<()> {
    if before / 10000 < done / 10000 {
        eprintln!(rt; "{done} of {lines} lines")?;
    }
    Ok(())
}

// Prints all lines, block after block.
fn print_lines(
    rt: &HostRuntime,
    image: &[u8],
    text: &[u8],
    lines: usize,
    samples: &mut [i32],
    state: &mut [i32],
) -> io::Result<()>
    requires { Underway image.now text.now at_start samples.old state.old }
{
    let mut block = [0u8; 65536];
    let mut progress = trial_step::at_start();
    loop {
        let filled = trial_step::next_block(image, text, progress, samples, state, &mut block);
        rt.stdout().write_all(&block[..filled.size])?;
        tell(rt, progress.line, filled.progress.line, lines)?;
        if filled.ended {
            return Ok(());
        }
        progress = filled.progress;
    }
}

// The whole trial, from memory.
fn run(rt: &HostRuntime, program: &[u8], schedule: &[u8], text: &[u8]) -> io::Result<()> {
    let start = trial_prepare::prepare(program, schedule, text);
    let ready = match start.ready {
        Ok(ready) => ready,
        Err(fault) => return print_refusal(rt, fault, program, schedule, text),
    };
    let image = &start.image[..start.length];
    let mut samples = ready.samples;
    let mut state = ready.state;
    print_lines(rt, image, text, ready.lines, &mut samples, &mut state)
}

// Each file is read one byte past its bound, so that a longer one is seen.
fn main(rt: HostRuntime) -> io::Result<()> {
    let mut program = [0u8; 8193];
    let mut schedule = [0u8; 194];
    let mut text = [0u8; 2049];
    if console::argument_count(&rt) != 4 {
        eprintln!(rt; "trial PROGRAM SCHEDULE SCRIPT")?;
    }
    let program = read_file(&rt, 1, &mut program)?;
    let schedule = read_file(&rt, 2, &mut schedule)?;
    let text = read_file(&rt, 3, &mut text)?;
    run(&rt, program, schedule, text)
}
