// The paper's program A: compiled into too small a buffer and into one that is large enough, then run on the machine. It writes
// the answer of each call and the words after each.
#![tactic(auto)]

use model::Fault;
use std::{fmt, io};

// Program A: input 0; signal 1, WHEN of it every second cycle; signal 2, an open CURRENT of signal 1 plus its own last word.
const PROGRAM: [u8; 34] = [
    0x10, 0x01, 0, 0, 0, 0, 0x11, 0x02, 5, 0, 0, 0, 3, 0, 0x23, 0, 1, 2, 0x11, 0x01, 0, 0, 0, 0, 1,
    0, 0x30, 0x25, 1, 0xFF, 2, 0x22, 2, 0,
];

const SCHEDULE: [u8; 10] = [0x40, 0, 0, 0x40, 1, 1, 0x40, 2, 0, 0];

// A refusal, printed by its number and place.
#[derive(Clone, Copy)]
struct Refused(Fault);

impl fmt::Display for Refused {
    fn fmt<W: fmt::Write>(&self, f: &mut fmt::Formatter<W>) -> fmt::Result {
        write!(f, "refused {} at {}", self.0.number, self.0.place)
    }
}

// The words of a state, each after a space.
#[derive(Clone, Copy)]
struct Words<'a>(&'a [i32]);

impl<'a> fmt::Display for Words<'a> {
    fn fmt<W: fmt::Write>(&self, f: &mut fmt::Formatter<W>) -> fmt::Result {
        for word in self.0 {
            write!(f, " {word}")?;
        }
        Ok(())
    }
}

fn print_compiled(rt: &HostRuntime, compiled: Result<usize, Fault>) -> io::Result<()> {
    match compiled {
        Ok(n) => println!(rt; "image and tail of {n} bytes"),
        Err(fault) => println!(rt; "{}", Refused(fault)),
    }
}

// What a call left, or why it was refused.
fn print_ran<T: Drop>(
    rt: &HostRuntime,
    name: &str,
    ran: Result<T, Fault>,
    state: &[i32],
) -> io::Result<()> {
    match ran {
        Ok(_) => println!(rt; "{name}:{}", Words(state)),
        Err(fault) => println!(rt; "{}", Refused(fault)),
    }
}

// A reset, then a cycle for each sample of input 0.
fn run(rt: &HostRuntime, image: &[u8], state: &mut [i32]) -> io::Result<()> {
    let ran = larderlate::reset(image, state);
    print_ran(rt, "reset", ran, state)?;
    for sample in [10, 11, 12, 13] {
        let cycled = larderlate::cycle(image, state, &[sample, 0, 0]);
        print_ran(rt, "cycle", cycled, state)?;
    }
    Ok(())
}

fn main(rt: HostRuntime) -> io::Result<()> {
    let mut short = [0u8; 48];
    let mut image = [0u8; 61];
    let mut state = [0i32; 4];
    print!(rt; "48 bytes: ")?;
    print_compiled(&rt, larderlate::compile(&PROGRAM, &SCHEDULE, &mut short))?;
    print!(rt; "61 bytes: ")?;
    print_compiled(&rt, larderlate::compile(&PROGRAM, &SCHEDULE, &mut image))?;
    println!(rt; "position and signals 0, 1, 2 after each call, input 0 being 10, 11, 12, 13")?;
    run(&rt, &image, &mut state)
}
