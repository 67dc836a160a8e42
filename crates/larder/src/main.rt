// The shop's tool: one command a call, on files. All that is decided is decided by the calls of larderlate; here files are read
// and written, and answers are put in words. `larder run FILE` takes the commands from a file, a line each.
#![tactic(auto)]

ghost use Rattle.std.specs.Prelude.{◌<◌, ◌≤◌, length};

use console::Stop;
use model::{Fault, JoinFault, Refusal};
use std::io;

fn say_use(rt: &HostRuntime) -> Result<(), Stop> {
    println!(rt; "failed")?;
    eprint!(rt;
        "\
        larder compile PROGRAM SCHEDULE IMAGE     writes the image with its tail\n\
        larder report PROGRAM SCHEDULE            what it needs: sizes, and a line a cycle\n\
        larder chart PROGRAM SCHEDULE             the same as an SVG picture\n\
        larder moves PROGRAM SCHEDULE             where each signal may go\n\
        larder dependents PROGRAM SCHEDULE INPUT  which signals an input reaches\n\
        larder join LINKS IMAGE PROGRAM SCHEDULE [PROGRAM SCHEDULE ..]\n\
        larder assemble TEXT FILE                 a text in words to bytes\n\
        larder list FILE                          bytes to a text in words\n\
        larder list-image IMAGE                   an image in words\n\
        larder labels IMAGE                       a line a signal: number, label, period, phase\n\
        larder convert PROGRAM FILE               a program from when a factor of 1 was allowed\n\
        larder run FILE                           these commands from a file, a line each\n"
    )?;
    Err(Stop::Said)
}

// Reads a file that is to be shorter than the space; a longer one is refused.
fn read_short<'a>(rt: &HostRuntime, name: &[u8], space: &'a mut [u8]) -> Result<&'a [u8], Stop> {
    let size = space.len();
    let bytes = console::read(console::open(rt, name)?, space);
    if bytes.len() < size {
        return Ok(bytes);
    }
    explain::refuse_call(
        rt,
        Fault {
            number: Refusal::TextTooLong as u8,
            place: 0,
        },
    )
}

// Runs a command on a program and a schedule, each read one byte past its bound, so that a longer one is seen.
fn with_pair<F: FnOnce(&[u8], &[u8]) -> Result<(), Stop>>(
    rt: &HostRuntime,
    program: &[u8],
    schedule: &[u8],
    command: F,
) -> Result<(), Stop>
    requires { F.IsAlwaysCallable command }
{
    let mut program_space = [0u8; 8193];
    let mut schedule_space = [0u8; 194];
    let program = console::read(console::open(rt, program)?, &mut program_space);
    let schedule = console::read(console::open(rt, schedule)?, &mut schedule_space);
    command(program, schedule)
}

// Writes the n bytes of an image to a file, and says what it is.
fn write_image(rt: &HostRuntime, name: &[u8], image: &[u8], n: usize) -> Result<(), Stop> {
    let Some(image) = image.get(..n) else {
        return Ok(());
    };
    console::write_file(rt, name, image)?;
    if let [cycles, signals, low, high, ..] = image {
        let length = u16::from_le_bytes([*low, *high]);
        println!(rt; "L {length} length {n} H {cycles} N {signals}")?;
    }
    Ok(())
}

fn compile(rt: &HostRuntime, program: &[u8], schedule: &[u8], image: &[u8]) -> Result<(), Stop> {
    let mut space = [0u8; 24679];
    let n = larderlate::compile(program, schedule, &mut space).or_else(|fault| explain::refuse_pair(
        rt, fault, program, schedule,
    ))?;
    write_image(rt, image, &space, n)
}

fn refuse_input<T>(
    rt: &HostRuntime,
    fault: Fault,
    program: &[u8],
    schedule: &[u8],
) -> Result<T, Stop> {
    if fault.number == Refusal::NoInput as u8 {
        explain::refuse_call(rt, fault)
    } else {
        explain::refuse_pair(rt, fault, program, schedule)
    }
}

// The signals that the input reaches, each with its label.
fn dependents(rt: &HostRuntime, program: &[u8], schedule: &[u8], input: &[u8]) -> Result<(), Stop> {
    let Some(input) = text_token::number_of(input) else {
        return say_use(rt);
    };
    let mut marks = [0u8; 64];
    larderlate::dependents(program, schedule, input, &mut marks).or_else(|fault| refuse_input(
        rt, fault, program, schedule,
    ))?;
    let table = timetable::of_pair(program, schedule).or_else(|fault| explain::refuse_pair(
        rt, fault, program, schedule,
    ))?;
    for (x, (mark, label)) in marks.iter().zip(&table.labels).enumerate() {
        if *mark == 1 {
            println!(rt; "signal {x} label {label}")?;
        }
    }
    Ok(())
}

fn list(rt: &HostRuntime, file: &[u8]) -> Result<(), Stop> {
    let mut space = [0u8; 8193];
    let mut text = [0u8; 131072];
    let bytes = read_short(rt, file, &mut space)?;
    let n = larderlate::list(bytes, &mut text).or_else(|fault| explain::refuse_bytes(
        rt, fault, bytes,
    ))?;
    if let Some(text) = text.get(..n) {
        rt.stdout().write_all(text)?;
    }
    Ok(())
}

// Writes the n bytes of a text or of a conversion to a file, and says how many they are.
fn write_bytes(rt: &HostRuntime, file: &[u8], bytes: &[u8], n: usize) -> Result<(), Stop> {
    if let Some(bytes) = bytes.get(..n) {
        console::write_file(rt, file, bytes)?;
        println!(rt; "length {n}")?;
    }
    Ok(())
}

fn assemble(rt: &HostRuntime, text: &[u8], file: &[u8]) -> Result<(), Stop> {
    let mut space = [0u8; 262145];
    let mut bytes = [0u8; 8192];
    let text = read_short(rt, text, &mut space)?;
    let n = larderlate::assemble(text, &mut bytes).or_else(|fault| explain::refuse_text(
        rt, fault, text,
    ))?;
    write_bytes(rt, file, &bytes, n)
}

fn convert(rt: &HostRuntime, program: &[u8], file: &[u8]) -> Result<(), Stop> {
    let mut space = [0u8; 8193];
    let mut bytes = [0u8; 8192];
    let program = console::read(console::open(rt, program)?, &mut space);
    let n = larderlate::convert(program, &mut bytes).or_else(|fault| explain::refuse_bytes(
        rt, fault, program,
    ))?;
    write_bytes(rt, file, &bytes, n)
}

// A line a signal, from its entry in the tail.
fn print_labels(rt: &HostRuntime, image: &[u8]) -> Result<(), Stop> {
    larderlate::tail_length(image).or_else(|fault| explain::refuse_call(rt, fault))?;
    for (x, entry) in larderlate::tail(image).chunks_exact(4).enumerate() {
        if let [low, high, period, phase] = entry {
            let label = u16::from_le_bytes([*low, *high]);
            println!(rt; "{x} {label} {period} {phase}")?;
        }
    }
    Ok(())
}

// Runs a command on an image. None with its tail is longer than 65,791 bytes; one more is read, so that a longer file is seen.
fn with_image<F: FnOnce(&[u8]) -> Result<(), Stop>>(
    rt: &HostRuntime,
    image: &[u8],
    command: F,
) -> Result<(), Stop>
    requires { F.IsAlwaysCallable command }
{
    let mut space = [0u8; 65792];
    command(console::read(console::open(rt, image)?, &mut space))
}

// How many texts a join is read from: at most nine parts, so that a ninth is refused by the call.
const TEXTS: usize = 18;

// The texts of a join in one buffer, and four numbers a part: start and length of its program and of its schedule.
#[derive(Drop)]
struct Parts {
    texts: [u8; 75483],
    numbers: [usize; 36],
}

impl Parts {
    // Reads the texts, each one byte past its bound: programs and schedules take turns.
    fn read(&mut self, rt: &HostRuntime, names: &[&[u8]]) -> Result<(), Stop>
        requires { length names.now ≤ 18 }
    {
        let mut at = 0;
        for (j, name) in names.iter().enumerate() {
            let bound = if j % 2 == 0 { 8193 } else { 194 };
            let file = console::open(rt, name)?;
            let end = self.texts.len().min(at + bound);
            let n = console::read(file, &mut self.texts[at..end]).len();
            self.numbers[2 * j] = at;
            self.numbers[2 * j + 1] = n;
            at += n;
        }
        Ok(())
    }

    // Text j, where it lies in the buffer.
    fn text(&self, j: usize) -> Option<&[u8]>
        requires { j < 18 }
    {
        let start = self.numbers[2 * j];
        let size = self.numbers[2 * j + 1];
        self.texts.get(start..)?.get(..size)
    }
}

// A refusal inside a part.
fn refuse_part(rt: &HostRuntime, fault: Fault, part: usize, parts: &Parts) -> Result<(), Stop> {
    explain::refuse(rt, fault)?;
    eprint!(rt; ", part {part}")?;
    if part < 9
        && let Some(program) = parts.text(2 * part)
        && let Some(schedule) = parts.text(2 * part + 1)
    {
        explain::say_where(rt, fault, program, schedule)?;
    }
    Err(Stop::Said)
}

// A refusal of the parts together: the link or the cycle.
fn refuse_join(rt: &HostRuntime, fault: Fault) -> Result<(), Stop> {
    explain::refuse(rt, fault)?;
    let what = match Refusal::try_from(fault.number) {
        Ok(Refusal::ReadUnmet | Refusal::WrongLink) => "link ",
        Ok(Refusal::OverCap) => "cycle ",
        _ => "",
    };
    eprintln!(rt; ", {what}{}", fault.place)?;
    Err(Stop::Said)
}

// Joins parts, each by a program and a schedule, with the links of a file.
fn join(rt: &HostRuntime, links: &[u8], image: &[u8], texts: &[&[u8]]) -> Result<(), Stop>
    requires { length texts.now ≤ 18 }
{
    let mut space = [0u8; 1025];
    let links = read_short(rt, links, &mut space)?;
    let mut parts = Parts {
        texts: [0; 75483],
        numbers: [0; 36],
    };
    parts.read(rt, texts)?;
    let numbers = &parts.numbers[..2 * texts.len()];
    let mut bytes = [0u8; 24679];
    match larderlate::join(&parts.texts, numbers, links, &mut bytes) {
        Ok(n) => write_image(rt, image, &bytes, n),
        Err(JoinFault { fault, part: None }) => refuse_join(rt, fault),
        Err(
            JoinFault {
                fault,
                part: Some(part),
            },
        ) => refuse_part(rt, fault, part, &parts),
    }
}

// The commands on a program and a schedule.
fn run_on_pair(rt: &HostRuntime, words: &[&[u8]]) -> Result<(), Stop> {
    match words {
        [b"compile", program, schedule, image] => {
            with_pair(rt, program, schedule, |p, s| compile(rt, p, s, image))
        }
        [b"report", program, schedule] => with_pair(rt, program, schedule, |p, s| {
            print_report::print_report(rt, p, s)
        }),
        [b"chart", program, schedule] => with_pair(rt, program, schedule, |p, s| {
            print_chart::print_chart(rt, p, s)
        }),
        [b"moves", program, schedule] => with_pair(rt, program, schedule, |p, s| {
            print_moves::print_moves(rt, p, s)
        }),
        [b"dependents", program, schedule, input] => {
            with_pair(rt, program, schedule, |p, s| dependents(rt, p, s, input))
        }
        _ => say_use(rt),
    }
}

// Carries out a command, or says how the program is used.
fn run(rt: &HostRuntime, words: &[&[u8]]) -> Result<(), Stop> {
    match words {
        [b"list", file] => list(rt, file),
        [b"assemble", text, file] => assemble(rt, text, file),
        [b"convert", program, file] => convert(rt, program, file),
        [b"list-image", image] => with_image(rt, image, |i| print_image::print_image(rt, i)),
        [b"labels", image] => with_image(rt, image, |i| print_labels(rt, i)),
        [b"join", links, image, texts @ ..]
            if 0 < texts.len() && texts.len() <= TEXTS && texts.len() % 2 == 0 => {
            join(rt, links, image, texts)
        }
        _ => run_on_pair(rt, words),
    }
}

// All is well where what is wrong has been said.
fn finish(done: Result<(), Stop>) -> io::Result<()> {
    match done {
        Ok(()) | Err(Stop::Said) => Ok(()),
        Err(Stop::Output(error)) => Err(error),
    }
}

// Carries out one command line. One with more words than a join may have is none.
fn run_line(rt: &HostRuntime, line: &[u8]) -> io::Result<()> {
    let mut words: [&[u8]; 22] = [&[]; 22];
    let count = console::count_words(line).min(22);
    // by index: tried `iter_mut`, the borrow checker does not cover references that are written through it
    for i in 0..count {
        words[i] = console::word_of(line, i);
    }
    finish(run(rt, &words[..count]))
}

// Carries out a command of a file, in which a blank ends a word. An empty one is none, nor is one of over 4,095 bytes.
fn run_command(rt: &HostRuntime, command: &[u8]) -> io::Result<()> {
    let mut line = [0u8; 4096];
    let n = command.len();
    if n == 0 || line.len() <= n {
        return Ok(());
    }
    for (place, byte) in line.iter_mut().zip(command) {
        *place = if *byte == b' ' { 0 } else { *byte };
    }
    run_line(rt, &line[..n + 1])
}

// Shows each line of a file of at most 65,535 bytes and carries it out.
fn run_file(rt: &HostRuntime, file: &[u8]) -> Result<(), Stop> {
    let mut space = [0u8; 65536];
    let text = read_short(rt, file, &mut space)?;
    for line in text.split_inclusive(|byte| *byte == b'\n') {
        rt.stdout().write_all(line)?;
        if let Some(command) = line.strip_suffix(b"\n") {
            run_command(rt, command)?;
        }
    }
    Ok(())
}

fn main(rt: HostRuntime) -> io::Result<()> {
    let mut space = [0u8; 65536];
    let line = console::arguments(&rt, &mut space);
    if console::count_words(line) == 2 && console::word_of(line, 0) == b"run".as_slice() {
        return finish(run_file(&rt, console::word_of(line, 1)));
    }
    run_line(&rt, line)
}
