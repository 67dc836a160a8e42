// Makes the calls of a stream on standard input and prints a line for each (docs/VECTORS.md has the layout of both). What is
// compared from outside is these lines. A stream that is cut off or too large for the space here ends the run.
#![tactic(auto)]

ghost use Rattle.std.specs.Prelude.{◌≡◌, ◌≤◌, length, IfOk};
ghost use Rattle.trial_step.specs.Underway.{at_start, Underway};

use std::{fmt, io};

// Why a run ends.
#[derive(Drop)]
enum Stop {
    // the stream has ended, is cut off or is too large
    Ended,
    // standard output can't be written
    Output(io::Error),
}

impl From<io::Error> for Stop {
    fn from(error: io::Error) -> Stop {
        Stop::Output(error)
    }
}

// Reads n bytes to the start of the space.
fn fill<'a>(rt: &HostRuntime, space: &'a mut [u8], n: usize) -> Result<&'a [u8], Stop>
    ensures { IfOk result (λ s. (n ≤ length space.old) × (length s.now ≡ n)) }
{
    if space.len() < n {
        return Err(Stop::Ended);
    }
    let mut input = rt.stdin();
    if console::read_full(&mut input, &mut space[..n]) < n {
        return Err(Stop::Ended);
    }
    Ok(&space[..n])
}

// Numbers of one, two and four bytes.
fn one(rt: &HostRuntime) -> Result<u8, Stop> {
    let mut bytes = [0; 1];
    fill(rt, &mut bytes, 1)?;
    Ok(bytes[0])
}

fn two(rt: &HostRuntime) -> Result<usize, Stop> {
    let mut bytes = [0; 2];
    fill(rt, &mut bytes, 2)?;
    Ok(usize::from(u16::from_le_bytes(bytes)))
}

fn four(rt: &HostRuntime) -> Result<usize, Stop> {
    let mut bytes = [0; 4];
    fill(rt, &mut bytes, 4)?;
    Ok(u32::from_le_bytes(bytes) as usize)
}

fn word(rt: &HostRuntime) -> Result<i32, Stop> {
    let mut bytes = [0; 4];
    fill(rt, &mut bytes, 4)?;
    Ok(i32::from_le_bytes(bytes))
}

// Reads a count and as many words to the start of the space, and yields the count.
fn fill_words(rt: &HostRuntime, space: &mut [i32]) -> Result<usize, Stop>
    ensures { IfOk result (λ n. n ≤ length space.new) }
{
    let n = two(rt)?;
    if space.len() < n {
        return Err(Stop::Ended);
    }
    for place in space.iter_mut().take(n) {
        *place = word(rt)?;
    }
    Ok(n)
}

// The hash FNV-1a of no bytes.
const NO_BYTES: u32 = 2166136261;

// The hash of bytes after others that have the hash `before`.
fn hash_more(before: u32, bytes: &[u8]) -> u32 {
    bytes.iter().fold(before, |hash, byte| {
        (hash ^ u32::from(*byte)).wrapping_mul(16777619)
    })
}

fn hash_bytes(bytes: &[u8]) -> u32 {
    hash_more(NO_BYTES, bytes)
}

// Words and counts are hashed by their four bytes, low byte first.
fn hash_words(words: &[i32]) -> u32 {
    words.iter().fold(NO_BYTES, |hash, word| hash_more(hash, &word.to_le_bytes()))
}

fn hash_counts(counts: &[u32; 240]) -> u32 {
    counts.iter().fold(
        NO_BYTES,
        |hash, count| hash_more(hash, &count.to_le_bytes()),
    )
}

// What a call answers with one number: the refusal above, the value below.
#[derive(Clone, Copy)]
struct Code(u64);

impl fmt::Display for Code {
    fn fmt<W: fmt::Write>(&self, f: &mut fmt::Formatter<W>) -> fmt::Result {
        write!(f, "{} {}", self.0 / 4294967296, self.0 % 4294967296)
    }
}

// The line of a call, with the hash of what it left.
fn print_line(rt: &HostRuntime, code: u64, hash: u32) -> Result<(), Stop> {
    println!(rt; "{} {hash}", Code(code))?;
    Ok(())
}

// A call on a program and a schedule that fills a buffer. Here and below the buffers are arrays: no program takes an allocator.
fn call_on_pair<F: FnOnce(&[u8], &[u8], &mut [u8]) -> u64>(
    rt: &HostRuntime,
    call: F,
) -> Result<(), Stop>
    requires { F.IsAlwaysCallable call }
{
    let mut program = [0u8; 9000];
    let mut schedule = [0u8; 400];
    let program_size = two(rt)?;
    let schedule_size = two(rt)?;
    let size = four(rt)?;
    let mut buffer = [one(rt)?; 26000];
    let program = fill(rt, &mut program, program_size)?;
    let schedule = fill(rt, &mut schedule, schedule_size)?;
    let buffer = buffer.get_mut(..size).ok_or(Stop::Ended)?;
    let code = call(program, schedule, buffer);
    print_line(rt, code, hash_bytes(buffer))
}

// 06: a report.
fn call_report(rt: &HostRuntime) -> Result<(), Stop> {
    let mut program = [0u8; 9000];
    let mut schedule = [0u8; 400];
    let program_size = two(rt)?;
    let schedule_size = two(rt)?;
    let byte = one(rt)?;
    let program = fill(rt, &mut program, program_size)?;
    let schedule = fill(rt, &mut schedule, schedule_size)?;
    let mut counts = [u32::from_le_bytes([byte; 4]); 240];
    let mut written = 0;
    let mut stack = 0;
    let code = larderlate::larderlate_report(
        program,
        schedule,
        &mut counts,
        &mut written,
        &mut stack,
    );
    println!(rt; "{} {written} {stack} {}", Code(code), hash_counts(&counts))?;
    Ok(())
}

// The width of a byte in a program text, an expression, a schedule text or an image's code; 0 stands for none.
fn width_in(kind: u8, byte: u8) -> usize {
    let width = match kind {
        0 => width::program(byte),
        1 => width::expression(byte),
        2 => width::schedule(byte),
        _ => width::code(byte),
    };
    width.unwrap_or(0)
}

// 07: the widths of a kind of text.
fn call_widths(rt: &HostRuntime) -> Result<(), Stop> {
    let kind = one(rt)?;
    // by number: each byte is itself what is looked up
    for byte in 0..255 {
        print!(rt; "{} ", width_in(kind, byte))?;
    }
    println!(rt; "{}", width_in(kind, 255))?;
    Ok(())
}

// The hash of what a refused trial prints: a number of one or two digits, and a newline.
fn hash_refusal(number: u8) -> u32 {
    let line = [b'0' + number / 10 % 10, b'0' + number % 10, b'\n'];
    if number < 10 {
        hash_bytes(&line[1..])
    } else {
        hash_bytes(&line)
    }
}

// The hash of all lines of a trial, block after block.
fn hash_lines(image: &[u8], text: &[u8], samples: &mut [i32], state: &mut [i32]) -> u32
    requires { Underway image.now text.now at_start samples.old state.old }
{
    let mut block = [0u8; 65536];
    let mut progress = trial_step::at_start();
    let mut hash = NO_BYTES;
    loop {
        let filled = trial_step::next_block(image, text, progress, samples, state, &mut block);
        hash = hash_more(hash, &block[..filled.size]);
        if filled.ended {
            return hash;
        }
        progress = filled.progress;
    }
}

fn trial(rt: &HostRuntime, program: &[u8], schedule: &[u8], text: &[u8]) -> io::Result<()> {
    let start = trial_prepare::prepare(program, schedule, text);
    let ready = match start.ready {
        Ok(ready) => ready,
        Err(fault) => {
            let hash = hash_refusal(fault.number);
            return println!(rt; "{} {} {hash}", fault.number, fault.place);
        }
    };
    let image = &start.image[..start.length];
    let mut samples = ready.samples;
    let mut state = ready.state;
    let hash = hash_lines(image, text, &mut samples, &mut state);
    println!(rt; "0 {} {hash}", ready.lines)
}

// 08: a trial.
fn call_trial(rt: &HostRuntime) -> Result<(), Stop> {
    let mut program = [0u8; 9000];
    let mut schedule = [0u8; 400];
    let mut text = [0u8; 2300];
    let program_size = two(rt)?;
    let schedule_size = two(rt)?;
    let text_size = two(rt)?;
    let program = fill(rt, &mut program, program_size)?;
    let schedule = fill(rt, &mut schedule, schedule_size)?;
    let text = fill(rt, &mut text, text_size)?;
    trial(rt, program, schedule, text)?;
    Ok(())
}

// 0A: a conversion.
fn call_convert(rt: &HostRuntime) -> Result<(), Stop> {
    let mut program = [0u8; 9000];
    let program_size = two(rt)?;
    let size = four(rt)?;
    let mut buffer = [one(rt)?; 26000];
    let program = fill(rt, &mut program, program_size)?;
    let buffer = buffer.get_mut(..size).ok_or(Stop::Ended)?;
    let code = larderlate::larderlate_convert(program, buffer);
    print_line(rt, code, hash_bytes(buffer))
}

// Reads a count of parts and their numbers, four a part, and yields how many numbers these are.
fn fill_parts(rt: &HostRuntime, numbers: &mut [usize; 80]) -> Result<usize, Stop>
    ensures { IfOk result (λ n. n ≤ 80) }
{
    let parts = usize::from(one(rt)?);
    if 20 < parts {
        return Err(Stop::Ended);
    }
    for number in numbers.iter_mut().take(4 * parts) {
        *number = four(rt)?;
    }
    Ok(4 * parts)
}

// 0F: a join.
fn call_join(rt: &HostRuntime) -> Result<(), Stop> {
    let mut texts = [0u8; 20000];
    let mut numbers = [0; 80];
    let mut links = [0u8; 2400];
    let texts_size = four(rt)?;
    let texts = fill(rt, &mut texts, texts_size)?;
    let n = fill_parts(rt, &mut numbers)?;
    let links_size = two(rt)?;
    let links = fill(rt, &mut links, links_size)?;
    let size = four(rt)?;
    let mut buffer = [one(rt)?; 26000];
    let buffer = buffer.get_mut(..size).ok_or(Stop::Ended)?;
    let mut part = 255;
    let code = larderlate::larderlate_join_numbers(texts, &numbers[..n], links, buffer, &mut part);
    println!(rt; "{} {part} {}", Code(code), hash_bytes(buffer))?;
    Ok(())
}

// The hash of a stretch after others.
fn hash_stretch(before: u32, start: usize, size: usize) -> u32 {
    let first = hash_more(before, &((start % 4294967296) as u32).to_le_bytes());
    hash_more(first, &((size % 4294967296) as u32).to_le_bytes())
}

// 03: a reset.
fn call_reset(rt: &HostRuntime, image: &[u8], state: &mut [i32]) -> Result<(), Stop> {
    let code = larderlate::larderlate_reset(image, &mut state[..]);
    print_line(rt, code, hash_words(state))
}

// 04: a cycle.
fn call_cycle(rt: &HostRuntime, image: &[u8], state: &mut [i32]) -> Result<(), Stop> {
    let mut samples = [0; 400];
    let n = fill_words(rt, &mut samples)?;
    let code = larderlate::larderlate_cycle(image, &mut state[..], &samples[..n]);
    print_line(rt, code, hash_words(state))
}

// 09: the tail of the image.
fn call_tail(rt: &HostRuntime, image: &[u8]) -> Result<(), Stop> {
    let mut start = 0;
    let code = larderlate::larderlate_tail(image, &mut start);
    print_line(rt, code, hash_bytes(larderlate::tail(image)))
}

// A sum of bits of the places' flags, one for each place.
fn bits(record: &[usize; 17], weight: usize) -> usize
    requires { 1 ≤ weight }
{
    let [a, b, c, d] = [record[0], record[4], record[8], record[12]];
    a / weight % 2 + b / weight % 2 * 2 + c / weight % 2 * 4 + d / weight % 2 * 8
}

// The line of a call of the board, with its record: four words a place, then the place last taken.
fn print_board(
    rt: &HostRuntime,
    code: u64,
    outcome: [u32; 3],
    record: &[usize; 17],
    state: &[i32],
) -> Result<(), Stop> {
    let [outcome, place, value] = outcome;
    print!(rt; "{} {outcome} {place} {value}", code / 4294967296)?;
    print!(rt; " {} {} {}", bits(record, 1), bits(record, 2), record[16])?;
    let mut stretches = NO_BYTES;
    for place in record.chunks_exact(4) {
        if let [_flags, start, size, count] = place {
            print!(rt; " {count}")?;
            stretches = hash_stretch(stretches, *start, *size);
        }
    }
    println!(rt; " {stretches} {}", hash_words(state))?;
    Ok(())
}

// 0B: a new record.
fn call_board(rt: &HostRuntime, state: &[i32], record: &mut [usize; 17]) -> Result<(), Stop> {
    larderlate::larderlate_board_new(record);
    print_board(rt, 0, [0, 0, 0], record, state)
}

// 0C: a load.
fn call_load(
    rt: &HostRuntime,
    image: &[u8],
    state: &mut [i32],
    record: &mut [usize; 17],
) -> Result<(), Stop> {
    let place = usize::from(one(rt)?);
    let start = four(rt)?;
    let size = four(rt)?;
    let code = larderlate::larderlate_board_load(record, image, &mut state[..], place, start, size);
    print_board(rt, code, [0, 0, 0], record, state)
}

// 0D: a mark.
fn call_mark(rt: &HostRuntime, state: &[i32], record: &mut [usize; 17]) -> Result<(), Stop> {
    let place = usize::from(one(rt)?);
    let code = larderlate::larderlate_board_mark(record, place);
    print_board(rt, code, [0, 0, 0], record, state)
}

// 0E: a turn.
fn call_turn(
    rt: &HostRuntime,
    image: &[u8],
    state: &mut [i32],
    record: &mut [usize; 17],
) -> Result<(), Stop> {
    let mut samples = [0; 400];
    let mut outcome = [0; 3];
    let n = fill_words(rt, &mut samples)?;
    let code = larderlate::larderlate_board_turn(
        record,
        image,
        &mut state[..],
        &samples[..n],
        &mut outcome,
    );
    print_board(rt, code, outcome, record, state)
}

// The flags of a place, from the bits of all.
fn flags_of(loaded: usize, due: usize, weight: usize) -> usize
    requires { 1 ≤ weight }
{
    loaded / weight % 2 + due / weight % 2 * 2
}

// 11: a record as it is: the flags, the place last taken, four counts, then start and length of each place.
fn put_record(rt: &HostRuntime, record: &mut [usize; 17]) -> Result<(), Stop> {
    let mut words = [0; 17];
    let loaded = usize::from(one(rt)?);
    let due = usize::from(one(rt)?);
    words[0] = flags_of(loaded, due, 1);
    words[4] = flags_of(loaded, due, 2);
    words[8] = flags_of(loaded, due, 4);
    words[12] = flags_of(loaded, due, 8);
    words[16] = usize::from(one(rt)?);
    // by number: the stream has the fields in another order than the record
    for place in 0..4 {
        words[4 * place + 3] = four(rt)?;
    }
    for place in 0..4 {
        words[4 * place + 1] = four(rt)?;
        words[4 * place + 2] = four(rt)?;
    }
    *record = words;
    Ok(())
}

// A call on just what is lent.
fn call(
    rt: &HostRuntime,
    kind: u8,
    image: &[u8],
    state: &mut [i32],
    record: &mut [usize; 17],
) -> Result<(), Stop> {
    match kind {
        0x03 => call_reset(rt, image, state),
        0x04 => call_cycle(rt, image, state),
        0x05 => call_on_pair(rt, larderlate::larderlate_compile),
        0x06 => call_report(rt),
        0x07 => call_widths(rt),
        0x08 => call_trial(rt),
        0x09 => call_tail(rt, image),
        0x0A => call_convert(rt),
        0x0B => call_board(rt, state, record),
        0x0C => call_load(rt, image, state, record),
        0x0D => call_mark(rt, state, record),
        0x0E => call_turn(rt, image, state, record),
        0x0F => call_join(rt),
        0x10 => call_on_pair(rt, larderlate::larderlate_moves),
        0x11 => put_record(rt, record),
        _ => Err(Stop::Ended),
    }
}

// How many bytes of the image and words of the state are lent. The buffers and the record stand beside it: tried in one struct,
// the borrow checker does not cover that two of its fields are lent to one call.
#[derive(Clone, Copy)]
struct Lent {
    bytes: usize,
    words: usize,
    ghost image_fits: { bytes ≤ 26000 },
    ghost state_fits: { words ≤ 400 },
}

// The next call of the stream, by its byte: 01 the image, 02 the state.
fn step(
    rt: &HostRuntime,
    lent: Lent,
    image: &mut [u8; 26000],
    state: &mut [i32; 400],
    record: &mut [usize; 17],
) -> Result<Lent, Stop> {
    match one(rt)? {
        0x01 => {
            let bytes = four(rt)?;
            fill(rt, &mut image[..], bytes)?;
            Ok(Lent {
                bytes,
                words: lent.words,
            })
        }
        0x02 => {
            let words = fill_words(rt, &mut state[..])?;
            Ok(Lent {
                bytes: lent.bytes,
                words,
            })
        }
        kind => {
            call(
                rt,
                kind,
                &image[..lent.bytes],
                &mut state[..lent.words],
                record,
            )?;
            Ok(lent)
        }
    }
}

// A loop that is proved has to end, and nothing says that a stream does: no run uses up so many turns.
fn run(rt: &HostRuntime) -> Result<(), Stop> {
    let mut image = [0; 26000];
    let mut state = [0; 400];
    let mut record = [0; 17];
    larderlate::larderlate_board_new(&mut record);
    let mut lent = Lent { bytes: 0, words: 0 };
    for _ in 0..1000000000u32 {
        lent = step(rt, lent, &mut image, &mut state, &mut record)?;
    }
    Ok(())
}

fn main(rt: HostRuntime) -> io::Result<()> {
    match run(&rt) {
        Ok(()) | Err(Stop::Ended) => Ok(()),
        Err(Stop::Output(error)) => Err(error),
    }
}
