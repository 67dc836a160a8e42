// An image in words: head, records, run lists, rows, code and tail, each with its offset. It is well formed; what is read past
// its end would be 0.
#![tactic(auto)]

ghost use Rattle.std.specs.Prelude.{◌≤◌, ◌<◌, IfOk};

use console::Stop;
use std::io;

// The bytes of an image, with its tail where it has one.
#[derive(Clone, Copy)]
struct Image<'a> {
    bytes: &'a [u8],
}

impl<'a> Image<'a> {
    fn byte(self, at: usize) -> usize
        ensures { result < 256 }
    {
        self.bytes.get(at).copied().map_or(0, usize::from)
    }

    fn two(self, at: usize) -> usize
        requires { at < 1000000 }
        ensures { result < 65536 }
    {
        self.byte(at) + 256 * self.byte(at + 1)
    }

    fn word(self, at: usize) -> i32
        requires { at < 900000 }
    {
        let bits = self.two(at) + 65536 * self.two(at + 2);
        (bits as u32).cast_signed()
    }

    // Cycles and signals.
    fn cycles(self) -> usize
        ensures { result < 256 }
    {
        self.byte(0)
    }

    fn signals(self) -> usize
        ensures { result < 256 }
    {
        self.byte(1)
    }

    // Where the image ends, and its tail starts.
    fn end(self) -> usize
        ensures { result < 65536 }
    {
        self.two(2)
    }

    // Where the offsets of the run lists start, which the offset of the rows follows.
    fn lists(self) -> usize
        ensures { result < 1600 }
    {
        4 + 6 * self.signals()
    }

    // Where the code of signal x starts; the code of the last one ends with the image.
    fn code(self, x: usize) -> usize
        ensures { result < 65536 }
    {
        if x < self.signals() {
            self.two(8 + 6 * x)
        } else {
            self.end()
        }
    }
}

fn print_head(rt: &HostRuntime, image: Image) -> io::Result<()> {
    let (h, n, end) = (image.cycles(), image.signals(), image.end());
    println!(rt; "{:>5} head H {h} N {n} L {end}", 0)
}

fn print_records(rt: &HostRuntime, image: Image) -> io::Result<()> {
    for x in 0..image.signals() {
        let at = 4 + 6 * x;
        let (initial, code) = (image.word(at), image.two(at + 4));
        println!(rt; "{at:>5} signal {x} initial {initial} code at {code}")?;
    }
    Ok(())
}

// The list of cycle c, between its offset and the next.
fn print_list(rt: &HostRuntime, image: Image, c: usize) -> io::Result<()>
    requires { c < 256 }
{
    let at = image.lists() + 2 * c;
    let from = image.two(at);
    print!(rt; "{from:>5} cycle {c} runs")?;
    for entry in from..image.two(at + 2) {
        print!(rt; " {}", image.byte(entry))?;
    }
    println!(rt)
}

fn print_lists(rt: &HostRuntime, image: Image) -> io::Result<()> {
    for c in 0..image.cycles() {
        print_list(rt, image, c)?;
    }
    Ok(())
}

// The rows, whose offset follows those of the run lists.
fn print_rows(rt: &HostRuntime, image: Image) -> io::Result<()> {
    let from = image.two(image.lists() + 2 * image.cycles());
    let count = image.byte(from);
    println!(rt; "{from:>5} rows {count}")?;
    for i in 0..count {
        let at = from + 1 + 12 * i;
        let (low, high, gives) = (image.word(at), image.word(at + 4), image.word(at + 8));
        println!(rt; "{at:>5} row from {low} to {high} gives {gives}")?;
    }
    Ok(())
}

// The commands of image code that are operators, by their bytes: an enum would have each only to print it.
fn operator(code: usize) -> &'static str {
    match code {
        0x30 => "ADD",
        0x31 => "SUB",
        0x32 => "MUL",
        0x33 => "LESS",
        0x34 => "SAME",
        0x35 => "MIN",
        0x36 => "MAX",
        0x38 => "NEG",
        0x3A => "IF",
        _ => "TABLE",
    }
}

// One command, and how many bytes it takes.
fn print_command(rt: &HostRuntime, image: Image, at: usize) -> io::Result<usize>
    requires { at < 65536 }
    ensures { IfOk result (λ n. (1 ≤ n) × (n ≤ 5)) }
{
    let code = image.byte(at);
    let signal = image.byte(at + 1);
    match code {
        0x00..=0x4F => {
            print!(rt; " {}", operator(code))?;
            return Ok(1);
        }
        0x50 => {
            print!(rt; " PUSH {}", image.word(at + 1))?;
            return Ok(5);
        }
        0x51 => print!(rt; " LOAD {signal}")?,
        0x52 => print!(rt; " FETCH {signal}")?,
        _ => print!(rt; " STORE {signal}")?,
    }
    Ok(2)
}

// The code of signal x, which ends where the next starts.
fn print_code(rt: &HostRuntime, image: Image, x: usize) -> io::Result<()>
    requires { x < 256 }
{
    let mut at = image.code(x);
    let end = image.code(x + 1);
    print!(rt; "{at:>5} code of signal {x}:")?;
    // no `for`: each command says how far the next is
    while at < end {
        at += print_command(rt, image, at)?;
    }
    println!(rt)
}

fn print_codes(rt: &HostRuntime, image: Image) -> io::Result<()> {
    for x in 0..image.signals() {
        print_code(rt, image, x)?;
    }
    Ok(())
}

// The tail after the image: an entry a signal.
fn print_tail(rt: &HostRuntime, image: Image) -> io::Result<()> {
    for x in 0..image.signals() {
        let at = image.end() + 4 * x;
        let (label, period, phase) = (image.two(at), image.byte(at + 2), image.byte(at + 3));
        println!(rt; "{at:>5} signal {x} label {label} period {period} phase {phase}")?;
    }
    Ok(())
}

// Prints an image from a file, or that it is none.
pub fn print_image(rt: &HostRuntime, bytes: &[u8]) -> Result<(), Stop> {
    image_valid::tail_length(bytes).or_else(|fault| explain::refuse_call(rt, fault))?;
    let image = Image { bytes };
    print_head(rt, image)?;
    print_records(rt, image)?;
    print_lists(rt, image)?;
    print_rows(rt, image)?;
    print_codes(rt, image)?;
    if image.end() < bytes.len() {
        print_tail(rt, image)?;
    }
    Ok(())
}
