// A report in words: the sizes, and a line a cycle with its commands, its load and a bar.
#![tactic(auto)]

ghost use Rattle.std.specs.Prelude.{◌≤◌, ◌<◌, ◌≡◌, get_or};
ghost use Rattle.print_report.specs.Bar.{bar_of};

use console::Stop;
use model::Sizes;
use std::io;
use timetable::Timetable;

// The most commands of any of these cycles, at least 1.
fn most_of(counts: &[u32]) -> u32
    ensures { 1 ≤ result }
{
    counts.iter().copied().fold(0, u32::max).max(1)
}

// 40 for the most, the others in proportion.
fn scaled(commands: u32, most: u32) -> usize
    requires { 1 ≤ most }
    ensures { result ≡ bar_of commands most }
{
    (40 * u64::from(commands) / u64::from(most)) as usize
}

// How long the bar of cycle c is.
fn bar_length(counts: &[u32; 240], c: usize, most: u32) -> usize
    requires { (c < 240) × (1 ≤ most) }
    ensures { result ≡ bar_of (get_or counts.now c 0) most }
{
    scaled(counts[c], most)
}

fn print_line(
    rt: &HostRuntime,
    counts: &[u32; 240],
    table: &Timetable,
    c: usize,
    most: u32,
) -> io::Result<()>
    requires { (c < 240) × (1 ≤ most) }
{
    print!(rt; "{c:>5}{:>9}{:>11}", counts[c], table.loads[c])?;
    match table.cap {
        Some(limit) => print!(rt; "{limit:>11}")?,
        None => print!(rt; "{:>11}", "-")?,
    }
    let bar = bar_length(counts, c, most);
    println!(rt; "  {:#<bar$}", "")
}

fn print_sizes(rt: &HostRuntime, sizes: Sizes) -> io::Result<()> {
    println!(rt; "L {}", sizes.length)?;
    println!(rt; "length with its tail {}", sizes.written)?;
    println!(rt; "highest stack use {}", sizes.stack)
}

// Prints the report of a pair, or how it is refused.
pub fn print_report(rt: &HostRuntime, program: &[u8], schedule: &[u8]) -> Result<(), Stop> {
    let mut counts = [0; 240];
    let sizes = report::report(program, schedule, &mut counts).or_else(|fault| explain::refuse_pair(
        rt, fault, program, schedule,
    ))?;
    print_sizes(rt, sizes)?;
    let table = timetable::of_pair(program, schedule).or_else(|fault| explain::refuse_pair(
        rt, fault, program, schedule,
    ))?;
    println!(rt; "cycle commands       load        CAP")?;
    let h = table.hypercycle.min(240);
    let most = most_of(&counts[..h]);
    for c in 0..h {
        print_line(rt, &counts, &table, c, most)?;
    }
    Ok(())
}
