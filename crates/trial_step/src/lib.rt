// A bench trial, one line at a time: each step runs the next cycle of a script and writes its line.
#![tactic(auto)]

ghost use Rattle.std.specs.Prelude.{◌≡◌, ◌≤◌, ◌<◌, length, set};
ghost use Rattle.machine.specs.Runnable.{Runnable};
ghost use Rattle.model.specs.Rules.Script.{script_at, calls_from};
ghost use Rattle.trial_script.specs.Script.{altered};
ghost use Rattle.trial_step.specs.Underway.{
  at_start,
  sought_calls,
  seek_of,
  step_of,
  Stepped,
  block_of,
  FilledTo,
  Underway,
  Printed,
  StepsOn,
  Filled,
};

use model::ScriptCommand;

// How far a trial has come: where the script goes on, the cycles left of the present RUN, and the number of the next line.
#[derive(Clone, Copy)]
pub struct Progress {
    pub at: usize,
    pub left: u8,
    pub line: u32,
}

// How many bytes of a block are lines, the progress after them, and whether the script has ended: size and progress hold
// in both cases, so `ended` is no flag of a value.
#[derive(Clone, Copy)]
pub struct Block {
    pub size: usize,
    pub progress: Progress,
    pub ended: bool,
}

// The most bytes that a line has, and a few more.
const LINE: usize = 1024;

// Before the first line.
pub fn at_start() -> Progress
    ensures { result ≡ at_start }
{
    Progress {
        at: 0,
        left: 0,
        line: 0,
    }
}

// Stores a sample, where there is space for it.
fn store(samples: &mut [i32], signal: u8, word: i32)
    ensures { samples.new ≡ set samples.old signal word }
{
    let x = basics::from_byte(signal);
    if x < samples.len() {
        samples[x] = word;
    }
}

// What a command does to the samples.
#[tactic(auto, unfolding(trial_script::specs::Script::altered))]
fn alter(samples: &mut [i32], command: ScriptCommand)
    ensures { samples.new ≡ altered samples.old command }
{
    if let ScriptCommand::Set(x, w) = command {
        store(&mut samples[..], x, w);
    }
}

// Goes on from an offset to the next cycle: SETs on the way alter the samples. Where the script goes on after the RUN that
// makes the cycle, and how many more that RUN makes; none if no cycle is left.
fn seek(text: &[u8], from: usize, samples: &mut [i32]) -> Option<(usize, u8)>
    ensures calls { calls_from samples.old (script_at text.now from).actions ≡
        sought_calls text.now samples.new result }
    ensures found { result ≡ (seek_of text.now from samples.old).sought }
    ensures left { samples.new ≡ (seek_of text.now from samples.old).samples }
{
    let mut at = from;
    // A `while`: where the next command stands depends on this one.
    while at < text.len() {
        let command = trial_script::script_command_at(text, at);
        let width = trial_script::action_width(command);
        if width == 0 {
            return None;
        }
        alter(&mut samples[..], command);
        at = at + width;
        let runs = trial_script::cycles_made(command);
        if 0 < runs {
            return Some((at, runs - 1));
        }
    }
    None
}

// Runs one cycle and writes its line; answers the line's length.
fn print_cycle(
    image: &[u8],
    number: u32,
    samples: &[i32],
    state: &mut [i32],
    line: &mut [u8],
) -> usize
    requires { Runnable image.now state.old samples.now × (1024 ≤ length line.old) }
    ensures { Printed image.now number samples.now state.old line.old
        state.new line.new result }
{
    machine::run_cycle(image, &mut state[..], samples);
    let n = basics::from_byte(image[1]);
    let end = n + 1;
    decimal::put_line(&mut line[..], number, &state[1..end])
}

// The next line of a trial that is under way, written to the start of `line`: its length and the progress after it; none at
// the end of the script.
pub fn next_line(
    image: &[u8],
    text: &[u8],
    progress: Progress,
    samples: &mut [i32],
    state: &mut [i32],
    line: &mut [u8],
) -> Option<(usize, Progress)>
    requires { Underway image.now text.now progress samples.old state.old × (1024 ≤ length line.old) }
    ensures steps { StepsOn image.now text.now progress samples.old state.old
        samples.new state.new line.new result }
    ensures is { Stepped
        (step_of image.now text.now progress samples.old state.old
        line.old) samples.new state.new line.new result }
{
    let at = progress.at;
    let left = progress.left;
    let number = progress.line;
    if 0 < left {
        let size = print_cycle(image, number, &samples[..], &mut state[..], &mut line[..]);
        let next = Progress {
            at: at,
            left: left - 1,
            line: number + 1,
        };
        return Some((size, next));
    }
    let Some((after, more)) = seek(text, at, &mut samples[..]) else {
        return None;
    };
    let size = print_cycle(image, number, &samples[..], &mut state[..], &mut line[..]);
    let next = Progress {
        at: after,
        left: more,
        line: number + 1,
    };
    Some((size, next))
}

// As many lines as the block has space for, one after another from its start.
pub fn next_block(
    image: &[u8],
    text: &[u8],
    progress: Progress,
    samples: &mut [i32],
    state: &mut [i32],
    block: &mut [u8],
) -> Block
    requires { Underway image.now text.now progress samples.old state.old × (1024 ≤ length block.old) }
    ensures fills { Filled image.now text.now progress samples.old state.old
        samples.new state.new block.new result }
    ensures is { FilledTo
        (block_of image.now text.now progress samples.old state.old
        block.old) samples.new state.new block.new result }
{
    let mut reached = progress;
    let mut size: usize = 0;
    // A `while`: how much space is left depends on the line.
    while LINE <= block.len() - size {
        let next = next_line(
            image,
            text,
            reached,
            &mut samples[..],
            &mut state[..],
            &mut block[size..],
        );
        let Some((length, after)) = next else {
            return Block {
                size: size,
                progress: reached,
                ended: true,
            };
        };
        size = size + length;
        reached = after;
    }
    Block {
        size: size,
        progress: reached,
        ended: false,
    }
}
