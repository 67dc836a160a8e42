// A bench trial's script: its commands, and its check as a whole.
#![tactic(auto)]

ghost use Rattle.std.specs.Prelude.{◌≡◌, true, ℕ, ◌*◌, ◌≤◌, ◌<◌, length};
ghost use Rattle.model.specs.Rules.Machine.{well_formed};
ghost use Rattle.model.specs.Rules.Script.{script_command_at, script_of, inputs_only, check_of, cycles_of};
ghost use Rattle.trial_script.specs.Inputs.{fetches, mark_of, marked};
ghost use Rattle.trial_script.specs.Script.{ruled_of, action_width, cycles_made, ending_at, may_stand};

use model::{Fault, Refusal, ScriptCommand};

// The command at an offset.
pub fn script_command_at(text: &[u8], at: usize) -> ScriptCommand
    ensures { result ≡ script_command_at text.now at }
{
    if text.len() <= at {
        return ScriptCommand::EndsEarly;
    }
    let left = text.len() - at;
    let b = text[at];
    if b == 0x00 {
        return ScriptCommand::End;
    }
    if b == 0x70 {
        if left < width::in_script(0x70) {
            return ScriptCommand::EndsEarly;
        }
        return ScriptCommand::Set(text[at + 1], word::word_at(text, at + 2));
    }
    if b == 0x71 {
        if left < width::in_script(0x71) {
            return ScriptCommand::EndsEarly;
        }
        return ScriptCommand::Run(text[at + 1]);
    }
    ScriptCommand::Unknown
}

// The bytes of a SET or RUN; 0 where the script goes no further.
#[tactic(auto, unfolding(crate::specs::Script::action_width))]
pub fn action_width(command: ScriptCommand) -> usize
    ensures { result ≡ action_width command }
{
    match command {
        ScriptCommand::EndsEarly | ScriptCommand::Unknown | ScriptCommand::End => 0,
        ScriptCommand::Set(_, _) => width::in_script(0x70),
        ScriptCommand::Run(_) => width::in_script(0x71),
    }
}

// The cycles that a command makes.
#[tactic(auto, unfolding(crate::specs::Script::cycles_made))]
pub fn cycles_made(command: ScriptCommand) -> u8
    ensures { result ≡ cycles_made command }
{
    match command {
        ScriptCommand::EndsEarly
        | ScriptCommand::Unknown
        | ScriptCommand::End
        | ScriptCommand::Set(_, _) => 0,
        ScriptCommand::Run(n) => n,
    }
}

// The answer at a command that ends the script (24).
#[tactic(auto, unfolding(crate::specs::Script::ending_at))]
fn ending_at(text: &[u8], at: usize, command: ScriptCommand) -> Result<(), Fault>
    requires { at < length text.now }
    ensures { ruled_of result ≡ ending_at text.now at command }
{
    match command {
        ScriptCommand::EndsEarly => basics::refuse(Refusal::ScriptText, text.len()),
        ScriptCommand::Unknown => basics::refuse(Refusal::ScriptText, at),
        ScriptCommand::End => {
            let next = at + width::in_script(0x00);
            if next < text.len() {
                return basics::refuse(Refusal::ScriptText, next);
            }
            Ok(())
        }
        ScriptCommand::Set(_, _) | ScriptCommand::Run(_) => Ok(()),
    }
}

// Reads a script to its end (24).
fn read_script(text: &[u8]) -> Result<(), Fault>
    ensures { ruled_of result ≡ (script_of text.now).ending }
{
    let mut at: usize = 0;
    // A `while`: where the next command stands depends on this one.
    while at < text.len() {
        let command = script_command_at(text, at);
        let width = action_width(command);
        if width == 0 {
            return ending_at(text, at, command);
        }
        at = at + width;
    }
    basics::refuse(Refusal::ScriptText, text.len())
}

// Whether a signal is an input: its code starts with FETCH.
pub fn is_input(image: &[u8], x: u8) -> bool
    requires { well_formed image.now ≡ true }
    ensures { result ≡ fetches image.now x }
{
    let n = basics::from_byte(image[1]);
    let own = basics::from_byte(x);
    if n <= own {
        return false;
    }
    let at = image_valid::code_offset(image, n, own);
    image[at] == 0x52
}

fn mark_of(image: &[u8], x: u8) -> u8
    requires { well_formed image.now ≡ true }
    ensures { result ≡ mark_of (fetches image.now x) }
{
    u8::from(is_input(image, x))
}

// Marks the inputs.
pub fn mark_inputs(image: &[u8]) -> [u8; 256]
    requires { well_formed image.now ≡ true }
    ensures { (x : ℕ) → marked result x ≡ fetches image.now x }
{
    let mut inputs: [u8; 256] = [0; 256];
    let n = image[1];
    for x in 0..n {
        let mark = mark_of(image, x);
        inputs[basics::from_byte(x)] = mark;
    }
    inputs
}

#[tactic(auto, unfolding(crate::specs::Inputs::marked))]
fn is_marked(inputs: &[u8; 256], x: u8) -> bool
    ensures { result ≡ marked inputs.now x }
{
    inputs[basics::from_byte(x)] == 1
}

// Whether a command may stand: a SET only of an input.
#[tactic(auto, unfolding(crate::specs::Script::may_stand))]
fn may_stand(inputs: &[u8; 256], command: ScriptCommand) -> bool
    ensures { result ≡ may_stand (marked inputs.now) command }
{
    match command {
        ScriptCommand::EndsEarly
        | ScriptCommand::Unknown
        | ScriptCommand::End
        | ScriptCommand::Run(_) => true,
        ScriptCommand::Set(x, _) => is_marked(inputs, x),
    }
}

// The first SET of a signal that is no input (25).
fn check_sets(text: &[u8], inputs: &[u8; 256]) -> Result<(), Fault>
    ensures { ruled_of result ≡ inputs_only (marked inputs.now) (script_of text.now).actions }
{
    let mut at: usize = 0;
    // A `while`: where the next command stands depends on this one.
    while at < text.len() {
        let command = script_command_at(text, at);
        let width = action_width(command);
        if width == 0 {
            return Ok(());
        }
        if !may_stand(inputs, command) {
            return basics::refuse(Refusal::SetOfNoInput, at);
        }
        at = at + width;
    }
    Ok(())
}

// Checks a whole script, where the inputs are marked (24, 25).
pub fn check_script(text: &[u8], inputs: &[u8; 256]) -> Result<(), Fault>
    ensures { ruled_of result ≡ check_of (marked inputs.now) text.now }
{
    if 2048 < text.len() {
        return basics::refuse(Refusal::ScriptText, 0);
    }
    read_script(text)?;
    check_sets(text, inputs)
}

// How many cycles a script makes.
pub fn count_cycles(text: &[u8]) -> usize
    requires { length text.now ≤ 2048 }
    ensures { (result ≡ cycles_of (script_of text.now).actions) × (result ≤ 255 * 2048) }
{
    let mut at: usize = 0;
    let mut total: usize = 0;
    // A `while`: where the next command stands depends on this one.
    while at < text.len() {
        let command = script_command_at(text, at);
        let width = action_width(command);
        if width == 0 {
            return total;
        }
        total = total + basics::from_byte(cycles_made(command));
        at = at + width;
    }
    total
}
