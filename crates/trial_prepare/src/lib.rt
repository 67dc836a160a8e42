// The start of a bench trial: the pair is compiled, the script checked and the state reset, before any line.
#![tactic(auto)]

ghost use Rattle.std.specs.Prelude.{◌≡◌, true};
ghost use Rattle.model.specs.Rules.Machine.{well_formed};
ghost use Rattle.trial_prepare.specs.Prepares.{PreparesOn, Prepares, HoldsImage};

use model::Fault;

// The samples and the state before the first line, and how many lines there will be.
#[derive(Clone, Copy)]
pub struct Prepared {
    pub lines: usize,
    pub samples: [i32; 64],
    pub state: [i32; 65],
}

// The same, or the refusal; and the image with its length L. The array has space for every image and its tail.
#[derive(Clone, Copy)]
pub struct Start {
    pub ready: Result<Prepared, Fault>,
    pub image: [u8; 65792],
    pub length: usize,
}

// Checks the script (24, 25) for an image, and resets the state.
fn prepare_image(image: &[u8], text: &[u8]) -> Result<Prepared, Fault>
    requires { well_formed image.now ≡ true }
    ensures { PreparesOn image.now text.now result }
{
    let inputs = trial_script::mark_inputs(image);
    trial_script::check_script(text, &inputs)?;
    let lines = trial_script::count_cycles(text);
    let samples: [i32; 64] = [0; 64];
    let mut state: [i32; 65] = [0; 65];
    let _ = machine::reset(image, &mut state);
    Ok(Prepared {
        lines,
        samples,
        state,
    })
}

// Starts a trial, or tells the refusal (1 to 16, 29, 30, 24, 25).
pub fn prepare(program: &[u8], schedule: &[u8], text: &[u8]) -> Start
    ensures starts { Prepares program.now schedule.now text.now result result.ready }
    ensures holds { HoldsImage program.now schedule.now result }
{
    let mut image: [u8; 65792] = [0; 65792];
    let compiled = compiler::compile(program, schedule, &mut image);
    match compiled {
        Ok(n) => {
            let length = image_valid::stated_length(&image[..n]);
            let ready = prepare_image(&image[..length], text);
            Start {
                ready,
                image,
                length,
            }
        }
        Err(fault) => Start {
            ready: Err(fault),
            image,
            length: 0,
        },
    }
}
