// The compiler: a program and a schedule to an image with its tail, or the first refusal.
#![tactic(auto)]

ghost use Rattle.std.specs.Prelude.{◌≤◌, length};
ghost use Rattle.model.specs.Rules.Machine.{Does};
ghost use Rattle.model.specs.Rules.Compile.{compile_of};
ghost use Rattle.model.specs.Rules.Outcome.{yielded_of};
ghost use Rattle.model.specs.declared.Fault.{Fault};
ghost use Rattle.check_pair.specs.Checked.{Spacious};

use model::{Fault, Refusal};
use text_schedule::PairTables;

// The image of a program and a schedule, with a table for the offsets of the reads.
fn compile_with(
    program: &[u8],
    schedule: &[u8],
    reads: &mut [u16],
    image: &mut [u8],
) -> Result<usize, Fault>
    requires { Spacious (length program.now) (length reads.old) }
    ensures { Does
        (compile_of program.now schedule.now image.old)
        (yielded_of result) image.new }
{
    let mut pair = PairTables::new();
    check_pair::check_tables(program, schedule, reads, &mut pair)?;
    let layout = image_write::lay_out(&pair);
    let written = layout.written;
    if image.len() < written {
        return basics::refuse(Refusal::ImageBufferShort, written);
    }
    image_write::emit(program, &pair, layout, &mut image[..]);
    Ok(written)
}

// With a table of ROOM entries: filling one for the longest program would take longer than the checks of a short one.
fn compile_in<const ROOM: usize>(
    program: &[u8],
    schedule: &[u8],
    image: &mut [u8],
) -> Result<usize, Fault>
    requires { Spacious (length program.now) ROOM × (ROOM ≤ 4096) }
    ensures { Does
        (compile_of program.now schedule.now image.old)
        (yielded_of result) image.new }
{
    let mut reads: [u16; ROOM] = [0; ROOM];
    compile_with(program, schedule, &mut reads, image)
}

// Writes the image of an accepted pair and its tail, and yields how many bytes these are. A refused call changes nothing.
pub fn compile(program: &[u8], schedule: &[u8], image: &mut [u8]) -> Result<usize, Fault>
    ensures { Does
        (compile_of program.now schedule.now image.old)
        (yielded_of result) image.new }
{
    if program.len() <= 512 {
        return compile_in::<256>(program, schedule, image);
    }
    compile_in::<4096>(program, schedule, image)
}
