// Larderlate: compile, join, report, reset, cycle, tail, convert, moves, dependents, assemble and list; for C the calls of a
// board too. Each call takes any bytes and words, and its answer and what it leaves are the definition's. What they promise
// together is in crate `promises`.
#![tactic(auto)]

ghost use Rattle.std.specs.Prelude.{◌≡◌};
ghost use Rattle.model.specs.Rules.Compile.{compile_of};
ghost use Rattle.model.specs.Rules.Outcome.{yielded_of};
ghost use Rattle.model.specs.Rules.Dependents.{dependents_of};
ghost use Rattle.model.specs.Rules.Join.{joined_of, part_in, join_of, part_named};
ghost use Rattle.model.specs.Rules.Machine.{Does, ran_of, cycled_of, reset_of, cycle_of};
ghost use Rattle.model.specs.Rules.Moves.{moves_of};
ghost use Rattle.model.specs.Rules.Report.{reported_of, report_of};
ghost use Rattle.model.specs.Rules.Rewrite.{convert_of};
ghost use Rattle.model.specs.Rules.Tail.{tail_in, length_of_tail, stretch_in};
ghost use Rattle.model.specs.Rules.TextForm.{assemble_of, listing_of};
ghost use Rattle.board.specs.Board.{load_of, mark_place_of, turn_of};
ghost use Rattle.board.specs.Record.{board_of, new_words, load_record, mark_record, turn_record, turn_done, outcome_in};
ghost use Rattle.larderlate.specs.Code.{code_number, Tells, part_number, length_in, written_in, stack_in, start_in};

use model::{Fault, JoinFault, Sizes};

// Writes the image of an accepted program and schedule and its tail to the start of `image`, and yields how many bytes these are.
pub fn compile(program: &[u8], schedule: &[u8], image: &mut [u8]) -> Result<usize, Fault>
    ensures { Does
        (compile_of program.now schedule.now image.old)
        (yielded_of result) image.new }
{
    compiler::compile(program, schedule, &mut image[..])
}

// Joins parts, whose texts lie in one lent buffer, and links between them: writes their image and its tail to the start of
// `image`, and yields how many bytes these are. A part is four numbers: start and length of its program and of its schedule;
// one to three numbers after the last whole part are not looked at. A link is four bytes: part, IN, part, signal.
pub fn join(
    texts: &[u8],
    numbers: &[usize],
    links: &[u8],
    image: &mut [u8],
) -> Result<usize, JoinFault>
    ensures answer { joined_of result ≡
        (join_of texts.now numbers.now links.now image.old).answer }
    ensures left { image.new ≡
        (join_of texts.now numbers.now links.now image.old).left }
    ensures part { part_in result ≡ part_named texts.now numbers.now }
{
    join::join(texts, numbers, links, &mut image[..])
}

// Tells what an accepted program and schedule need: the length of their image, that with its tail, the highest stack use of any
// signal, and in `counts` the commands of each cycle.
pub fn report(program: &[u8], schedule: &[u8], counts: &mut [u32; 240]) -> Result<Sizes, Fault>
    ensures { Does
        (report_of program.now schedule.now counts.old)
        (reported_of result) counts.new }
{
    report::report(program, schedule, counts)
}

// Puts position 0 and every signal's initial word into the state.
pub fn reset(image: &[u8], state: &mut [i32]) -> Result<(), Fault>
    ensures { Does (reset_of image.now state.old) (ran_of result) state.new }
{
    machine::reset(image, &mut state[..])
}

// Runs one cycle: the list of the state's position, and then the position moves on. Yields how many commands it ran.
pub fn cycle(image: &[u8], state: &mut [i32], samples: &[i32]) -> Result<u32, Fault>
    ensures { Does
        (cycle_of image.now state.old samples.now)
        (cycled_of result) state.new }
{
    machine::cycle(image, &mut state[..], samples)
}

// How long the tail of an image is, 0 for an image without one; or the refusal.
pub fn tail_length(image: &[u8]) -> Result<usize, Fault>
    ensures { yielded_of result ≡ length_of_tail (tail_in image.now) }
{
    image_valid::tail_length(image)
}

// The tail of an image: a stretch of what is lent, empty for an image without one and where `tail_length` refuses.
pub fn tail<'a>(image: &'a [u8]) -> &'a [u8]
    ensures { result.now ≡ stretch_in (tail_in image.now) }
{
    image_valid::tail(image)
}

// Rewrites a program text of the earlier rule, with a sampling factor of 1, to the start of `result`, and yields its new length.
pub fn convert(program: &[u8], res: &mut [u8]) -> Result<usize, Fault>
    ensures { Does (convert_of program.now res.old) (yielded_of result) res.new }
{
    text_convert::convert(program, &mut res[..])
}

// Lists where one job may go: each signal and phase, two bytes, such that the pair with only that phase changed and the same PUT
// order is accepted and settles every open read as before; as many whole entries as the list has space for. Yields how many there
// are in all.
pub fn moves(program: &[u8], schedule: &[u8], list: &mut [u8]) -> Result<usize, Fault>
    ensures { Does
        (moves_of program.now schedule.now list.old)
        (yielded_of result) list.new }
{
    moves::moves(program, schedule, &mut list[..])
}

// Marks by 1 each signal of an accepted program and schedule that reads an input, by itself or through other signals, and by 0
// every other of 64.
pub fn dependents(
    program: &[u8],
    schedule: &[u8],
    input: usize,
    marks: &mut [u8; 64],
) -> Result<(), Fault>
    ensures { Does
        (dependents_of program.now schedule.now input marks.old)
        (ran_of result) marks.new }
{
    dependents::dependents(program, schedule, input, marks)
}

// Assembles a text in words to the start of `bytes`, and yields how many bytes it is.
pub fn assemble(text: &[u8], bytes: &mut [u8]) -> Result<usize, Fault>
    ensures { Does (assemble_of text.now bytes.old) (yielded_of result) bytes.new }
{
    text_assemble::assemble(text, &mut bytes[..])
}

// Lists a program, a schedule or a script in words to the start of `text`, and yields how long the listing is.
pub fn list(bytes: &[u8], text: &mut [u8]) -> Result<usize, Fault>
    ensures { Does (listing_of bytes.now text.old) (yielded_of result) text.new }
{
    text_list::list(bytes, &mut text[..])
}

// What a call answers as one number.
fn code(answer: Result<usize, Fault>) -> u64
    ensures { result ≡ code_number (yielded_of answer) }
{
    match answer {
        Ok(n) => n as u64,
        Err(fault) => u64::from(fault.number) * 4294967296 + (fault.place as u64) % 4294967296,
    }
}

// The same calls for a C caller (include/larderlate.h).
pub fn larderlate_compile(program: &[u8], schedule: &[u8], image: &mut [u8]) -> u64
    ensures { Tells
        (compile_of program.now schedule.now image.old)
        result image.new }
{
    let compiled = compile(program, schedule, &mut image[..]);
    code(compiled)
}

// The part that a refusal names stands behind a pointer. The header's larderlate_join lends it whole parts.
pub fn larderlate_join_numbers(
    texts: &[u8],
    numbers: &[usize],
    links: &[u8],
    image: &mut [u8],
    part: &mut usize,
) -> u64
    ensures answer { result ≡ code_number
        (join_of texts.now numbers.now links.now image.old).answer }
    ensures left { image.new ≡
        (join_of texts.now numbers.now links.now image.old).left }
    ensures named { part.new ≡
        part_number part.old (part_named texts.now numbers.now) }
{
    let joined = join(texts, numbers, links, &mut image[..]);
    if let Err(JoinFault { part: Some(k), .. }) = joined {
        *part = k;
    }
    code(joined.map_err(|e| e.fault))
}

pub fn larderlate_report(
    program: &[u8],
    schedule: &[u8],
    counts: &mut [u32; 240],
    written: &mut usize,
    stack: &mut usize,
) -> u64
    ensures answer { result ≡ code_number (length_in (report_of program.now schedule.now counts.old).answer) }
    ensures left { counts.new ≡
        (report_of program.now schedule.now counts.old).left }
    ensures whole { written.new ≡
        written_in written.old
        (report_of program.now schedule.now counts.old).answer }
    ensures height { stack.new ≡
        stack_in stack.old (report_of program.now schedule.now counts.old).answer }
{
    let reported = report(program, schedule, counts);
    if let Ok(sizes) = reported {
        *written = sizes.written;
        *stack = sizes.stack;
    }
    code(reported.map(|sizes| sizes.length))
}

pub fn larderlate_reset(image: &[u8], state: &mut [i32]) -> u64
    ensures { Tells (reset_of image.now state.old) result state.new }
{
    let ran = reset(image, &mut state[..]);
    code(ran.map(|()| 0))
}

pub fn larderlate_cycle(image: &[u8], state: &mut [i32], samples: &[i32]) -> u64
    ensures { Tells (cycle_of image.now state.old samples.now) result state.new }
{
    let cycled = cycle(image, &mut state[..], samples);
    code(cycled.map(|n| n as usize))
}

// Where the tail starts, behind a pointer, and how long it is.
pub fn larderlate_tail(image: &[u8], start: &mut usize) -> u64
    ensures answer { result ≡ code_number (length_of_tail (tail_in image.now)) }
    ensures place { start.new ≡ start_in start.old image.now (tail_in image.now) }
{
    let length = tail_length(image);
    if let Ok(n) = length {
        *start = image.len() - n;
    }
    code(length)
}

pub fn larderlate_convert(program: &[u8], res: &mut [u8]) -> u64
    ensures { Tells (convert_of program.now res.old) result res.new }
{
    let converted = convert(program, &mut res[..]);
    code(converted)
}

pub fn larderlate_moves(program: &[u8], schedule: &[u8], list: &mut [u8]) -> u64
    ensures { Tells (moves_of program.now schedule.now list.old) result list.new }
{
    let listed = moves(program, schedule, &mut list[..]);
    code(listed)
}

pub fn larderlate_dependents(
    program: &[u8],
    schedule: &[u8],
    input: usize,
    marks: &mut [u8; 64],
) -> u64
    ensures { Tells
        (dependents_of program.now schedule.now input marks.old)
        result marks.new }
{
    let ran = dependents(program, schedule, input, marks);
    code(ran.map(|()| 0))
}

pub fn larderlate_assemble(text: &[u8], bytes: &mut [u8]) -> u64
    ensures { Tells (assemble_of text.now bytes.old) result bytes.new }
{
    let assembled = assemble(text, &mut bytes[..]);
    code(assembled)
}

pub fn larderlate_list(bytes: &[u8], text: &mut [u8]) -> u64
    ensures { Tells (listing_of bytes.now text.old) result text.new }
{
    let listed = list(bytes, &mut text[..]);
    code(listed)
}

// The board's calls. The record is an array of 17 numbers that the caller keeps (crate `board`); a refused call and an idle
// turn leave it as it was.
pub fn larderlate_board_new(words: &mut [usize; 17])
    ensures { words.new ≡ new_words }
{
    *words = board::new_record();
}

pub fn larderlate_board_load(
    words: &mut [usize; 17],
    images: &[u8],
    state: &mut [i32],
    place: usize,
    start: usize,
    size: usize,
) -> u64
    ensures answer { result ≡ code_number (load_of (board_of words.old) images.now state.old
        place start size).answer }
    ensures kept { words.new ≡
        load_record words.old place start size
        (load_of (board_of words.old) images.now state.old place start size).answer }
    ensures left { state.new ≡ (load_of (board_of words.old) images.now state.old
        place start size).left }
{
    let ran = board::load(words, images, &mut state[..], place, start, size);
    code(ran.map(|()| 0))
}

pub fn larderlate_board_mark(words: &mut [usize; 17], place: usize) -> u64
    ensures answer { result ≡ code_number (mark_place_of (board_of words.old) place).answer }
    ensures kept { words.new ≡
        mark_record words.old place (mark_place_of (board_of words.old) place).answer }
{
    let ran = board::mark(words, place);
    code(ran.map(|()| 0))
}

pub fn larderlate_board_turn(
    words: &mut [usize; 17],
    images: &[u8],
    state: &mut [i32],
    samples: &[i32],
    outcome: &mut [u32; 3],
) -> u64
    ensures answer { result ≡ code_number (turn_done (turn_of (board_of words.old) images.now state.old
        samples.now).answer) }
    ensures kept { words.new ≡
        turn_record words.old (turn_of (board_of words.old) images.now state.old
        samples.now).answer }
    ensures left { state.new ≡ (turn_of (board_of words.old) images.now state.old
        samples.now).left }
    ensures told { outcome.new ≡
        outcome_in outcome.old (turn_of (board_of words.old) images.now state.old
        samples.now).answer }
{
    let turned = board::turn(words, images, &mut state[..], samples);
    board::tell_turn(turned, outcome);
    code(turned.map(|_| 0))
}
