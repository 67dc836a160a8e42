// The calls of crate larderlate as a static library for a C caller (include/larderlate.h). Each export only hands on to the function of
// its name there, and has its contract.
#![tactic(auto)]

ghost use Rattle.std.specs.Prelude.{◌≡◌};
ghost use Rattle.model.specs.Rules.Compile.{compile_of};
ghost use Rattle.model.specs.Rules.Outcome.{yielded_of, refused};
ghost use Rattle.model.specs.Rules.Dependents.{dependents_of};
ghost use Rattle.model.specs.Rules.Join.{joined_of, part_in, join_of, part_named};
ghost use Rattle.model.specs.Rules.Machine.{Does, ran_of, cycled_of, reset_of, cycle_of};
ghost use Rattle.model.specs.Rules.Moves.{moves_of};
ghost use Rattle.model.specs.Rules.Report.{reported_of, report_of};
ghost use Rattle.model.specs.Rules.Rewrite.{convert_of};
ghost use Rattle.model.specs.Rules.Tail.{tail_in, length_of_tail, stretch_in};
ghost use Rattle.model.specs.Rules.TextForm.{assemble_of, listing_of};
ghost use Rattle.board.specs.Board.{load_of, mark_place_of, turn_of, turned_of};
ghost use Rattle.board.specs.Record.{board_of, new_words, load_record, mark_record, turn_record, turn_done, outcome_in};
ghost use Rattle.larderlate.specs.Code.{code_number, Tells, part_number, length_in, written_in, stack_in, start_in};

#[unsafe(no_mangle)]
pub extern "C" fn larderlate_compile(program: &[u8], schedule: &[u8], image: &mut [u8]) -> u64
    ensures { Tells
        (compile_of program.now schedule.now image.old)
        result image.new }
{
    larderlate::larderlate_compile(program, schedule, &mut image[..])
}

#[unsafe(no_mangle)]
pub extern "C" fn larderlate_join_numbers(
    texts: &[u8],
    numbers: &[usize],
    links: &[u8],
    image: &mut [u8],
    part: &mut usize,
) -> u64
    ensures answer { result ≡ code_number
        (join_of texts.now numbers.now links.now image.old).answer }
    ensures left { image.new ≡
        (join_of texts.now numbers.now links.now image.old).left }
    ensures named { part.new ≡
        part_number part.old (part_named texts.now numbers.now) }
{
    larderlate::larderlate_join_numbers(texts, numbers, links, &mut image[..], part)
}

#[unsafe(no_mangle)]
pub extern "C" fn larderlate_report(
    program: &[u8],
    schedule: &[u8],
    counts: &mut [u32; 240],
    written: &mut usize,
    stack: &mut usize,
) -> u64
    ensures answer { result ≡ code_number (length_in (report_of program.now schedule.now counts.old).answer) }
    ensures left { counts.new ≡
        (report_of program.now schedule.now counts.old).left }
    ensures whole { written.new ≡
        written_in written.old
        (report_of program.now schedule.now counts.old).answer }
    ensures height { stack.new ≡
        stack_in stack.old (report_of program.now schedule.now counts.old).answer }
{
    larderlate::larderlate_report(program, schedule, counts, written, stack)
}

#[unsafe(no_mangle)]
pub extern "C" fn larderlate_reset(image: &[u8], state: &mut [i32]) -> u64
    ensures { Tells (reset_of image.now state.old) result state.new }
{
    larderlate::larderlate_reset(image, &mut state[..])
}

#[unsafe(no_mangle)]
pub extern "C" fn larderlate_cycle(image: &[u8], state: &mut [i32], samples: &[i32]) -> u64
    ensures { Tells (cycle_of image.now state.old samples.now) result state.new }
{
    larderlate::larderlate_cycle(image, &mut state[..], samples)
}

#[unsafe(no_mangle)]
pub extern "C" fn larderlate_tail(image: &[u8], start: &mut usize) -> u64
    ensures answer { result ≡ code_number (length_of_tail (tail_in image.now)) }
    ensures place { start.new ≡ start_in start.old image.now (tail_in image.now) }
{
    larderlate::larderlate_tail(image, start)
}

#[unsafe(no_mangle)]
pub extern "C" fn larderlate_convert(program: &[u8], res: &mut [u8]) -> u64
    ensures { Tells (convert_of program.now res.old) result res.new }
{
    larderlate::larderlate_convert(program, &mut res[..])
}

#[unsafe(no_mangle)]
pub extern "C" fn larderlate_moves(program: &[u8], schedule: &[u8], list: &mut [u8]) -> u64
    ensures { Tells (moves_of program.now schedule.now list.old) result list.new }
{
    larderlate::larderlate_moves(program, schedule, &mut list[..])
}

#[unsafe(no_mangle)]
pub extern "C" fn larderlate_dependents(
    program: &[u8],
    schedule: &[u8],
    input: usize,
    marks: &mut [u8; 64],
) -> u64
    ensures { Tells
        (dependents_of program.now schedule.now input marks.old)
        result marks.new }
{
    larderlate::larderlate_dependents(program, schedule, input, marks)
}

#[unsafe(no_mangle)]
pub extern "C" fn larderlate_assemble(text: &[u8], bytes: &mut [u8]) -> u64
    ensures { Tells (assemble_of text.now bytes.old) result bytes.new }
{
    larderlate::larderlate_assemble(text, &mut bytes[..])
}

#[unsafe(no_mangle)]
pub extern "C" fn larderlate_list(bytes: &[u8], text: &mut [u8]) -> u64
    ensures { Tells (listing_of bytes.now text.old) result text.new }
{
    larderlate::larderlate_list(bytes, &mut text[..])
}

#[unsafe(no_mangle)]
pub extern "C" fn larderlate_board_new(words: &mut [usize; 17])
    ensures { words.new ≡ new_words }
{
    larderlate::larderlate_board_new(words)
}

#[unsafe(no_mangle)]
pub extern "C" fn larderlate_board_load(
    words: &mut [usize; 17],
    images: &[u8],
    state: &mut [i32],
    place: usize,
    start: usize,
    size: usize,
) -> u64
    ensures answer { result ≡ code_number (load_of (board_of words.old) images.now state.old
        place start size).answer }
    ensures kept { words.new ≡
        load_record words.old place start size
        (load_of (board_of words.old) images.now state.old place start size).answer }
    ensures left { state.new ≡ (load_of (board_of words.old) images.now state.old
        place start size).left }
{
    larderlate::larderlate_board_load(words, images, &mut state[..], place, start, size)
}

#[unsafe(no_mangle)]
pub extern "C" fn larderlate_board_mark(words: &mut [usize; 17], place: usize) -> u64
    ensures answer { result ≡ code_number (mark_place_of (board_of words.old) place).answer }
    ensures kept { words.new ≡
        mark_record words.old place (mark_place_of (board_of words.old) place).answer }
{
    larderlate::larderlate_board_mark(words, place)
}

#[unsafe(no_mangle)]
pub extern "C" fn larderlate_board_turn(
    words: &mut [usize; 17],
    images: &[u8],
    state: &mut [i32],
    samples: &[i32],
    outcome: &mut [u32; 3],
) -> u64
    ensures answer { result ≡ code_number (turn_done (turn_of (board_of words.old) images.now state.old
        samples.now).answer) }
    ensures kept { words.new ≡
        turn_record words.old (turn_of (board_of words.old) images.now state.old
        samples.now).answer }
    ensures left { state.new ≡ (turn_of (board_of words.old) images.now state.old
        samples.now).left }
    ensures told { outcome.new ≡
        outcome_in outcome.old (turn_of (board_of words.old) images.now state.old
        samples.now).answer }
{
    larderlate::larderlate_board_turn(words, images, &mut state[..], samples, outcome)
}
