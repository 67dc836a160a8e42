// Four programs on one board. Each place has a stretch of the lent images, its own 65 of 260 lent words and 64 of 256 lent
// samples, in place order. The record is an array of 17 numbers that the caller keeps: for each place its flags (1 loaded, 2
// due), start, size and count, in place order; then the place last taken. Any numbers are a record. A call that is not refused
// writes the numbers of its place, and a turn the place last taken; a refused call changes nothing, the record included.
#![tactic(auto)]

ghost use Rattle.std.specs.Prelude.{◌≡◌, true, false, ◌+◌, ◌≤◌, ◌<◌, leb, length, IfOk, IfErr};
ghost use Rattle.model.specs.Rules.Machine.{Does, stretch, ran_of, cycled_of};
ghost use Rattle.model.specs.Rules.Outcome.{fault};
ghost use Rattle.board.specs.Board.{count_up, place_words, with_words, reset_in, cycle_in, run_in};
ghost use Rattle.board.specs.Board.{next_due, load_of, mark_place_of, turn_of, turned_of};
ghost use Rattle.board.specs.Record.{
  loaded_in,
  due_in,
  board_of,
  new_words,
  first_due,
  count_in,
  load_record,
  mark_record,
  turn_record,
};
ghost use Rattle.board.specs.Record.{run_outcome, outcome_in};

use model::{Fault, Refusal};

const PLACES: usize = 4;

const PLACE_WORDS: usize = 65;

const PLACE_SAMPLES: usize = 64;

const WORDS: usize = 260;

const SAMPLES: usize = 256;

// The place that a turn took, and what its run answers.
#[derive(Clone, Copy)]
pub struct Taken {
    pub place: u8,
    pub run: Result<u32, Fault>,
}

// One turn more, held at the maximum.
fn count_up(n: u32) -> u32
    ensures { result ≡ count_up n }
{
    n.saturating_add(1)
}

// The stretch of the images that a place has; or the refusal where it lies outside.
fn stretch_of<'a>(images: &'a [u8], start: usize, size: usize) -> Result<&'a [u8], Fault>
    ensures ok { IfOk result (λ lent. (leb (start + size) (length images.now) ≡ true) ×
        (lent.now ≡ stretch images.now start (start + size))) }
    ensures err { IfErr result (λ f. (leb (start + size) (length images.now) ≡ false) × (f ≡ fault 27 0)) }
{
    if !basics::is_inside(start, size, images.len()) {
        return basics::refuse(Refusal::StretchOutside, 0);
    }
    Ok(&images[start..start + size])
}

// Resets a place's words by the image in its stretch.
fn reset_place(images: &[u8], start: usize, size: usize, words: &mut [i32]) -> Result<(), Fault>
    ensures { Does (reset_in images.now start size words.old) (ran_of result) words.new }
{
    let lent = stretch_of(images, start, size)?;
    machine::reset(lent, &mut words[..])
}

// Runs one cycle of a place. Its words and its samples are enough for any image.
fn cycle_place(
    images: &[u8],
    start: usize,
    size: usize,
    words: &mut [i32],
    samples: &[i32],
) -> Result<u32, Fault>
    requires { (65 ≤ length words.old) × (64 ≤ length samples.now) }
    ensures { Does
        (cycle_in images.now start size words.old samples.now)
        (cycled_of result) words.new }
{
    let lent = stretch_of(images, start, size)?;
    let image = image_valid::image_in(lent);
    if !image_valid::well_formed(image) {
        return basics::refuse(Refusal::ImageNotWellFormed, 0);
    }
    if !machine::is_positioned(image, &words[..]) {
        return basics::refuse(Refusal::Position, 0);
    }
    let total = machine::run_cycle(image, &mut words[..], samples);
    Ok(total)
}

// Resets a place's own words.
fn load_place(
    images: &[u8],
    start: usize,
    size: usize,
    state: &mut [i32],
    place: usize,
) -> Result<(), Fault>
    requires { (place < 4) × (260 ≤ length state.old) }
    ensures answer { ran_of result ≡ (reset_in images.now start size (place_words place state.old)).answer }
    ensures left { state.new ≡
        with_words place state.old
        (reset_in images.now start size (place_words place state.old)).left }
{
    let from = PLACE_WORDS * place;
    let to = from + PLACE_WORDS;
    reset_place(images, start, size, &mut state[from..to])
}

// Runs one cycle of a place on its own words and samples.
fn run_place(
    images: &[u8],
    start: usize,
    size: usize,
    state: &mut [i32],
    samples: &[i32],
    place: usize,
) -> Result<u32, Fault>
    requires { (place < 4) × (260 ≤ length state.old) × (256 ≤ length samples.now) }
    ensures answer { cycled_of result ≡ (run_in images.now start size state.old
        samples.now place).answer }
    ensures left { state.new ≡
        with_words place state.old
        (run_in images.now start size state.old samples.now place).left }
{
    let from = PLACE_WORDS * place;
    let to = from + PLACE_WORDS;
    let first = PLACE_SAMPLES * place;
    let end = first + PLACE_SAMPLES;
    cycle_place(
        images,
        start,
        size,
        &mut state[from..to],
        &samples[first..end],
    )
}

// The record with nothing loaded or due.
pub fn new_record() -> [usize; 17]
    ensures { result ≡ new_words }
{
    [0, 0, 0, 0, 0, 0, 0, 0, 0, 0, 0, 0, 0, 0, 0, 0, 3]
}

// Whether the flags of a place have it loaded.
fn is_loaded(flags: usize) -> bool
    ensures { result ≡ loaded_in flags }
{
    flags % 2 == 1
}

// Whether the flags of a place have it due.
fn is_due(flags: usize) -> bool
    ensures { result ≡ due_in flags }
{
    flags / 2 % 2 == 1
}

// One turn more in the number of a count, held at its maximum.
fn counted(count: usize) -> usize
    ensures { result ≡ count_in count }
{
    count_up((count % 4294967296) as u32) as usize
}

// The first due place from one on. The loop goes over all four, so that unrolled each has its numbers at fixed offsets: a turn is
// as fast as its cycle only if no load waits for the place.
fn first_due(words: &[usize; 17], from: usize) -> Option<usize>
    ensures { result ≡ first_due (board_of words.now) from }
{
    for place in 0..PLACES {
        if from <= place {
            if is_due(words[4 * place]) {
                return Some(place);
            }
        }
    }
    None
}

// The next due place in cyclic order after the one last taken: those after it, then all from place 0 on. A match is plainer than
// `or_else`, whose closure would need a clause of its own.
fn next_due(words: &[usize; 17]) -> Option<usize>
    ensures { result ≡ next_due (board_of words.now) }
{
    let after = words[16] % PLACES + 1;
    match first_due(words, after) {
        Some(place) => Some(place),
        None => first_due(words, 0),
    }
}

// Loads a place: resets it, and clears its due mark.
pub fn load(
    words: &mut [usize; 17],
    images: &[u8],
    state: &mut [i32],
    place: usize,
    start: usize,
    size: usize,
) -> Result<(), Fault>
    ensures answer { ran_of result ≡ (load_of (board_of words.old) images.now state.old
        place start size).answer }
    ensures kept { words.new ≡
        load_record words.old place start size
        (load_of (board_of words.old) images.now state.old place start size).answer }
    ensures left { state.new ≡ (load_of (board_of words.old) images.now state.old
        place start size).left }
{
    if PLACES <= place {
        return basics::refuse(Refusal::NoSuchPlace, 0);
    }
    if state.len() < WORDS {
        return basics::refuse(Refusal::StateShort, 0);
    }
    load_place(images, start, size, &mut state[..], place)?;
    let at = 4 * place;
    words[at] = 1;
    words[at + 1] = start;
    words[at + 2] = size;
    words[at + 3] = 0;
    Ok(())
}

// Marks a loaded place due.
pub fn mark(words: &mut [usize; 17], place: usize) -> Result<(), Fault>
    ensures answer { ran_of result ≡ (mark_place_of (board_of words.old) place).answer }
    ensures kept { words.new ≡
        mark_record words.old place (mark_place_of (board_of words.old) place).answer }
{
    if PLACES <= place {
        return basics::refuse(Refusal::NoSuchPlace, 0);
    }
    let at = 4 * place;
    if !is_loaded(words[at]) {
        return basics::refuse(Refusal::NeverLoaded, 0);
    }
    words[at] = 3;
    Ok(())
}

// Runs the next due place, if there is one, and clears its mark. Where nothing is due it takes no place.
pub fn turn(
    words: &mut [usize; 17],
    images: &[u8],
    state: &mut [i32],
    samples: &[i32],
) -> Result<Option<Taken>, Fault>
    ensures answer { turned_of result ≡ (turn_of (board_of words.old) images.now state.old
        samples.now).answer }
    ensures kept { words.new ≡
        turn_record words.old (turn_of (board_of words.old) images.now state.old
        samples.now).answer }
    ensures left { state.new ≡ (turn_of (board_of words.old) images.now state.old
        samples.now).left }
{
    if state.len() < WORDS {
        return basics::refuse(Refusal::StateShort, 0);
    }
    if samples.len() < SAMPLES {
        return basics::refuse(Refusal::SamplesShort, 0);
    }
    let Some(place) = next_due(words) else {
        return Ok(None);
    };
    let at = 4 * place;
    let loaded = words[at] % 2;
    let start = words[at + 1];
    let size = words[at + 2];
    let count = counted(words[at + 3]);
    words[at] = loaded;
    words[at + 3] = count;
    words[16] = place;
    let run = run_place(images, start, size, &mut state[..], samples, place);
    Ok(Some(Taken {
        place: place as u8,
        run,
    }))
}

// The outcome of a turn that took a place: 1 or 2, the place, and the commands that it ran or the number of the run's refusal.
fn outcome_of(place: u8, run: Result<u32, Fault>) -> [u32; 3]
    ensures { result ≡ run_outcome place (cycled_of run) }
{
    let at = place as u32;
    match run {
        Ok(n) => [1, at, n],
        Err(fault) => [2, at, fault.number as u32],
    }
}

// Tells a turn's answer as three numbers. A refused turn leaves what was there.
pub fn tell_turn(turned: Result<Option<Taken>, Fault>, outcome: &mut [u32; 3])
    ensures { outcome.new ≡ outcome_in outcome.old (turned_of turned) }
{
    match turned {
        Ok(None) => *outcome = [0, 0, 0],
        Ok(Some(taken)) => *outcome = outcome_of(taken.place, taken.run),
        Err(_) => {}
    }
}
