// Reset and cycle, on any image, with its tail or without, state and samples. A refused call changes nothing.
#![tactic(auto)]

ghost use Rattle.std.specs.Prelude.{◌≡◌, true, ℕ, ◌<◌, ◌≤◌, pos, length, get_or, IfOk, IfErr};
ghost use Rattle.model.specs.Rules.Machine.{
  Does,
  hyper_of,
  count_of,
  well_formed,
  is_position,
  list_of,
  run_signals,
  count_signals,
  next_position,
  reset_words,
};
ghost use Rattle.model.specs.Rules.Machine.{cycle_words, cycle_count, ran_of, cycled_of, reset_of, cycle_of};
ghost use Rattle.machine.specs.Runnable.{table_in, Ready, Unready, Runnable, RefusesCycle};
ghost use Rattle.image_valid.specs.Lends.{Lends};
ghost use Rattle.model.specs.Rules.Word.{byte_at};

use model::{Fault, Refusal};

// The run list of cycle c: a stretch of the lent image.
pub fn run_list(image: &[u8], c: usize) -> &[u8]
    requires { (well_formed image.now ≡ true) × (c < hyper_of image.now) }
    ensures { result.now ≡ list_of image.now c }
{
    let n = basics::from_byte(image[1]);
    let from = image_valid::list_offset(image, n, c);
    let to = image_valid::list_offset(image, n, c + 1);
    &image[from..to]
}

// The table, from its count byte to the code: a stretch of the lent image.
fn table_of(image: &[u8]) -> &[u8]
    requires { well_formed image.now ≡ true }
    ensures { result.now ≡ table_in image.now }
{
    let h = basics::from_byte(image[0]);
    let n = basics::from_byte(image[1]);
    let from = image_valid::table_offset(image, n, h);
    let to = image_valid::code_offset(image, n, 0);
    &image[from..to]
}

// Runs the signals of a list in order, with the table of the image: the word of each is stored. Yields how many commands have
// run.
fn run_signals(
    list: &[u8],
    image: &[u8],
    table: &[u8],
    n: u8,
    state: &mut [i32],
    samples: &[i32],
) -> u32
    requires image_value { (well_formed image.now ≡ true) × (n ≡ count_of image.now) × (table.now ≡ table_in image.now) }
    requires by_index { (k : ℕ) → k < length list.now → byte_at list.now k < n }
    requires n_in_bounds { (n < length state.old) × (n ≤ length samples.now) × (length image.now ≤ 65535) ×
        (length list.now ≤ length image.now) }
    ensures count { result ≡ count_signals image.now list.now }
    ensures left { state.new ≡ run_signals image.now list.now samples.now
        state.old }
{
    let count = basics::from_byte(n);
    let mut total: u32 = 0;
    for x in list {
        let own = basics::from_byte(*x);
        let from = image_valid::code_offset(image, count, own);
        let to = image_valid::code_offset(image, count, own + 1);
        let run = run_code::run_code(&image[from..to], table, n, *x, &state[..], samples);
        state[own + 1] = run.word;
        total += run.count;
    }
    total
}

// The position after c, as a word.
fn next_position(h: usize, c: usize) -> i32
    requires { (c < h) × (h ≤ 240) }
    ensures { result ≡ pos (next_position h c) }
{
    if c + 1 == h { 0 } else { (c + 1) as i32 }
}

// 0 in word 0 and each signal's initial word after it.
fn initial_words(image: &[u8], n: usize, state: &mut [i32])
    requires { (well_formed image.now ≡ true) × (n ≡ count_of image.now) × (n < length state.old) }
    ensures { state.new ≡ reset_words image.now state.old }
{
    state[0] = 0;
    for x in 0..n {
        state[x + 1] = word::word_at(image, image_layout::record_at(x));
    }
}

// The image in what is lent, where it is well formed and the state has room for it; or the refusal of a reset and of a cycle.
fn image_for<'a>(lent: &'a [u8], state: &[i32]) -> Result<&'a [u8], Fault>
    ensures ok { IfOk result (λ image. Ready lent.now state.now image.now) }
    ensures err { IfErr result (Unready lent.now state.now) }
{
    let image = image_valid::image_in(lent);
    if !image_valid::well_formed(image) {
        return basics::refuse(Refusal::ImageNotWellFormed, 0);
    }
    if state.len() <= basics::from_byte(image[1]) {
        return basics::refuse(Refusal::StateShort, 0);
    }
    Ok(image)
}

// Puts a state into its first cycle.
pub fn reset(lent: &[u8], state: &mut [i32]) -> Result<(), Fault>
    ensures { Does (reset_of lent.now state.old) (ran_of result) state.new }
{
    let image = image_for(lent, &state[..])?;
    initial_words(image, basics::from_byte(image[1]), &mut state[..]);
    Ok(())
}

// Runs one cycle on an image that is known to be well formed and a state that is ready: nothing is left to refuse. Yields how
// many commands it ran.
pub fn run_cycle(image: &[u8], state: &mut [i32], samples: &[i32]) -> u32
    requires { Runnable image.now state.old samples.now }
    ensures count { result ≡ cycle_count image.now state.old }
    ensures left { state.new ≡ cycle_words image.now state.old samples.now }
{
    let h = basics::from_byte(image[0]);
    let n = image[1];
    let position = state[0];
    let c = position as usize;
    let table = table_of(image);
    let total = run_signals(run_list(image, c), image, table, n, &mut state[..], samples);
    let next = next_position(h, c);
    state[0] = next;
    total
}

// Whether a state stands in one of the image's cycles.
pub fn is_positioned(image: &[u8], state: &[i32]) -> bool
    requires { (well_formed image.now ≡ true) × (0 < length state.now) }
    ensures { result ≡ is_position (hyper_of image.now) (get_or state.now 0 (pos 0)) }
{
    let h = basics::from_byte(image[0]);
    let position = state[0];
    if position < 0 {
        return false;
    }
    let c = position as usize;
    c < h
}

// The image in what is lent, where one cycle can run on it; or the refusal, 20 to 23 in their order.
pub fn judge_cycle<'a>(lent: &'a [u8], state: &[i32], samples: &[i32]) -> Result<&'a [u8], Fault>
    ensures ok { IfOk result (λ image. Lends lent.now image.now × Runnable image.now state.now samples.now) }
    ensures err { IfErr result (RefusesCycle lent.now state.now samples.now) }
{
    let image = image_for(lent, state)?;
    if !is_positioned(image, state) {
        return basics::refuse(Refusal::Position, 0);
    }
    if samples.len() < basics::from_byte(image[1]) {
        return basics::refuse(Refusal::SamplesShort, 0);
    }
    Ok(image)
}

// Runs one cycle, which is a judgement and a run: the list of the state's position, and then the position moves on. Yields how
// many commands it ran.
pub fn cycle(lent: &[u8], state: &mut [i32], samples: &[i32]) -> Result<u32, Fault>
    ensures { Does
        (cycle_of lent.now state.old samples.now)
        (cycled_of result) state.new }
{
    let image = judge_cycle(lent, &state[..], samples)?;
    Ok(run_cycle(image, &mut state[..], samples))
}
