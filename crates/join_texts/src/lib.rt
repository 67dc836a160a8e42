// The texts of the parts of a join, before all else: how long they are, how many, and whether they lie in their lent buffer.
#![tactic(auto)]

ghost use Rattle.std.specs.Prelude.{◌≡◌, ◌+◌, ◌≤◌, ◌<◌, leb, length, get_or};
ghost use Rattle.model.specs.Rules.Join.{parts_in, texts_at, program_total, are_lent, lent, program_text, schedule_text};
ghost use Rattle.model.specs.Rules.Machine.{stretch};
ghost use Rattle.model.specs.Rules.Outcome.{accepted};
ghost use Rattle.model.specs.Rules.Search.{all_below};
ghost use Rattle.basics.specs.Judgement.{judgement_of};

use model::{Fault, Refusal};

// The stretch of the texts whose start and length stand at `at`.
fn stretch_at<'a>(texts: &'a [u8], numbers: &[usize], at: usize) -> &'a [u8]
    requires { (at + 1 < length numbers.now)
        × (get_or numbers.now at 0 + get_or numbers.now (at + 1) 0 ≤ length texts.now) }
    ensures { result.now ≡
        stretch texts.now (get_or numbers.now at 0) (get_or numbers.now at 0 + get_or numbers.now (at + 1) 0) }
{
    let start = numbers[at];
    let end = start + numbers[at + 1];
    &texts[start..end]
}

// The program text of part k, and its schedule text.
pub fn program_of<'a>(texts: &'a [u8], numbers: &[usize], k: usize) -> &'a [u8]
    requires { (k < parts_in numbers.now) × (lent texts.now numbers.now ≡ accepted tt) }
    ensures { result.now ≡ program_text texts.now (texts_at numbers.now k) }
{
    stretch_at(texts, numbers, 4 * k)
}

pub fn schedule_of<'a>(texts: &'a [u8], numbers: &[usize], k: usize) -> &'a [u8]
    requires { (k < parts_in numbers.now) × (lent texts.now numbers.now ≡ accepted tt) }
    ensures { result.now ≡ schedule_text texts.now (texts_at numbers.now k) }
{
    stretch_at(texts, numbers, 4 * k + 2)
}

// Whether the program texts together have at most 8,192 bytes.
fn is_short(numbers: &[usize]) -> bool
    ensures { result ≡ leb (program_total numbers.now) 8192 }
{
    let parts = numbers.len() / 4;
    let mut left: usize = 8192;
    for k in 0..parts {
        let at = 4 * k + 1;
        let size = numbers[at];
        if left < size {
            return false;
        }
        left = left - size;
    }
    true
}

// Whether both texts of part k lie in the buffer.
fn are_lent(texts: &[u8], numbers: &[usize], k: usize) -> bool
    requires { k < parts_in numbers.now }
    ensures { result ≡ are_lent texts.now (texts_at numbers.now k) }
{
    let at = 4 * k;
    let second = at + 1;
    let third = at + 2;
    let fourth = at + 3;
    if !basics::is_inside(numbers[at], numbers[second], texts.len()) {
        return false;
    }
    basics::is_inside(numbers[third], numbers[fourth], texts.len())
}

// Whether the texts of all parts do.
fn all_lent(texts: &[u8], numbers: &[usize]) -> bool
    ensures { result ≡ all_below (parts_in numbers.now)
        (λ k. are_lent texts.now (texts_at numbers.now k)) }
{
    let parts = numbers.len() / 4;
    for k in 0..parts {
        if !are_lent(texts, numbers, k) {
            return false;
        }
    }
    true
}

// 1, 4 and 27.
pub fn check_texts(texts: &[u8], numbers: &[usize]) -> Result<(), Fault>
    ensures { result ≡ judgement_of (lent texts.now numbers.now) }
{
    if !is_short(numbers) {
        return basics::refuse(Refusal::TextTooLong, 0);
    }
    if 8 < numbers.len() / 4 {
        return basics::refuse(Refusal::OverABound, 0);
    }
    if !all_lent(texts, numbers) {
        return basics::refuse(Refusal::StretchOutside, 0);
    }
    Ok(())
}
