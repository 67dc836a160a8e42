// What several crates share: numbers by their width, a choice, and the refusal.
#![tactic(auto)]

ghost use Rattle.std.specs.Prelude.{Err, cond, ◌≡◌, ◌+◌, ◌<◌, leb};
ghost use Rattle.model.specs.Rules.Refusal.{number_of};

use model::{Fault, Refusal};

// The refusal of a number at a place, whatever was to be answered.
pub fn refuse_number<T>(number: u8, place: usize) -> Result<T, Fault>
    ensures { result ≡ Err (record { number = number; place = place }) }
{
    Err(Fault { number, place })
}

// The same of a refusal by its name.
pub fn refuse<T>(refusal: Refusal, place: usize) -> Result<T, Fault>
    ensures { result ≡ Err (record { number = number_of refusal; place = place }) }
{
    refuse_number(refusal as u8, place)
}

// A byte as a number.
pub fn from_byte(byte: u8) -> usize
    ensures { (result ≡ byte) × (result < 256) }
{
    byte as usize
}

// An entry of a table as a number.
pub fn from_entry(entry: u16) -> usize
    ensures { (result ≡ entry) × (result < 65536) }
{
    entry as usize
}

// A number that fits a byte.
pub fn to_byte(x: usize) -> u8
    requires { x < 256 }
    ensures { result ≡ x }
{
    x as u8
}

// One of two bytes: a choice that takes no branch.
pub fn select(first: bool, a: u8, b: u8) -> u8
    ensures { result ≡ cond first a b }
{
    if first { a } else { b }
}

// Whether a stretch lies in a buffer of this length.
pub fn is_inside(start: usize, size: usize, buffer: usize) -> bool
    ensures { result ≡ leb (start + size) buffer }
{
    if buffer < start {
        return false;
    }
    size <= buffer - start
}
