// The signed 32-bit words: their operators, their bits, and their bytes with the low byte first.
#![tactic(auto)]

ghost use Rattle.std.specs.Prelude.{◌≡◌, ◌+◌, ◌%◌, ◌^◌, ◌<◌, ◌≤◌, length};
ghost use Rattle.std.proofs.lemmas.List.Edits.{sets};
ghost use Rattle.model.specs.Rules.Word.{bits_of, word_of, nearest};
ghost use Rattle.model.specs.Rules.Word.{
  add_word,
  sub_word,
  mul_word,
  neg_word,
  less_word,
  same_word,
  min_word,
  max_word,
  if_word,
  binary_word,
};
ghost use Rattle.model.specs.Rules.Word.{two_at, four_at, word_at, two_bytes, word_bytes};
ghost use Rattle.word.specs.OfByte.{binary_of};

use model::Binary;

// The bits of a word, as a number.
pub fn bits(w: i32) -> u32
    ensures { result ≡ bits_of w }
{
    w.cast_unsigned()
}

// The word with these bits.
pub fn from_bits(u: u32) -> i32
    ensures { result ≡ word_of u }
{
    u.cast_signed()
}

// The word nearest to a number. A sum by `saturating_add` and a difference by `saturating_sub`: tried, slower.
fn nearest(x: i64) -> i32
    ensures { result ≡ nearest x }
{
    x.clamp(-2147483648, 2147483647) as i32
}

pub fn add(a: i32, b: i32) -> i32
    ensures { result ≡ add_word a b }
{
    nearest(i64::from(a) + i64::from(b))
}

pub fn sub(a: i32, b: i32) -> i32
    ensures { result ≡ sub_word a b }
{
    nearest(i64::from(a) - i64::from(b))
}

pub fn mul(a: i32, b: i32) -> i32
    ensures { result ≡ mul_word a b }
{
    a.saturating_mul(b)
}

pub fn neg(a: i32) -> i32
    ensures { result ≡ neg_word a }
{
    a.saturating_neg()
}

// 1 where a is below b, else 0.
pub fn less(a: i32, b: i32) -> i32
    ensures { result ≡ less_word a b }
{
    i32::from(a < b)
}

// 1 where a is b, else 0.
pub fn same(a: i32, b: i32) -> i32
    ensures { result ≡ same_word a b }
{
    i32::from(a == b)
}

pub fn least(a: i32, b: i32) -> i32
    ensures { result ≡ min_word a b }
{
    a.min(b)
}

pub fn greatest(a: i32, b: i32) -> i32
    ensures { result ≡ max_word a b }
{
    a.max(b)
}

// a, or b where c is 0.
pub fn choose(c: i32, a: i32, b: i32) -> i32
    ensures { result ≡ if_word c a b }
{
    if c == 0 { b } else { a }
}

// The operator of a byte from 30 to 36, in a text and in code.
pub fn binary_of(byte: u8) -> Binary
    ensures { result ≡ binary_of byte }
{
    match byte {
        0x30 => Binary::Add,
        0x31 => Binary::Sub,
        0x32 => Binary::Mul,
        0x33 => Binary::Less,
        0x34 => Binary::Same,
        0x35 => Binary::Min,
        _ => Binary::Max,
    }
}

// What an operator with two operands gives.
pub fn binary(operator: Binary, a: i32, b: i32) -> i32
    ensures { result ≡ binary_word operator a b }
{
    match operator {
        Binary::Add => add(a, b),
        Binary::Sub => sub(a, b),
        Binary::Mul => mul(a, b),
        Binary::Less => less(a, b),
        Binary::Same => same(a, b),
        Binary::Min => least(a, b),
        Binary::Max => greatest(a, b),
    }
}

// The number in the two bytes at `at`.
pub fn two_at(text: &[u8], at: usize) -> u16
    requires { at + 2 ≤ length text.now }
    ensures { result ≡ two_at text.now at }
{
    u16::from_le_bytes([text[at], text[at + 1]])
}

// The number in the four bytes at `at`.
pub fn four_at(text: &[u8], at: usize) -> u32
    requires { at + 4 ≤ length text.now }
    ensures { result ≡ four_at text.now at }
{
    u32::from_le_bytes([text[at], text[at + 1], text[at + 2], text[at + 3]])
}

// The word in the four bytes at `at`.
pub fn word_at(text: &[u8], at: usize) -> i32
    requires { at + 4 ≤ length text.now }
    ensures { result ≡ word_at text.now at }
{
    from_bits(four_at(text, at))
}

// Writes the low two bytes of a number.
pub fn put_two(out: &mut [u8], at: usize, n: usize)
    requires { at + 2 ≤ length out.old }
    ensures { out.new ≡ sets out.old at (two_bytes n) }
{
    out[at..at + 2].copy_from_slice(&((n % 65536) as u16).to_le_bytes());
}

// Writes the four bytes of a word.
pub fn put_word(out: &mut [u8], at: usize, w: i32)
    requires { at + 4 ≤ length out.old }
    ensures { out.new ≡ sets out.old at (word_bytes w) }
{
    out[at..at + 4].copy_from_slice(&w.to_le_bytes());
}
