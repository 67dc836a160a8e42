// Lines of decimal numbers, written to a lent buffer.
#![tactic(auto)]

ghost use Rattle.std.specs.Prelude.{◌≡◌, ◌+◌, ◌≤◌, ◌<◌, length};
ghost use Rattle.decimal.specs.PutBytes.{PutBytes};
ghost use Rattle.model.specs.Rules.Decimal.{natural, decimal, line_of};

// Writes the digits of n from `at` on, and answers where they end.
pub fn put_natural(out: &mut [u8], at: usize, n: u32) -> usize
    requires { at + length (natural n) ≤ length out.old }
    ensures { PutBytes out.old at (natural n) out.new result }
{
    if n < 10 {
        out[at] = (48 + n) as u8;
        return at + 1;
    }
    let last = put_natural(out, at, n / 10);
    out[last] = (48 + n % 10) as u8;
    last + 1
}

// Writes a word, with '-' before a negative one.
pub fn put_decimal(out: &mut [u8], at: usize, w: i32) -> usize
    requires { at + length (decimal w) ≤ length out.old }
    ensures { PutBytes out.old at (decimal w) out.new result }
{
    let bits = word::bits(w);
    if w < 0 {
        out[at] = 45;
        let digits = at + 1;
        let size = 4294967295 - bits + 1;
        return put_natural(out, digits, size);
    }
    put_natural(out, at, bits)
}

// Writes line `number` of at most 64 words to the start of `out`, and answers its length: a number has at most 10
// digits, and a word with its space and sign at most 12 bytes.
pub fn put_line(out: &mut [u8], number: u32, words: &[i32]) -> usize
    requires { (length words.now ≤ 64) × (1024 ≤ length out.old) }
    ensures { PutBytes out.old 0 (line_of number words.now) out.new result }
{
    let mut at = put_natural(out, 0, number);
    for &w in words {
        out[at] = 32;
        at = put_decimal(out, at + 1, w);
    }
    out[at] = 10;
    at + 1
}
