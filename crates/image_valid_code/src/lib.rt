// What the check of an image's code knows of a command by its byte: two tables, filled once a call, and what they say of one
// command.
#![tactic(auto)]

ghost use Rattle.std.specs.Prelude.{false, ◌≡◌, ◌+◌, ◌<◌, ◌≤◌, length, IfSome, unwrap_or};
ghost use Rattle.image_valid_code.specs.Shape.{Shapes, Ceilings, command_bytes, after_of, fetch_of, last_of};
ghost use Rattle.model.specs.Rules.Word.{byte_at};

// The shape of a command: LEVEL and the words that the stack has more after it. Its sum with the words before tells by one range
// whether there are enough of them and not too many after it.
const LEVEL: usize = 64;

const PUSHES: u8 = 65;

const ONE_OPERAND: u8 = 64;

const TWO_OPERANDS: u8 = 63;

const THREE_OPERANDS: u8 = 62;

// No command, or FETCH and STORE, which name their own signal.
const NO_SHAPE: u8 = 0;

// The shape of each byte, in an image without rows.
fn plain_shapes() -> [u8; 256]
    ensures { Shapes false result }
{
    let mut table = [NO_SHAPE; 256];
    table[0x30] = TWO_OPERANDS;
    table[0x31] = TWO_OPERANDS;
    table[0x32] = TWO_OPERANDS;
    table[0x33] = TWO_OPERANDS;
    table[0x34] = TWO_OPERANDS;
    table[0x35] = TWO_OPERANDS;
    table[0x36] = TWO_OPERANDS;
    table[0x38] = ONE_OPERAND;
    table[0x3A] = THREE_OPERANDS;
    table[0x50] = PUSHES;
    table[0x51] = PUSHES;
    table
}

// The same in an image with rows, which TABLE needs, or without.
pub fn shapes(rows: bool) -> [u8; 256]
    ensures { Shapes rows result }
{
    let mut table = plain_shapes();
    if !rows {
        return table;
    }
    table[0x3B] = ONE_OPERAND;
    table
}

// The greatest byte that may follow each byte, in an image of n signals: LOAD names one of them.
pub fn ceilings(n: u8) -> [u8; 256]
    requires { 0 < n }
    ensures { Ceilings n result }
{
    let mut table = [255; 256];
    table[0x51] = n - 1;
    table
}

// The bytes of a command that is not STORE. The operators are as wide as ADD.
pub fn command_bytes(byte: u8) -> usize
    ensures { result ≡ command_bytes byte }
{
    if byte == 0x50 {
        return width::in_code(0x50);
    }
    if byte < 0x50 {
        return width::in_code(0x30);
    }
    width::in_code(0x51)
}

// The words on the stack after the command at `at`, where it held h; none where it has no shape or may not stand there.
pub fn after(
    code: &[u8],
    at: usize,
    h: usize,
    shapes: &[u8; 256],
    ceilings: &[u8; 256],
) -> Option<usize>
    requires { (at + 1 < length code.now) × (h ≤ 32) }
    ensures words { unwrap_or result 33 ≡
        after_of shapes.now ceilings.now (byte_at code.now at) (byte_at code.now (at + 1)) h }
    ensures within { IfSome result (λ words. words ≤ 32) }
    ensures bytes { (byte_at code.now at < 256) × (byte_at code.now (at + 1) < 256) }
{
    let byte = basics::from_byte(code[at]);
    let x = basics::from_byte(code[at + 1]);
    let next = h + basics::from_byte(shapes[byte]);
    if next <= LEVEL {
        return None;
    }
    if LEVEL + 32 < next {
        return None;
    }
    if basics::from_byte(ceilings[byte]) < x {
        return None;
    }
    Some(next - LEVEL)
}

// FETCH of the own signal, where the stack has room for a word.
pub fn is_fetch(byte: u8, x: u8, own: u8, h: usize) -> bool
    ensures { result ≡ fetch_of byte x own h }
{
    if byte == 0x52 {
        if x == own {
            return h < 32;
        }
        return false;
    }
    false
}

// STORE of the own signal, where the stack holds one word.
pub fn is_last(byte: u8, x: u8, own: u8, h: usize) -> bool
    ensures { result ≡ last_of byte x own h }
{
    if byte == 0x5F {
        if x == own {
            return h == 1;
        }
        return false;
    }
    false
}
