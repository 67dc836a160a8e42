// The table of the text form, and looking it up.
#![tactic(auto)]

ghost use Rattle.std.specs.Prelude.{◌≡◌, ◌+◌, ◌*◌, ◌≤◌, ◌<◌, eqb, length};
ghost use Rattle.model.specs.Rules.Search.{first_below};
ghost use Rattle.model.specs.Rules.TextForm.{same_bytes, size, is_signed, ended};
ghost use Rattle.model.specs.Rules.Word.{byte_at};
ghost use Rattle.text_keyword.specs.Cells.{cells, letters_of, spelling_at, byte_of};
ghost use Rattle.text_keyword.specs.Cells.{operand_by, names_from, names_count, pending_at};
ghost use Rattle.text_keyword.specs.Written.{ended_answer};

use model::{Fault, Operand};

// Rows of bytes and no structs: 450 bytes that are never copied, and one offset in them says which operands are to follow.
// The commands, a row each, then the names of operands: 9 letters with zeros after the last, whether it starts a line, its byte,
// its operands by their numbers (`operand_by`) with zeros after the last.
static TABLE: [u8; 450] = *b"\
    END\0\0\0\0\0\0\x01\x00\x00\x00\x00\x00\
    IN\0\0\0\0\0\0\0\x01\x10\x01\x04\x00\x00\
    EQ\0\0\0\0\0\0\0\x01\x11\x01\x04\x02\x00\
    LAT\0\0\0\0\0\0\x01\x12\x06\x02\x00\x00\
    LINK\0\0\0\0\0\x00\x13\x01\x00\x00\x00\
    CAP\0\0\0\0\0\0\x01\x14\x03\x00\x00\x00\
    TAG\0\0\0\0\0\0\x01\x15\x02\x00\x00\x00\
    CONST\0\0\0\0\x00\x20\x04\x00\x00\x00\
    NOW\0\0\0\0\0\0\x00\x21\x01\x00\x00\x00\
    LAST\0\0\0\0\0\x00\x22\x01\x00\x00\x00\
    WHEN\0\0\0\0\0\x00\x23\x01\x05\x01\x00\
    LASTWHEN\0\x00\x24\x01\x05\x01\x00\
    CURRENT\0\0\x00\x25\x01\x05\x01\x00\
    ADD\0\0\0\0\0\0\x00\x30\x00\x00\x00\x00\
    SUB\0\0\0\0\0\0\x00\x31\x00\x00\x00\x00\
    MUL\0\0\0\0\0\0\x00\x32\x00\x00\x00\x00\
    LESS\0\0\0\0\0\x00\x33\x00\x00\x00\x00\
    SAME\0\0\0\0\0\x00\x34\x00\x00\x00\x00\
    MIN\0\0\0\0\0\0\x00\x35\x00\x00\x00\x00\
    MAX\0\0\0\0\0\0\x00\x36\x00\x00\x00\x00\
    NEG\0\0\0\0\0\0\x00\x38\x00\x00\x00\x00\
    IF\0\0\0\0\0\0\0\x00\x3a\x00\x00\x00\x00\
    PUT\0\0\0\0\0\0\x01\x40\x01\x01\x00\x00\
    SET\0\0\0\0\0\0\x01\x70\x01\x04\x00\x00\
    RUN\0\0\0\0\0\0\x01\x71\x01\x00\x00\x00\
    ROW\0\0\0\0\0\0\x01\x16\x04\x04\x04\x00\
    TABLE\0\0\0\0\x00\x3b\x00\x00\x00\x00\
    open\0\0\0\0\0\x00\xff\x00\x00\x00\x00\
    exists\0\0\0\x00\x00\x00\x00\x00\x00\
    backward\0\x00\x01\x00\x00\x00\x00\
";

// How many rows are commands; the names of operands follow them.
pub const COMMANDS: usize = 27;

pub fn table() -> &'static [u8]
    ensures { result.now ≡ cells }
{
    &TABLE
}

// The byte at i, or 0 past the end.
pub fn cell(s: &[u8], i: usize) -> u8
    ensures { result ≡ byte_at s.now i }
{
    s.get(i).copied().unwrap_or(0)
}

// Whether the letters, up to a zero, are the token.
fn is_spelled(letters: &[u8], token: &[u8]) -> bool
    ensures { result ≡ same_bytes (letters_of letters.now) token.now }
{
    for i in 0..token.len() {
        let c = cell(letters, i);
        if c == 0 || c != token[i] {
            return false;
        }
    }
    cell(letters, token.len()) == 0
}

// Whether the spelling of a row is the token.
fn is_row_spelled(table: &[u8], row: usize, token: &[u8]) -> bool
    requires { 15 * row ≤ length table.now }
    ensures { result ≡ same_bytes (spelling_at table.now row) token.now }
{
    is_spelled(&table[15 * row..], token)
}

// The first of `count` rows from `from` on with this spelling, counted from 0.
pub fn find_spelling(table: &[u8], from: usize, count: usize, token: &[u8]) -> Option<usize>
    requires { 15 * (from + count) ≤ length table.now }
    ensures { result ≡ first_below count (λ i. same_bytes (spelling_at table.now (from + i)) token.now) }
{
    (0..count).find(|i| is_row_spelled(table, from + *i, token))
}

// The first of `count` rows from `from` on with this byte.
pub fn find_byte(table: &[u8], from: usize, count: usize, byte: u8) -> Option<usize>
    requires { 15 * (from + count) ≤ length table.now }
    ensures { result ≡ first_below count (λ i. eqb (byte_of table.now (from + i)) byte) }
{
    (0..count).find(|i| table[15 * (from + *i) + 10] == byte)
}

// The byte of a row.
pub fn byte_of(table: &[u8], row: usize) -> usize
    requires { row < 1000 }
    ensures { (result ≡ byte_of table.now row) × (result < 256) }
{
    let at = 15 * row + 10;
    let byte = cell(table, at);
    basics::from_byte(byte)
}

// An operand by its number in the table.
pub fn operand_by(number: u8) -> Operand
    ensures { result ≡ operand_by number }
{
    match number {
        1 => Operand::One,
        2 => Operand::Two,
        3 => Operand::Four,
        4 => Operand::Signed,
        5 => Operand::Index,
        _ => Operand::Mode,
    }
}

// How many bytes an operand takes.
pub fn size(operand: Operand) -> usize
    ensures { result ≡ size operand }
{
    match operand {
        Operand::One | Operand::Index | Operand::Mode => 1,
        Operand::Two => 2,
        Operand::Four | Operand::Signed => 4,
    }
}

// The row of the first name of an operand, and how many there are.
pub fn names_from(operand: Operand) -> usize
    ensures { result ≡ names_from operand }
{
    match operand {
        Operand::One | Operand::Two | Operand::Four | Operand::Signed | Operand::Index => COMMANDS,
        Operand::Mode => COMMANDS + 1,
    }
}

pub fn names_count(operand: Operand) -> usize
    ensures { result ≡ names_count operand }
{
    match operand {
        Operand::One | Operand::Two | Operand::Four | Operand::Signed => 0,
        Operand::Index => 1,
        Operand::Mode => 2,
    }
}

pub fn is_signed(operand: Operand) -> bool
    ensures { result ≡ is_signed operand }
{
    matches!(operand, Operand::Signed)
}

// The answer where a text or bytes end: no operand is to follow.
pub fn ended_length(pending: usize, number: u8, place: usize, total: usize) -> Result<usize, Fault>
    ensures { result ≡ ended_answer total (ended number place (pending_at pending)) }
{
    if cell(table(), pending) == 0 {
        return Ok(total);
    }
    basics::refuse_number(number, place)
}
