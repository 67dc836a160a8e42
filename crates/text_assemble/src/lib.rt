// The assembler: the bytes of a text, token after token.
#![tactic(auto)]

ghost use Rattle.std.specs.Prelude.{List, [], ◌∷◌, ◌≡◌, ℕ, ◌+◌, ◌-◌, ◌^◌, ◌≤◌, ◌<◌, length};
ghost use Rattle.model.specs.Rules.Machine.{Does};
ghost use Rattle.model.specs.Rules.Outcome.{yielded_of, accepted, ◌▷◌};
ghost use Rattle.model.specs.Rules.TextForm.{token, low_bytes, ranged, signed_of};
ghost use Rattle.model.specs.Rules.TextForm.{operand_of, assembled_of, assembly, assemble_of, size};
ghost use Rattle.model.specs.Rules.Writing.{Wrote};
ghost use Rattle.text_keyword.specs.Cells.{cells, pending_at};
ghost use Rattle.text_keyword.specs.Written.{length_answer, FitsIn, bytes_written};
ghost use Rattle.text_assemble.specs.Assembled.{number_value, ReadsAs};

use model::{Fault, Operand, Refusal};
use text_keyword::COMMANDS;

// What a token stands for: so many bytes with this value, low byte first; and where in the table the operands to follow stand.
#[derive(Clone, Copy)]
struct TokenRead {
    size: usize,
    value: usize,
    next: usize,
}

// A number from `low` on and below `limit`.
fn ranged(place: usize, low: usize, limit: usize, number: Option<usize>) -> Result<usize, Fault>
    ensures { yielded_of result ≡ ranged place low limit number }
{
    let Some(n) = number else {
        return basics::refuse(Refusal::NoNumber, place);
    };
    if n < low {
        return basics::refuse(Refusal::NumberOutside, place);
    }
    if limit <= n {
        return basics::refuse(Refusal::NumberOutside, place);
    }
    Ok(n)
}

// The bits of a word.
fn signed_of(place: usize, spelling: &[u8]) -> Result<usize, Fault>
    ensures { yielded_of result ≡ signed_of place spelling.now }
{
    if text_keyword::cell(spelling, 0) == 45 {
        let number = text_token::number_of(&spelling[1..]);
        let size = ranged(place, 1, 2147483649, number)?;
        return Ok(4294967296 - size);
    }
    let number = text_token::number_of(spelling);
    ranged(place, 0, 2147483648, number)
}

// What is below the numbers of an unsigned operand.
fn limit(operand: Operand) -> usize
    ensures { result ≡ 256 ^ size operand }
{
    match operand {
        Operand::One | Operand::Index | Operand::Mode => 256,
        Operand::Two => 65536,
        Operand::Four | Operand::Signed => 4294967296,
    }
}

// The value of an operand's number.
fn number_value(operand: Operand, place: usize, spelling: &[u8]) -> Result<usize, Fault>
    ensures { yielded_of result ≡ number_value operand place spelling.now }
{
    if text_keyword::is_signed(operand) {
        return signed_of(place, spelling);
    }
    let number = text_token::number_of(spelling);
    let most = limit(operand);
    ranged(place, 0, most, number)
}

// The value of an operand's token: of a name, or of a number.
fn operand_of(operand: Operand, place: usize, spelling: &[u8]) -> Result<usize, Fault>
    ensures { yielded_of result ≡ operand_of operand (token place spelling.now) }
{
    let table = text_keyword::table();
    let from = text_keyword::names_from(operand);
    let count = text_keyword::names_count(operand);
    match text_keyword::find_spelling(table, from, count, spelling) {
        Some(i) => Ok(text_keyword::byte_of(table, from + i)),
        None => number_value(operand, place, spelling),
    }
}

// What a token stands for where a keyword is to follow.
fn read_keyword(place: usize, spelling: &[u8]) -> Result<TokenRead, Fault>
    ensures { ReadsAs [] place spelling.now result }
{
    let table = text_keyword::table();
    let Some(row) = text_keyword::find_spelling(table, 0, COMMANDS, spelling) else {
        return basics::refuse(Refusal::UnknownWord, place);
    };
    let value = text_keyword::byte_of(table, row);
    let next = 15 * row + 11;
    Ok(TokenRead {
        size: 1,
        value,
        next,
    })
}

// What a token stands for where an operand is to follow, and others from `next` on.
fn read_operand(
    operand: Operand,
    next: usize,
    place: usize,
    spelling: &[u8],
) -> Result<TokenRead, Fault>
    ensures { ReadsAs (operand ∷ pending_at next) place spelling.now result }
{
    let value = operand_of(operand, place, spelling)?;
    let size = text_keyword::size(operand);
    Ok(TokenRead { size, value, next })
}

// What a token stands for, where the operands at `pending` are to follow.
fn read_token(pending: usize, place: usize, spelling: &[u8]) -> Result<TokenRead, Fault>
    ensures { ReadsAs (pending_at pending) place spelling.now result }
{
    let number = text_keyword::cell(text_keyword::table(), pending);
    if number == 0 {
        return read_keyword(place, spelling);
    }
    let operand = text_keyword::operand_by(number);
    read_operand(operand, pending + 1, place, spelling)
}

// The length of what a text is assembled to, or its refusal.
fn assembled_length(text: &[u8]) -> Result<usize, Fault>
    requires { length text.now ≤ 16777216 }
    ensures { result ≡ length_answer (assembly text.now) }
{
    let mut start = text_token::token_start(text, 0);
    let mut pending: usize = 11;
    let mut total: usize = 0;
    // A `while`: where the next token starts depends on this one.
    while start < text.len() {
        let end = text_token::token_end(text, start);
        let read = read_token(pending, start, &text[start..end])?;
        total = total + read.size;
        pending = read.next;
        start = text_token::token_start(text, end);
    }
    text_keyword::ended_length(pending, Refusal::OperandMissing as u8, text.len(), total)
}

// Writes the low bytes of a value.
fn put_value(out: &mut [u8], to: usize, size: usize, value: usize) -> usize
    requires { to + size ≤ length out.old }
    ensures { Wrote out.old to (low_bytes size value) out.new result }
{
    let end = to + size;
    let mut rest = value;
    for i in to..end {
        out[i] = (rest % 256) as u8;
        rest = rest / 256;
    }
    end
}

// Writes what a text is assembled to.
fn write_assembly(text: &[u8], out: &mut [u8]) -> usize
    requires { FitsIn (assembly text.now) out.old }
    ensures { Wrote out.old 0 (bytes_written (assembly text.now)) out.new result }
{
    let mut start = text_token::token_start(text, 0);
    let mut pending: usize = 11;
    let mut to: usize = 0;
    // A `while`: where the next token starts depends on this one.
    while start < text.len() {
        let end = text_token::token_end(text, start);
        let read = read_token(pending, start, &text[start..end]).unwrap();
        to = put_value(out, to, read.size, read.value);
        pending = read.next;
        start = text_token::token_start(text, end);
    }
    to
}

// Assembles a text that is not too long.
fn assemble_with(text: &[u8], bytes: &mut [u8]) -> Result<usize, Fault>
    requires { length text.now ≤ 16777216 }
    ensures { Does (assemble_of text.now bytes.old) (yielded_of result) bytes.new }
{
    let n = assembled_length(text)?;
    if bytes.len() < n {
        return basics::refuse(Refusal::TextBufferShort, n);
    }
    let end = write_assembly(text, &mut bytes[..]);
    Ok(end)
}

// Assembles a text: the length of the bytes that it writes, or the refusal.
pub fn assemble(text: &[u8], bytes: &mut [u8]) -> Result<usize, Fault>
    ensures { Does (assemble_of text.now bytes.old) (yielded_of result) bytes.new }
{
    if 16777216 < text.len() {
        return basics::refuse(Refusal::FormTooLong, 0);
    }
    assemble_with(text, bytes)
}
