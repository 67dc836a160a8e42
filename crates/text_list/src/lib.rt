// The lister: the text of bytes, token after token.
#![tactic(auto)]

ghost use Rattle.std.specs.Prelude.{List, [], ◌∷◌, ◌≡◌, ℕ, ◌+◌, ◌*◌, ◌^◌, ◌≤◌, ◌<◌, eqb, length};
ghost use Rattle.model.specs.Rules.Machine.{Does};
ghost use Rattle.model.specs.Rules.Outcome.{yielded_of};
ghost use Rattle.model.specs.Rules.Search.{first_below};
ghost use Rattle.model.specs.Rules.TextForm.{low_at, size, number_token, operand_token, listed_at, listing, listing_of};
ghost use Rattle.model.specs.Rules.Writing.{Wrote};
ghost use Rattle.text_keyword.specs.Cells.{letters_of, byte_of, pending_at};
ghost use Rattle.text_keyword.specs.Written.{length_answer, FitsIn, bytes_written};
ghost use Rattle.text_list.specs.Puts.{lead_by, Room, PutsToken};

use model::{Fault, Operand, Refusal};
use text_keyword::COMMANDS;

// What was written for what stands at an offset: where it ends in the text, how many bytes it takes; where in the table the
// operands to follow stand.
#[derive(Clone, Copy)]
struct TokenPut {
    end: usize,
    width: usize,
    next: usize,
}

// Writes letters up to a zero.
fn put_letters(letters: &[u8], out: &mut [u8], to: usize) -> usize
    requires { to + length (letters_of letters.now) ≤ length out.old }
    ensures { Wrote out.old to (letters_of letters.now) out.new result }
{
    let mut end = to;
    for letter in letters {
        if *letter == 0 {
            return end;
        }
        out[end] = *letter;
        end = end + 1;
    }
    end
}

// Writes what separates a token from the one before it.
fn put_lead(at: usize, opens: u8, out: &mut [u8], to: usize) -> usize
    requires { to + length (lead_by at opens) ≤ length out.old }
    ensures { Wrote out.old to (lead_by at opens) out.new result }
{
    if at == 0 {
        return to;
    }
    if opens == 0 {
        out[to] = 32;
        return to + 1;
    }
    out[to] = 10;
    to + 1
}

// Writes the number of an operand.
fn put_number(operand: Operand, value: u32, out: &mut [u8], to: usize) -> usize
    requires { to + length (number_token operand value) ≤ length out.old }
    ensures { Wrote out.old to (number_token operand value) out.new result }
{
    if text_keyword::is_signed(operand) {
        let word = word::from_bits(value);
        return decimal::put_decimal(out, to, word);
    }
    decimal::put_natural(out, to, value)
}

// The first of `count` rows from `from` on whose byte is this value.
fn find_value(table: &[u8], from: usize, count: usize, value: u32) -> Option<usize>
    requires { 15 * (from + count) ≤ length table.now }
    ensures { result ≡ first_below count (λ i. eqb (byte_of table.now (from + i)) value) }
{
    if 255 < value {
        return None;
    }
    let byte = value as u8;
    text_keyword::find_byte(table, from, count, byte)
}

// Writes the name of an operand, or its number.
fn put_operand(operand: Operand, value: u32, out: &mut [u8], to: usize) -> usize
    requires { to + length (operand_token operand value) ≤ length out.old }
    ensures { Wrote out.old to (operand_token operand value) out.new result }
{
    let table = text_keyword::table();
    let from = text_keyword::names_from(operand);
    let count = text_keyword::names_count(operand);
    match find_value(table, from, count, value) {
        Some(i) => {
            let at = 15 * (from + i);
            put_letters(&table[at..], out, to)
        }
        None => put_number(operand, value, out, to),
    }
}

// The value of n bytes from `at` on, at most four.
fn value_at(n: usize, bytes: &[u8], at: usize) -> usize
    requires { (n ≤ 4) × (at + n ≤ length bytes.now) }
    ensures { (result ≡ low_at n bytes.now at) × (result < 2 ^ 32) }
{
    let mut value: usize = 0;
    for i in (0..n).rev() {
        let byte = basics::from_byte(bytes[at + i]);
        value = 256 * value + byte;
    }
    value
}

// Writes the keyword of the byte at `at`.
fn list_keyword(bytes: &[u8], at: usize, out: &mut [u8], to: usize) -> Result<TokenPut, Fault>
    requires { (at < length bytes.now) × Room (listed_at bytes.now at []) at out.old to }
    ensures { PutsToken (listed_at bytes.now at []) at out.old to out.new result }
{
    let table = text_keyword::table();
    let Some(i) = text_keyword::find_byte(table, 0, COMMANDS, bytes[at]) else {
        return basics::refuse(Refusal::UnknownByte, at);
    };
    let row = 15 * i;
    let opens = text_keyword::cell(table, row + 9);
    let start = put_lead(at, opens, out, to);
    let end = put_letters(&table[row..], out, start);
    let next = row + 11;
    Ok(TokenPut {
        end,
        width: 1,
        next,
    })
}

// Writes the operand at `at`; others are to follow from `next` on.
fn list_operand(
    operand: Operand,
    next: usize,
    bytes: &[u8],
    at: usize,
    out: &mut [u8],
    to: usize,
) -> Result<TokenPut, Fault>
    requires { (at < length bytes.now) × Room (listed_at bytes.now at (operand ∷ pending_at next)) at out.old to }
    ensures { PutsToken (listed_at bytes.now at (operand ∷ pending_at next)) at out.old to
        out.new result }
{
    let width = text_keyword::size(operand);
    if bytes.len() - at < width {
        return basics::refuse(Refusal::OperandCut, at);
    }
    let value = value_at(width, bytes, at) as u32;
    let start = put_lead(at, 0, out, to);
    let end = put_operand(operand, value, out, start);
    Ok(TokenPut { end, width, next })
}

// Writes what stands at `at`, where the operands at `pending` are to follow.
fn list_token(
    pending: usize,
    bytes: &[u8],
    at: usize,
    out: &mut [u8],
    to: usize,
) -> Result<TokenPut, Fault>
    requires { (at < length bytes.now) × Room (listed_at bytes.now at (pending_at pending)) at out.old to }
    ensures { PutsToken (listed_at bytes.now at (pending_at pending)) at out.old to
        out.new result }
{
    let number = text_keyword::cell(text_keyword::table(), pending);
    if number == 0 {
        return list_keyword(bytes, at, out, to);
    }
    let operand = text_keyword::operand_by(number);
    list_operand(operand, pending + 1, bytes, at, out, to)
}

// The length of the listing of bytes, or the refusal.
fn listed_length(bytes: &[u8]) -> Result<usize, Fault>
    requires { length bytes.now ≤ 16777216 }
    ensures { result ≡ length_answer (listing bytes.now) }
{
    let mut token = [0u8; 16];
    let mut at: usize = 0;
    let mut pending: usize = 11;
    let mut total: usize = 1;
    // A `while`: where the next token stands depends on this one.
    while at < bytes.len() {
        let put = list_token(pending, bytes, at, &mut token, 0)?;
        total = total + put.end;
        pending = put.next;
        at = at + put.width;
    }
    text_keyword::ended_length(pending, Refusal::OperandCut as u8, at, total)
}

// Writes the listing of bytes, with a newline at its end.
fn write_listing(bytes: &[u8], out: &mut [u8]) -> usize
    requires { FitsIn (listing bytes.now) out.old }
    ensures { Wrote out.old 0 (bytes_written (listing bytes.now)) out.new result }
{
    let mut at: usize = 0;
    let mut pending: usize = 11;
    let mut to: usize = 0;
    // A `while`: where the next token stands depends on this one.
    while at < bytes.len() {
        let put = list_token(pending, bytes, at, out, to).unwrap();
        to = put.end;
        pending = put.next;
        at = at + put.width;
    }
    out[to] = 10;
    to + 1
}

// Lists bytes that are not too many.
fn list_with(bytes: &[u8], text: &mut [u8]) -> Result<usize, Fault>
    requires { length bytes.now ≤ 16777216 }
    ensures { Does (listing_of bytes.now text.old) (yielded_of result) text.new }
{
    let n = listed_length(bytes)?;
    if text.len() < n {
        return basics::refuse(Refusal::TextBufferShort, n);
    }
    let end = write_listing(bytes, &mut text[..]);
    Ok(end)
}

// Lists bytes: the length of the text that it writes, or the refusal.
pub fn list(bytes: &[u8], text: &mut [u8]) -> Result<usize, Fault>
    ensures { Does (listing_of bytes.now text.old) (yielded_of result) text.new }
{
    if 16777216 < bytes.len() {
        return basics::refuse(Refusal::FormTooLong, 0);
    }
    list_with(bytes, text)
}
