// The converter: a program text with each read of factor 1 written as NOW or LAST.
#![tactic(auto)]

ghost use Rattle.std.specs.Prelude.{◌≡◌, ◌++◌, ◌+◌, ◌*◌, ◌≤◌, length, take, drop};
ghost use Rattle.model.specs.Rules.Machine.{Does};
ghost use Rattle.model.specs.Rules.Outcome.{yielded_of};
ghost use Rattle.model.specs.Rules.Rewrite.{single_kind};
ghost use Rattle.model.specs.Rules.Rewrite.{command_at, declaration_width, rewrite, convert_of};
ghost use Rattle.model.specs.Says.Written.{read_byte};
ghost use Rattle.model.specs.Rules.Writing.{Wrote};
ghost use Rattle.text_convert.specs.Pieces.{width_in, new_length, operator_piece, piece_of, piece_at};

use model::{Declaration, Fault, Kind, Operator, Refusal};

// What a command becomes: its bytes as they are, so many; or, for so many bytes, a byte and a signal. An enum of its own: both
// cases are values.
#[derive(Clone, Copy)]
enum Piece {
    Keep(usize),
    Short(usize, u8, u8),
}

// NOW for WHEN and CURRENT, LAST for LASTWHEN.
fn short_byte(kind: Kind) -> u8
    ensures { result ≡ read_byte (single_kind kind) }
{
    match kind {
        Kind::Now => 0x21,
        Kind::Last => 0x22,
        Kind::When => 0x21,
        Kind::LastWhen => 0x22,
        Kind::Current => 0x21,
    }
}

// The bytes of a declaration, which are kept.
fn declaration_width(declaration: Declaration) -> usize
    ensures { result ≡ declaration_width declaration }
{
    match declaration {
        Declaration::EndsEarly => 0,
        Declaration::Unknown => 0,
        Declaration::OutOfRange => 0,
        Declaration::End => width::in_program(0x00),
        Declaration::Input(_, _) => width::in_program(0x10),
        Declaration::Equation(_, _, _) => width::in_program(0x11),
        Declaration::Latency(_, _) => width::in_program(0x12),
        Declaration::Link(_) => width::in_program(0x13),
        Declaration::Cap(_) => width::in_program(0x14),
        Declaration::Tag(_) => width::in_program(0x15),
        Declaration::Row(_, _, _) => width::in_program(0x16),
    }
}

fn operator_piece(operator: Operator) -> Piece
    ensures { result ≡ operator_piece operator }
{
    match operator {
        Operator::EndsEarly => Piece::Keep(0),
        Operator::Unknown => Piece::Keep(0),
        Operator::OutOfRange => Piece::Keep(0),
        Operator::Constant(_) => Piece::Keep(width::in_expression(0x20)),
        Operator::Read(kind, x) => {
            let width = width::of_read(kind);
            let factor = x.factor;
            if factor == 1 {
                let byte = short_byte(kind);
                return Piece::Short(width, byte, x.signal);
            }
            Piece::Keep(width)
        }
        Operator::Binary(_) => Piece::Keep(width::in_expression(0x30)),
        Operator::Unary(_) => Piece::Keep(width::in_expression(0x38)),
        Operator::If => Piece::Keep(width::in_expression(0x3A)),
    }
}

// The piece of the command at `at`, an operator or a declaration by its byte.
fn command_piece(text: &[u8], at: usize) -> Piece
    ensures { result ≡ piece_of (command_at text.now at) }
{
    if text.len() <= at {
        return Piece::Keep(0);
    }
    let width = width::expression(text[at]);
    match width {
        Some(_) => operator_piece(text_command::operator_from(1, text, at)),
        None => {
            let declaration = text_command::declaration_at(text, at);
            Piece::Keep(declaration_width(declaration))
        }
    }
}

// The bytes of the text that a piece stands for, and its own.
fn width_in(piece: Piece) -> usize
    ensures { result ≡ width_in piece }
{
    match piece {
        Piece::Keep(n) => n,
        Piece::Short(n, _, _) => n,
    }
}

fn new_length(piece: Piece) -> usize
    ensures { result ≡ new_length piece }
{
    match piece {
        Piece::Keep(n) => n,
        Piece::Short(_, _, _) => width::in_expression(0x21),
    }
}

// Copies n bytes of the text from `at` on to `to` on.
fn copy(text: &[u8], at: usize, n: usize, out: &mut [u8], to: usize) -> usize
    requires { (at + n ≤ length text.now) × (to + n ≤ length out.old) }
    ensures { Wrote out.old to (take n (drop at text.now)) out.new result }
{
    let mut end = to;
    // byte by byte: by `copy_from_slice` the library for C would need `memmove` from outside
    for i in at..at + n {
        out[end] = text[i];
        end += 1;
    }
    end
}

// Writes the piece that stands for the command at `at`.
fn put(text: &[u8], at: usize, piece: Piece, out: &mut [u8], to: usize) -> usize
    requires { (at + width_in piece ≤ length text.now) × (to + new_length piece ≤ length out.old) }
    ensures { Wrote out.old to (piece_at text.now at piece) out.new result }
{
    match piece {
        Piece::Keep(n) => copy(text, at, n, out, to),
        Piece::Short(_, byte, signal) => {
            out[to] = byte;
            out[to + 1] = signal;
            to + width::in_expression(0x21)
        }
    }
}

// The length of a text, rewritten.
fn rewritten_length(text: &[u8]) -> usize
    ensures { result ≡ length (rewrite text.now) }
{
    let mut at: usize = 0;
    let mut total: usize = 0;
    // A command takes a byte at least: as many turns as the text has bytes are enough.
    for turn in 0..text.len() {
        let piece = command_piece(text, at);
        total = total + new_length(piece);
        at = at + width_in(piece);
    }
    total
}

// Writes a text, rewritten.
fn write(text: &[u8], out: &mut [u8]) -> usize
    requires { length (rewrite text.now) ≤ length out.old }
    ensures { Wrote out.old 0 (rewrite text.now) out.new result }
{
    let mut at: usize = 0;
    let mut to: usize = 0;
    for turn in 0..text.len() {
        let piece = command_piece(text, at);
        to = put(text, at, piece, out, to);
        at = at + width_in(piece);
    }
    to
}

// Converts a program text that passes 1, with a table for the offsets of its reads: an entry for each two bytes.
fn convert_with(program: &[u8], res: &mut [u8], reads: &mut [u16]) -> Result<usize, Fault>
    requires { (length program.now ≤ 8192) × (length program.now ≤ 2 * length reads.old) }
    ensures { Does (convert_of program.now res.old) (yielded_of result) res.new }
{
    text_program::read_program(1, program, reads)?;
    let length = rewritten_length(program);
    if res.len() < length {
        return basics::refuse(Refusal::ImageBufferShort, length);
    }
    let end = write(program, &mut res[..]);
    Ok(end)
}

// Converts a program text: its new length; 1 to 6 as the reader gives them with n = 1 allowed; or 17 where the buffer is shorter.
pub fn convert(program: &[u8], res: &mut [u8]) -> Result<usize, Fault>
    ensures { Does (convert_of program.now res.old) (yielded_of result) res.new }
{
    if 8192 < program.len() {
        return basics::refuse(Refusal::TextTooLong, 0);
    }
    let mut reads: [u16; 4096] = [0; 4096];
    convert_with(program, res, &mut reads)
}
