// The code of a signal: operands first, operator after.
#![tactic(auto)]

ghost use Rattle.std.specs.Prelude.{◌≡◌, [], ◌∷◌, ◌+◌, ◌^◌, ◌≤◌, ◌<◌, length};
ghost use Rattle.model.specs.Rules.Image.{binary_byte, unary_byte};
ghost use Rattle.model.specs.Rules.Width.{in_code};
ghost use Rattle.model.specs.Rules.Word.{byte_at, word_bytes};
ghost use Rattle.text_command.specs.Operator.{operands_of};
ghost use Rattle.image_code.specs.Shape.{lead_of};
ghost use Rattle.image_code.specs.Code.{Puts, SignalRoom, EmitsSignal, Rooms, EmitsAll, LeafSpace};

use model::{Binary, Operator, Unary};

// Where the text goes on, and where the code ends.
#[derive(Clone, Copy)]
pub struct Emitted {
    pub next: usize,
    pub end: usize,
}

// The byte of an operator with two operands. A function: an impl of `From` stands with its type, and `model` has no code.
fn binary_byte(operator: Binary) -> u8
    ensures { result ≡ binary_byte operator }
{
    match operator {
        Binary::Add => 0x30,
        Binary::Sub => 0x31,
        Binary::Mul => 0x32,
        Binary::Less => 0x33,
        Binary::Same => 0x34,
        Binary::Min => 0x35,
        Binary::Max => 0x36,
    }
}

// The byte of an operator with one operand.
fn unary_byte(operator: Unary) -> u8
    ensures { result ≡ unary_byte operator }
{
    match operator {
        Unary::Negate => 0x38,
        Unary::Table => 0x3B,
    }
}

// Writes a PUSH.
fn put_push(out: &mut [u8], to: usize, w: i32, next: usize) -> Emitted
    requires { to + in_code 0x50 ≤ length out.old }
    ensures { Puts out.old to (0x50 ∷ word_bytes w) next out.new result.next result.end }
{
    out[to] = 0x50;
    let operand = to + 1;
    word::put_word(out, operand, w);
    Emitted {
        next,
        end: to + width::in_code(0x50),
    }
}

// Writes a LOAD, FETCH or STORE of a signal; FETCH and STORE are as wide as LOAD.
pub fn put_access(out: &mut [u8], to: usize, code: u8, signal: u8, next: usize) -> Emitted
    requires { to + in_code 0x51 ≤ length out.old }
    ensures { Puts out.old to (code ∷ signal ∷ []) next out.new result.next result.end }
{
    out[to] = code;
    out[to + 1] = signal;
    Emitted {
        next,
        end: to + width::in_code(0x51),
    }
}

// Writes an operator after its operands; all are as wide as ADD.
fn put_operator(out: &mut [u8], operands: Emitted, code: u8) -> Emitted
    requires { operands.end + in_code 0x30 ≤ length out.old }
    ensures { Puts out.old operands.end (code ∷ []) operands.next out.new result.next result.end }
{
    let to = operands.end;
    out[to] = code;
    Emitted {
        next: operands.next,
        end: to + width::in_code(0x30),
    }
}

// Writes the code of an operator that has no operands.
fn put_leaf(out: &mut [u8], operator: Operator, at: usize, to: usize) -> Emitted
    requires { LeafSpace operator at (length out.old) to }
    ensures { Puts out.old to (lead_of operator).last (at + (lead_of operator).width)
        out.new result.next result.end }
{
    match operator {
        Operator::Constant(w) => put_push(out, to, w, at + width::in_expression(0x20)),
        Operator::Read(kind, operands) => put_access(
            out,
            to,
            0x51,
            operands.signal,
            at + width::of_read(kind),
        ),
        _ => Emitted { next: at, end: to },
    }
}

// The code of an operator that has operands.
fn operator_byte(operator: Operator) -> u8
    ensures { (operands_of operator ≡ 0 → ⊥) → (lead_of operator).last ≡ result ∷ [] }
{
    match operator {
        Operator::Binary(o) => binary_byte(o),
        Operator::Unary(o) => unary_byte(o),
        _ => 0x3A,
    }
}

// Writes the code of so many expressions from `at` on, one after another, each of which nests at most `depth` deep, from `to`
// on: an operator comes after its operands. The slices go by references to them, which no level of the recursion has to copy.
// `counted` is what the type of a slice says and that of a reference to one does not; `same`: the slice is not exchanged for
// another.
pub fn emit_expressions(
    text: &&[u8],
    number: usize,
    at: usize,
    depth: usize,
    out: &mut &mut [u8],
    to: usize,
) -> Emitted
    requires rooms { Rooms depth text.now.now at (length out.old.now) to number 0 }
    requires counted { length text.now.now < 2 ^ 64 }
    ensures same { out.new.ghost_name ≡ out.old.ghost_name }
    ensures emits_all { EmitsAll text.now.now at number out.old.now to
        out.new.now result.next result.end }
{
    let mut done = Emitted { next: at, end: to };
    for i in 0..number {
        let here = done.next;
        let from = done.end;
        let operator = text_command::operator_at(*text, here);
        let operands = text_command::operands_of(operator);
        done = if operands == 0 {
            put_leaf(*out, operator, here, from)
        } else {
            let first = here + width::in_expression(0x30);
            let before = emit_expressions(text, operands, first, depth - 1, out, from);
            put_operator(*out, before, operator_byte(operator))
        };
    }
    done
}

// Writes the code of the signal x, an equation declared at `place`, from `to` on. Says in `end` where it ends. It takes the
// slice and gives it back, so that it can lend a reference to it.
fn emit_equation<'a>(
    text: &[u8],
    place: usize,
    x: u8,
    out: &'a mut [u8],
    to: usize,
    end: &mut usize,
) -> &'a mut [u8]
    requires signal_room { SignalRoom text.now place x (length out.old) to }
    requires place_value { byte_at text.now place ≡ 0x11 }
    ensures same { result.ghost_name ≡ out.entry.ghost_name }
    ensures emits_signal { EmitsSignal text.now place x out.old to result.now end.new }
{
    let mut all = out;
    let value = emit_expressions(&text, 1, place + width::in_program(0x11), 16, &mut all, to);
    let back = all;
    let code = put_access(back, value.end, 0x5F, x, place);
    *end = code.end;
    back
}

// Writes the code of the signal x, declared at `place`, from `to` on. Says where it ends.
pub fn emit_signal(text: &[u8], place: usize, x: u8, out: &mut [u8], to: usize) -> usize
    requires { SignalRoom text.now place x (length out.old) to }
    ensures { EmitsSignal text.now place x out.old to out.new result }
{
    if text[place] == 0x11 {
        let mut end = to;
        emit_equation(text, place, x, out, to, &mut end);
        return end;
    }
    let sample = put_access(out, to, 0x52, x, place);
    let code = put_access(out, sample.end, 0x5F, x, place);
    code.end
}
