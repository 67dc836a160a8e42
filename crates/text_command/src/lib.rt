// One decoded command of a program text (a declaration or an operator of an expression) or of a schedule text.
#![tactic(auto)]

ghost use Rattle.std.specs.Prelude.{cond, ◌⊎◌, ◌≡◌, ◌<◌, ◌≤◌, length};
ghost use Rattle.model.specs.Rules.Command.{is_period, is_index, index_of, mode_of, declaration_of, declaration_at};
ghost use Rattle.model.specs.Rules.Command.{plain_read, sampled_read, operator_of, operator_at};
ghost use Rattle.model.specs.Rules.Program.{unary_lookups};
ghost use Rattle.model.specs.Rules.Schedule.{schedule_command_at};
ghost use Rattle.text_command.specs.Operator.{
  kind_of,
  if_or_table,
  HasFactor,
  restricted,
  operator_from,
  OperatorStands,
  ReadStands,
  ReadTaken,
  operands_of,
  lookups_of,
};

use model::{Declaration, Index, Kind, Mode, Operator, Sampled, ScheduleCommand, Unary};

fn is_period(n: u8) -> bool
    ensures { result ≡ is_period n }
{
    1 <= n && n <= 240
}

fn is_index(i: u8, n: u8) -> bool
    ensures { result ≡ is_index i n }
{
    i < n || i == 255
}

fn index_of(i: u8) -> Index
    ensures { result ≡ index_of i }
{
    if i == 255 {
        Index::Open
    } else {
        Index::Fixed(i)
    }
}

fn mode_of(byte: u8) -> Mode
    ensures { result ≡ mode_of byte }
{
    if byte == 0 {
        Mode::Exists
    } else {
        Mode::Backward
    }
}

// IN: period, initial word; EQ: a weight after them. The period is judged before the rest is looked for, so its 2 is no width;
// likewise the mode of a LAT.
fn signal_at(text: &[u8], at: usize, byte: u8) -> Declaration
    requires { (at < length text.now) × ((byte ≡ 0x10) ⊎ (byte ≡ 0x11)) }
    ensures { result ≡ declaration_of byte text.now at }
{
    let left = text.len() - at;
    if left < 2 {
        return Declaration::EndsEarly;
    }
    let period = text[at + 1];
    if !is_period(period) {
        return Declaration::OutOfRange;
    }
    if left < width::in_program(byte) {
        return Declaration::EndsEarly;
    }
    let initial = word::word_at(text, at + 2);
    if byte == 0x10 {
        return Declaration::Input(period, initial);
    }
    let weight = word::two_at(text, at + 6);
    Declaration::Equation(period, initial, weight)
}

// LAT: mode, bound.
fn latency_at(text: &[u8], at: usize) -> Declaration
    requires { at < length text.now }
    ensures { result ≡ declaration_of 0x12 text.now at }
{
    let left = text.len() - at;
    if left < 2 {
        return Declaration::EndsEarly;
    }
    let byte = text[at + 1];
    if 1 < byte {
        return Declaration::OutOfRange;
    }
    if left < width::in_program(0x12) {
        return Declaration::EndsEarly;
    }
    let mode = mode_of(byte);
    let bound = word::two_at(text, at + 2);
    Declaration::Latency(mode, bound)
}

// LINK: a signal.
pub fn link_at(text: &[u8], at: usize) -> Declaration
    requires { at < length text.now }
    ensures { result ≡ declaration_of 0x13 text.now at }
{
    let left = text.len() - at;
    if left < width::in_program(0x13) {
        return Declaration::EndsEarly;
    }
    Declaration::Link(text[at + 1])
}

// CAP: a limit.
fn cap_at(text: &[u8], at: usize) -> Declaration
    requires { at < length text.now }
    ensures { result ≡ declaration_of 0x14 text.now at }
{
    let left = text.len() - at;
    if left < width::in_program(0x14) {
        return Declaration::EndsEarly;
    }
    let limit = word::four_at(text, at + 1);
    Declaration::Cap(limit)
}

// TAG: a label.
fn tag_at(text: &[u8], at: usize) -> Declaration
    requires { at < length text.now }
    ensures { result ≡ declaration_of 0x15 text.now at }
{
    let left = text.len() - at;
    if left < width::in_program(0x15) {
        return Declaration::EndsEarly;
    }
    let label = word::two_at(text, at + 1);
    Declaration::Tag(label)
}

// ROW: low, high, result. Low and high are judged before the result is looked for, so their 9 is no width.
fn row_at(text: &[u8], at: usize) -> Declaration
    requires { at < length text.now }
    ensures { result ≡ declaration_of 0x16 text.now at }
{
    let left = text.len() - at;
    if left < 9 {
        return Declaration::EndsEarly;
    }
    let low = word::word_at(text, at + 1);
    let high = word::word_at(text, at + 5);
    if high < low {
        return Declaration::OutOfRange;
    }
    if left < width::in_program(0x16) {
        return Declaration::EndsEarly;
    }
    let result = word::word_at(text, at + 9);
    Declaration::Row(low, high, result)
}

// The declaration at an offset of the program text, with its operands.
pub fn declaration_at(text: &[u8], at: usize) -> Declaration
    ensures { result ≡ declaration_at text.now at }
{
    if text.len() <= at {
        return Declaration::EndsEarly;
    }
    let byte = text[at];
    match byte {
        0x00 => Declaration::End,
        0x10 => signal_at(text, at, 0x10),
        0x11 => signal_at(text, at, 0x11),
        0x12 => latency_at(text, at),
        0x13 => link_at(text, at),
        0x14 => cap_at(text, at),
        0x15 => tag_at(text, at),
        0x16 => row_at(text, at),
        _ => Declaration::Unknown,
    }
}

// NOW and LAST.
fn plain_read(kind: Kind, text: &[u8], at: usize) -> Operator
    requires { at < length text.now }
    ensures { result ≡ plain_read kind text.now at }
{
    let left = text.len() - at;
    if left < width::in_expression(0x21) {
        return Operator::EndsEarly;
    }
    let signal = text[at + 1];
    Operator::Read(
        kind,
        Sampled {
            signal: signal,
            factor: 1,
            index: Index::Fixed(0),
        },
    )
}

// WHEN, LASTWHEN and CURRENT, whose factors go from `least` on.
fn sampled_read(least: u8, kind: Kind, text: &[u8], at: usize) -> Operator
    requires { (at < length text.now) × HasFactor least kind }
    ensures { result ≡ restricted least (sampled_read kind text.now at) }
{
    let left = text.len() - at;
    if left < width::in_expression(0x23) {
        return Operator::EndsEarly;
    }
    let signal = text[at + 1];
    let place = text[at + 2];
    let factor = text[at + 3];
    if !is_period(factor) {
        return Operator::OutOfRange;
    }
    if !is_index(place, factor) {
        return Operator::OutOfRange;
    }
    if factor < least {
        return Operator::OutOfRange;
    }
    let index = index_of(place);
    Operator::Read(
        kind,
        Sampled {
            signal: signal,
            factor: factor,
            index: index,
        },
    )
}

// CONST: a word.
fn constant_at(text: &[u8], at: usize) -> Operator
    requires { at < length text.now }
    ensures { result ≡ operator_of 0x20 text.now at }
{
    let left = text.len() - at;
    if left < width::in_expression(0x20) {
        return Operator::EndsEarly;
    }
    let w = word::word_at(text, at + 1);
    Operator::Constant(w)
}

// The read of a byte from 21 to 25.
fn kind_of(byte: u8) -> Kind
    ensures { result ≡ kind_of byte }
{
    match byte {
        0x21 => Kind::Now,
        0x22 => Kind::Last,
        0x23 => Kind::When,
        0x24 => Kind::LastWhen,
        _ => Kind::Current,
    }
}

// IF or TABLE, by its byte: one arm of the decoders, which with one more would be too large for their callers to take in.
fn if_or_table(byte: u8) -> Operator
    ensures { result ≡ if_or_table byte }
{
    match byte {
        0x3A => Operator::If,
        _ => Operator::Unary(Unary::Table),
    }
}

// The operator at an offset of an expression whose factors go from `least` on, with its operands. What acts alike is one arm,
// and its callers take it in.
pub fn operator_from(least: u8, text: &[u8], at: usize) -> Operator
    ensures { result ≡ operator_from least text.now at }
{
    if text.len() <= at {
        return Operator::EndsEarly;
    }
    let byte = text[at];
    match byte {
        0x20 => constant_at(text, at),
        0x21 | 0x22 => plain_read(kind_of(byte), text, at),
        0x23 | 0x24 | 0x25 => sampled_read(least, kind_of(byte), text, at),
        0x30 | 0x31 | 0x32 | 0x33 | 0x34 | 0x35 | 0x36 => Operator::Binary(word::binary_of(byte)),
        0x38 => Operator::Unary(Unary::Negate),
        0x3A | 0x3B => if_or_table(byte),
        _ => Operator::Unknown,
    }
}

// What stands at an offset of the schedule text.
pub fn schedule_command_at(text: &[u8], at: usize) -> ScheduleCommand
    ensures { result ≡ schedule_command_at text.now at }
{
    if text.len() <= at {
        return ScheduleCommand::EndsEarly;
    }
    let byte = text[at];
    if byte == 0x00 {
        return ScheduleCommand::End;
    }
    if byte != 0x40 {
        return ScheduleCommand::Unknown;
    }
    let left = text.len() - at;
    if left < width::in_schedule(0x40) {
        return ScheduleCommand::EndsEarly;
    }
    ScheduleCommand::Put(text[at + 1], text[at + 2])
}

// A read without its place: its kind and its operands.
#[derive(Clone, Copy)]
pub struct Taken {
    pub kind: Kind,
    pub operands: Sampled,
}

// How far behind its first byte the index of a read stands; of NOW and LAST, which have none, the byte itself is looked at.
fn index_place(plain: bool) -> usize
    ensures { result ≡ cond plain 0 2 }
{
    if plain { 0 } else { 2 }
}

// The read that stands at an offset of an accepted text. Kinds come mixed, so nothing branches by them.
pub fn taken_at(text: &[u8], at: usize) -> Taken
    requires { ReadStands text.now at }
    ensures { ReadTaken text.now at result }
{
    let byte = text[at];
    let signal = text[at + 1];
    let kind = kind_of(byte);
    let plain = byte < 0x23;
    let place = at + index_place(plain);
    let index = index_of(basics::select(plain, 0, text[place]));
    let factor = basics::select(plain, 1, text[place + 1]);
    Taken {
        kind: kind,
        operands: Sampled {
            signal: signal,
            factor: factor,
            index: index,
        },
    }
}

// The read that stands at an offset of an accepted text, as an operator.
fn standing_read(text: &[u8], at: usize) -> Operator
    requires { ReadStands text.now at }
    ensures { result ≡ operator_at text.now at }
{
    let taken = taken_at(text, at);
    let kind = taken.kind;
    let operands = taken.operands;
    Operator::Read(kind, operands)
}

// The operator that stands at an offset of an accepted text: nothing of it is judged again.
pub fn operator_at(text: &[u8], at: usize) -> Operator
    requires { OperatorStands text.now at }
    ensures { result ≡ operator_at text.now at }
{
    let byte = text[at];
    match byte {
        0x20 => constant_at(text, at),
        0x21 | 0x22 | 0x23 | 0x24 | 0x25 => standing_read(text, at),
        0x38 => Operator::Unary(Unary::Negate),
        0x3A | 0x3B => if_or_table(byte),
        _ => Operator::Binary(word::binary_of(byte)),
    }
}

fn unary_lookups(operator: Unary) -> usize
    ensures { (result ≡ unary_lookups operator) × (result ≤ 1) }
{
    match operator {
        Unary::Negate => 0,
        Unary::Table => 1,
    }
}

// How many TABLEs an operator is.
pub fn lookups_of(operator: Operator) -> usize
    ensures { (result ≡ lookups_of operator) × (result ≤ 1) }
{
    match operator {
        Operator::Unary(o) => unary_lookups(o),
        _ => 0,
    }
}

// How many operands an operator has.
pub fn operands_of(operator: Operator) -> usize
    ensures { result ≡ operands_of operator }
{
    match operator {
        Operator::Binary(_) => 2,
        Operator::Unary(_) => 1,
        Operator::If => 3,
        _ => 0,
    }
}
