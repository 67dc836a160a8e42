// The command lists of the paper, read as widths: how many bytes each command takes, its own byte and its operands, without the
// expression or the LINKs that follow. A byte that is not listed for its kind of text has none.
#![tactic(auto)]

ghost use Rattle.std.specs.Prelude.{◌≡◌};
ghost use Rattle.model.specs.Rules.Width.{
  program_width,
  expression_width,
  schedule_width,
  code_width,
  script_width,
  in_program,
  in_expression,
  in_schedule,
  in_code,
  in_script,
  read_width,
};

use model::Kind;

// A program text.
pub fn program(byte: u8) -> Option<usize>
    ensures { result ≡ program_width byte }
{
    match byte {
        // END
        0x00 => Some(1),
        // IN period, word
        0x10 => Some(6),
        // EQ period, word, weight
        0x11 => Some(8),
        // LAT mode, bound
        0x12 => Some(4),
        // LINK signal
        0x13 => Some(2),
        // CAP limit
        0x14 => Some(5),
        // TAG label
        0x15 => Some(3),
        // ROW low, high, result
        0x16 => Some(13),
        _ => None,
    }
}

// An expression.
pub fn expression(byte: u8) -> Option<usize>
    ensures { result ≡ expression_width byte }
{
    match byte {
        // CONST word
        0x20 => Some(5),
        // NOW, LAST signal
        0x21..=0x22 => Some(2),
        // WHEN, LASTWHEN, CURRENT signal, i, n
        0x23..=0x25 => Some(4),
        // ADD to MAX
        0x30..=0x36 => Some(1),
        // NEG
        0x38 => Some(1),
        // IF
        0x3A => Some(1),
        // TABLE
        0x3B => Some(1),
        _ => None,
    }
}

// A schedule text.
pub fn schedule(byte: u8) -> Option<usize>
    ensures { result ≡ schedule_width byte }
{
    match byte {
        // END
        0x00 => Some(1),
        // PUT signal, phase
        0x40 => Some(3),
        _ => None,
    }
}

// An image's code.
pub fn code(byte: u8) -> Option<usize>
    ensures { result ≡ code_width byte }
{
    match byte {
        // ADD to MAX
        0x30..=0x36 => Some(1),
        // NEG
        0x38 => Some(1),
        // IF
        0x3A => Some(1),
        // TABLE
        0x3B => Some(1),
        // PUSH word
        0x50 => Some(5),
        // LOAD, FETCH signal
        0x51..=0x52 => Some(2),
        // STORE signal
        0x5F => Some(2),
        _ => None,
    }
}

// Script of a bench trial.
pub fn script(byte: u8) -> Option<usize>
    ensures { result ≡ script_width byte }
{
    match byte {
        // END
        0x00 => Some(1),
        // SET signal, word
        0x70 => Some(6),
        // RUN count
        0x71 => Some(2),
        _ => None,
    }
}

// How far the command of a listed byte reaches, for each kind of text; 0 for another byte. Five functions of one line: a type
// for each kind with a trait for its list would be longer, and no plainer at a call.
pub fn in_program(byte: u8) -> usize
    ensures { result ≡ in_program byte }
{
    program(byte).unwrap_or(0)
}

pub fn in_expression(byte: u8) -> usize
    ensures { result ≡ in_expression byte }
{
    expression(byte).unwrap_or(0)
}

pub fn in_schedule(byte: u8) -> usize
    ensures { result ≡ in_schedule byte }
{
    schedule(byte).unwrap_or(0)
}

pub fn in_code(byte: u8) -> usize
    ensures { result ≡ in_code byte }
{
    code(byte).unwrap_or(0)
}

pub fn in_script(byte: u8) -> usize
    ensures { result ≡ in_script byte }
{
    script(byte).unwrap_or(0)
}

// The reads, by their kinds.
pub fn of_read(kind: Kind) -> usize
    ensures { result ≡ read_width kind }
{
    match kind {
        Kind::Now => in_expression(0x21),
        Kind::Last => in_expression(0x22),
        Kind::When => in_expression(0x23),
        Kind::LastWhen => in_expression(0x24),
        Kind::Current => in_expression(0x25),
    }
}
