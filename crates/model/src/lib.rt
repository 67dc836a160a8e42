// The types that the definitions of specs/ and the code of the other crates share, and the numbers of the refusals.
#![tactic(auto)]

ghost use Rattle.std.specs.Prelude.{None, ◌≡◌};

pub mod refusals;

pub use refusals::Refusal;

// The index of a read: one of its n, or left open for the schedule to settle (255 in the text).
#[derive(Clone, Copy)]
pub enum Index {
    Fixed(u8),
    Open,
}

// The operands of a read. NOW and LAST have neither factor nor index in the text; theirs are 1 and 0.
#[derive(Clone, Copy)]
pub struct Sampled {
    pub signal: u8,
    pub factor: u8,
    pub index: Index,
}

// The five reads.
#[derive(Clone, Copy)]
pub enum Kind {
    Now,
    Last,
    When,
    LastWhen,
    Current,
}

// The operators with two operands.
#[derive(Clone, Copy)]
pub enum Binary {
    Add,
    Sub,
    Mul,
    Less,
    Same,
    Min,
    Max,
}

// The operators with one operand.
#[derive(Clone, Copy)]
pub enum Unary {
    Negate,
    // the result of the row that contains the operand
    Table,
}

// The mode of a latency constraint.
#[derive(Clone, Copy)]
pub enum Mode {
    Exists,
    Backward,
}

// The commands are enums with an end-early and an unknown case, and no Results: paper 01 asks for that form.

// A command of the program text that is none of an expression, with its operands; the expression of an EQ and the LINKs of a
// LAT are commands of their own.
#[derive(Clone, Copy)]
pub enum Declaration {
    // no byte is left, or an operand is cut off by the end of the text
    EndsEarly,
    // no declaration has this byte
    Unknown,
    // an operand is outside its range
    OutOfRange,
    End,
    // period, initial word
    Input(u8, i32),
    // period, initial word, weight
    Equation(u8, i32, u16),
    // mode, bound
    Latency(Mode, u16),
    // signal
    Link(u8),
    // limit
    Cap(u32),
    // label
    Tag(u16),
    // low, high, result
    Row(i32, i32, i32),
}

// A command of an expression with its operands; the expressions that it is applied to are commands of their own.
#[derive(Clone, Copy)]
pub enum Operator {
    // no byte is left, or an operand is cut off by the end of the text
    EndsEarly,
    // no operator has this byte
    Unknown,
    // an operand is outside its range
    OutOfRange,
    Constant(i32),
    Read(Kind, Sampled),
    Binary(Binary),
    Unary(Unary),
    If,
}

// A command of the schedule text.
#[derive(Clone, Copy)]
pub enum ScheduleCommand {
    // no byte is left, or an operand is cut off by the end of the text
    EndsEarly,
    // no command has this byte
    Unknown,
    End,
    // signal, phase
    Put(u8, u8),
}

// A command of a bench trial's script.
#[derive(Clone, Copy)]
pub enum ScriptCommand {
    // no byte is left, or an operand is cut off by the end of the text
    EndsEarly,
    // no command has this byte
    Unknown,
    End,
    // signal, word
    Set(u8, i32),
    // count
    Run(u8),
}

// A command of an image's code.
#[derive(Clone, Copy)]
pub enum Code {
    // no byte is left, or an operand is cut off by the end of the code
    EndsEarly,
    // no command has this byte
    Unknown,
    Push(i32),
    Load(u8),
    Fetch(u8),
    Store(u8),
    Binary(Binary),
    Unary(Unary),
    If,
}

// An operand of a command: an unsigned number of 1, 2 or 4 bytes, a word, the index of a read, the mode of a LAT.
#[derive(Clone, Copy)]
pub enum Operand {
    One,
    Two,
    Four,
    Signed,
    Index,
    Mode,
}

// A refusal: its number and its place. A number and no `Refusal`: C callers get it, and the definitions have the paper's numbers.
#[derive(Clone, Copy)]
pub struct Fault {
    pub number: u8,
    pub place: usize,
}

// Why `join` refuses: the refusal, and the part that it names where it is one inside a part.
#[derive(Clone, Copy)]
pub struct JoinFault {
    pub fault: Fault,
    pub part: Option<usize>,
}

// A refusal that names no part.
impl From<Fault> for JoinFault {
    ghost from_gives = { λ fault e. e ≡ record { fault = fault; part = None } };

    fn from(fault: Fault) -> JoinFault {
        JoinFault { fault, part: None }
    }
}

// What an accepted pair needs: the image's length, that with its tail, and the highest stack use of any signal.
#[derive(Clone, Copy)]
pub struct Sizes {
    pub length: usize,
    pub written: usize,
    pub stack: usize,
}
