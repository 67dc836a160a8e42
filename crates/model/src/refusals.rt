// The refusals, under the names of the C header and with the numbers of the paper; docs/REFUSALS.md says what each means.
#[derive(Clone, Copy, PartialEq, Eq)]
pub enum Refusal {
    // The lengths of both texts, the program text, and what it declares.
    TextTooLong = 1,
    ProgramEndsEarly = 2,
    NoSuchCommand = 3,
    OverABound = 4,
    OperandOutOfRange = 5,
    BytesAfterEnd = 6,
    UndeclaredSignal = 7,
    PeriodRuleBroken = 8,
    HypercycleTooLong = 9,
    LinkNotReadOnce = 10,

    // Its rows.
    WordInTwoRows = 29,
    WordInNoRow = 30,

    // The schedule text, and program and schedule together.
    ScheduleText = 11,
    SignalNotOnce = 12,
    Phase = 13,
    ReadUnmet = 14,
    OverCap = 15,
    Latency = 16,

    // A lent buffer that is shorter than what is to be written.
    ImageBufferShort = 17,

    // Image, state and samples.
    ImageNotWellFormed = 20,
    StateShort = 21,
    Position = 22,
    SamplesShort = 23,

    // The script of a bench trial.
    ScriptText = 24,
    SetOfNoInput = 25,

    // A board.
    NoSuchPlace = 26,
    StretchOutside = 27,
    NeverLoaded = 28,

    // The links and rows of a join.
    WrongLink = 31,

    // The text form.
    UnknownWord = 40,
    OperandMissing = 41,
    NoNumber = 42,
    NumberOutside = 43,
    TextBufferShort = 44,
    UnknownByte = 45,
    OperandCut = 46,
    FormTooLong = 47,

    // Dependents.
    NoInput = 48,
}

// The refusal of a number, where there is one.
impl TryFrom<u8> for Refusal {
    ghost use Rattle.std.specs.Prelude.{◌≡◌, ◌≢◌, IfOk, IsErr};
    ghost use Rattle.model.specs.Rules.Refusal.{number_of};

    type Error = ();

    fn try_from(number: u8) -> Result<Self, ()>
        ensures named { IfOk result (λ refusal. number_of refusal ≡ number) }
        ensures none { IsErr result → (refusal : Refusal) → number_of refusal ≢ number }
    {
        match number {
            1 => Ok(Refusal::TextTooLong),
            2 => Ok(Refusal::ProgramEndsEarly),
            3 => Ok(Refusal::NoSuchCommand),
            4 => Ok(Refusal::OverABound),
            5 => Ok(Refusal::OperandOutOfRange),
            6 => Ok(Refusal::BytesAfterEnd),
            7 => Ok(Refusal::UndeclaredSignal),
            8 => Ok(Refusal::PeriodRuleBroken),
            9 => Ok(Refusal::HypercycleTooLong),
            10 => Ok(Refusal::LinkNotReadOnce),
            29 => Ok(Refusal::WordInTwoRows),
            30 => Ok(Refusal::WordInNoRow),
            11 => Ok(Refusal::ScheduleText),
            12 => Ok(Refusal::SignalNotOnce),
            13 => Ok(Refusal::Phase),
            14 => Ok(Refusal::ReadUnmet),
            15 => Ok(Refusal::OverCap),
            16 => Ok(Refusal::Latency),
            17 => Ok(Refusal::ImageBufferShort),
            20 => Ok(Refusal::ImageNotWellFormed),
            21 => Ok(Refusal::StateShort),
            22 => Ok(Refusal::Position),
            23 => Ok(Refusal::SamplesShort),
            24 => Ok(Refusal::ScriptText),
            25 => Ok(Refusal::SetOfNoInput),
            26 => Ok(Refusal::NoSuchPlace),
            27 => Ok(Refusal::StretchOutside),
            28 => Ok(Refusal::NeverLoaded),
            31 => Ok(Refusal::WrongLink),
            40 => Ok(Refusal::UnknownWord),
            41 => Ok(Refusal::OperandMissing),
            42 => Ok(Refusal::NoNumber),
            43 => Ok(Refusal::NumberOutside),
            44 => Ok(Refusal::TextBufferShort),
            45 => Ok(Refusal::UnknownByte),
            46 => Ok(Refusal::OperandCut),
            47 => Ok(Refusal::FormTooLong),
            48 => Ok(Refusal::NoInput),
            _ => Err(()),
        }
    }
}
