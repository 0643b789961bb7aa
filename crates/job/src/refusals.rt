// Why a call refuses.
ghost use Rattle.std.specs.Prelude.{◌≡◌};
ghost use Rattle.job.specs.Refused.{number_of, row_of};

// The refusals of all calls, each with its number in document 01 beside it. A heavy row is given with its
// number, counted from 1.
#[derive(Clone, Copy, PartialEq, Eq, Debug)]
pub enum Refused {
    TooShort, // 1
    UnknownKind, // 2
    DigitOutOfRange, // 3
    FractionOutOfRange, // 4
    StepsOutOfRange, // 5
    WrongLength, // 6
    FillBitSet, // 7
    HeavyRow(usize), // 8
    TooManySteps, // 10
    DigitBeyond, // 11
    WrongCount, // 12
    NumberTooLarge, // 13
    OrderOutOfRange, // 14
    ScaledSteps, // 15
    Idle, // 20
    NoStepLeft, // 21
    NoBudget, // 22
    TooLittleRoom, // 23
    LimitBroken, // 24
}

impl Refused {
    // Its number.
    pub fn number(self) -> usize
        ensures { result ≡ number_of self }
    {
        match self {
            Refused::TooShort => 1,
            Refused::UnknownKind => 2,
            Refused::DigitOutOfRange => 3,
            Refused::FractionOutOfRange => 4,
            Refused::StepsOutOfRange => 5,
            Refused::WrongLength => 6,
            Refused::FillBitSet => 7,
            Refused::HeavyRow(_) => 8,
            Refused::TooManySteps => 10,
            Refused::DigitBeyond => 11,
            Refused::WrongCount => 12,
            Refused::NumberTooLarge => 13,
            Refused::OrderOutOfRange => 14,
            Refused::ScaledSteps => 15,
            Refused::Idle => 20,
            Refused::NoStepLeft => 21,
            Refused::NoBudget => 22,
            Refused::TooLittleRoom => 23,
            Refused::LimitBroken => 24,
        }
    }

    // The row that is given with it, 0 where none is.
    pub fn row(self) -> usize
        ensures { result ≡ row_of self }
    {
        match self {
            Refused::HeavyRow(row) => row,
            _ => 0,
        }
    }
}
