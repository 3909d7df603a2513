// Why a call refuses: one fault type for all layers, passed up as it is.
ghost use Rattle.std.specs.Prelude.{◌≡◌, Some};
ghost use Rattle.units.specs.Refusals.{refusal, refusal_text};

use crate::unit::Unit;
use std::error::Error;
use std::fmt;

// Each case carries exactly what its refusal tells.
#[derive(Clone, Copy, PartialEq, Eq, Debug)]
pub enum Fault {
    FractionAlreadySet,
    OutOfOrderUnits { found: Unit, previous: Unit },
    OutOfOrderHMS { found: Unit },
    FractionTooLarge,
    NotAllowedFractionalUnit { found: Unit },
    NotAllowedNegative,
    EmptyDuration,
    NotAllowedCalendarUnit { unit: Unit },
    SignedOverflowForUnit { unit: Unit },
    OverflowForUnit { unit: Unit },
    OverflowForUnitFractional { unit: Unit },
    FailedValueSet { unit: Unit },
    InvalidFractionNanos,
    IntegerTooBig,
    MissingFractionalDigits,
    NoFractionDigits,
    TooManyFractionDigits,
    InvalidFractionDigit { byte: u8 },
    SpanLimitPassed,
    TextTooLong,
    MissingDesignatorP,
    MissingNumber,
    WrongDesignator,
    BufferTooShort,
}

// What a refusal tells besides its number.
#[derive(Clone, Copy, PartialEq, Eq, Debug)]
pub enum Told {
    Nothing,
    Unit(Unit),
    Units { found: Unit, previous: Unit },
    Byte(u8),
}

impl Fault {
    // The number that the refusal is known by.
    pub fn number(&self) -> u8
        ensures { result ≡ (refusal self.now).number }
    {
        match self {
            Fault::FractionAlreadySet => 1,
            Fault::OutOfOrderUnits { .. } => 2,
            Fault::OutOfOrderHMS { .. } => 3,
            Fault::FractionTooLarge => 4,
            Fault::NotAllowedFractionalUnit { .. } => 5,
            Fault::NotAllowedNegative => 6,
            Fault::EmptyDuration => 7,
            Fault::NotAllowedCalendarUnit { .. } => 8,
            Fault::SignedOverflowForUnit { .. } => 9,
            Fault::OverflowForUnit { .. } => 10,
            Fault::OverflowForUnitFractional { .. } => 11,
            Fault::FailedValueSet { .. } => 12,
            Fault::InvalidFractionNanos => 13,
            Fault::IntegerTooBig => 14,
            Fault::MissingFractionalDigits => 15,
            Fault::NoFractionDigits => 16,
            Fault::TooManyFractionDigits => 17,
            Fault::InvalidFractionDigit { .. } => 18,
            Fault::SpanLimitPassed => 19,
            Fault::TextTooLong => 20,
            Fault::MissingDesignatorP => 21,
            Fault::MissingNumber => 22,
            Fault::WrongDesignator => 23,
            Fault::BufferTooShort => 24,
        }
    }

    // What the refusal tells besides its number.
    pub fn tells(&self) -> Told
        ensures { result ≡ (refusal self.now).tells }
    {
        match *self {
            Fault::OutOfOrderUnits { found, previous } => Told::Units { found, previous },
            Fault::OutOfOrderHMS { found } | Fault::NotAllowedFractionalUnit { found } => {
                Told::Unit(found)
            }
            Fault::NotAllowedCalendarUnit { unit }
            | Fault::SignedOverflowForUnit { unit }
            | Fault::OverflowForUnit { unit }
            | Fault::OverflowForUnitFractional { unit }
            | Fault::FailedValueSet { unit } => Told::Unit(unit),
            Fault::InvalidFractionDigit { byte } => Told::Byte(byte),
            _ => Told::Nothing,
        }
    }
}

// `refused` and its number; what else it tells is in `tells`.
impl fmt::Display for Fault {
    ghost output = { λ fault. Some (refusal_text fault) };

    fn fmt<W: fmt::Write>(&self, f: &mut fmt::Formatter<W>) -> fmt::Result {
        let number = self.number();
        write!(f, "refused {number}")
    }
}

impl Error for Fault {}
