// Why a call is refused: document 01's table of answers, but for 0, done, and 1, none.
#![tactic(auto)]

ghost use Rattle.std.specs.Prelude.{◌≡◌};
ghost use Rattle.answers.specs.Answers.{number};

use std::fmt;

#[derive(Clone, Copy, Debug, PartialEq, Eq)]
pub enum Refusal {
    HeadBroken,
    SizesOutside,
    TooShort,
    RecordOutside,
    LowAboveHigh,
    KeyHeld,
    DamageMet,
    NoBlocks,
    NoLabel,
}

impl Refusal {
    // The number that document 01 gives it.
    pub fn number(self) -> u32
        ensures { result ≡ number self }
    {
        match self {
            Refusal::HeadBroken => 3,
            Refusal::SizesOutside => 4,
            Refusal::TooShort => 5,
            Refusal::RecordOutside => 6,
            Refusal::LowAboveHigh => 7,
            Refusal::KeyHeld => 8,
            Refusal::DamageMet => 9,
            Refusal::NoBlocks => 10,
            Refusal::NoLabel => 11,
        }
    }
}

impl fmt::Display for Refusal {
    fn fmt<W: fmt::Write>(&self, f: &mut fmt::Formatter<W>) -> fmt::Result {
        match self {
            Refusal::HeadBroken => write!(f, "the head rule is broken"),
            Refusal::SizesOutside => write!(f, "a size is outside its limits"),
            Refusal::TooShort => write!(f, "the slice is shorter than the store"),
            Refusal::RecordOutside => write!(f, "the record or today is outside its limits"),
            Refusal::LowAboveHigh => write!(f, "low is above high"),
            Refusal::KeyHeld => write!(f, "the key is already held"),
            Refusal::DamageMet => write!(f, "a damaged block was visited"),
            Refusal::NoBlocks => write!(f, "the entry needs more blocks than remain"),
            Refusal::NoLabel => write!(f, "the label or key is outside its limits"),
        }
    }
}
