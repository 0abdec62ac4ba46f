// Why a call is refused.
ghost use Rattle.std.specs.Prelude.{◌≡◌};
ghost use Rattle.basics.specs.Refusals.{number_of};

use std::error::Error;
use std::fmt;

// The refusals of docs/RULES.md, by their numbers; `Ok` stands for 0, acceptance.
#[derive(Clone, Copy, Debug, PartialEq, Eq, Hash)]
pub enum Refusal {
    Record = 1,
    FrameSide = 2,
    SheetLength = 3,
    ElementSide = 4,
    ElementByte = 5,
    CentreUnset = 6,
    CentreAlone = 7,
    Size = 8,
    CanvasSide = 9,
    LevelsLength = 10,
    OutputLength = 11,
    Allowance = 12,
    RowsDue = 13,
    BlankSheet = 14,
    NoPbm = 21,
    Header = 22,
    ShortRaster = 23,
    LongRaster = 24,
}

impl Refusal {
    // The number of docs/RULES.md.
    pub fn number(self) -> u32
        ensures { result ≡ number_of self }
    {
        self as u32
    }
}

impl fmt::Display for Refusal {
    fn fmt<W: fmt::Write>(&self, f: &mut fmt::Formatter<W>) -> fmt::Result {
        write!(f, "refused {}", self.number())
    }
}

impl Error for Refusal {}
