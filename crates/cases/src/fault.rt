// What ends the program early: an input that can't be read, a line that can't be printed, or a refusal where a case wants a value.
use basics::Refusal;
use std::{fmt, io};

#[derive(Drop)]
pub enum Fault {
    Io(io::Error),
    Refused(Refusal),
}

pub type Result<T, E = Fault> = std::result::Result<T, E>;

impl From<io::Error> for Fault {
    fn from(error: io::Error) -> Self {
        Self::Io(error)
    }
}

impl From<Refusal> for Fault {
    fn from(refusal: Refusal) -> Self {
        Self::Refused(refusal)
    }
}

// Printed where `main` ends with it: an error of input or output as it is by itself.
impl fmt::Debug for Fault {
    fn fmt<W: fmt::Write>(&self, f: &mut fmt::Formatter<W>) -> fmt::Result {
        match self {
            Self::Io(error) => fmt::Debug::fmt(error, f),
            Self::Refused(refusal) => fmt::Display::fmt(refusal, f),
        }
    }
}
