// What a case asks for and lends: that of the call's accepted case, but for the words of its line.

// The calls that are tried.
#[derive(Clone, Copy, Debug, PartialEq, Eq)]
pub enum Call {
    StartErosion,
    StartDilation,
    StartCropped,
    ContinueRun,
    Collect,
    Threshold,
    Provisional,
    WritePgm,
    Reflect,
    ReadPbm,
    WritePbm,
    Open,
    Close,
    OpeningLevels,
    ClosingLevels,
    DilateByMap,
    Spectrum,
}

// How many levels a case lends, how many more to work with or as a map, and how many bytes, levels or entries of room for the
// answer.
#[derive(Clone, Copy)]
pub struct Lent {
    pub levels: usize,
    pub more: usize,
    pub answer: usize,
}

// A case: the call; the frame; how many bytes of sheet are lent, and their value; the element's side, its bytes as decimal digits
// (9 stands for 255) and how many of them are lent; the size, cap or allowance; the record, by its number in `records`; how much
// else is lent, and what all of its levels are filled with.
#[derive(Clone, Copy)]
pub struct Case {
    pub call: Call,
    pub width: usize,
    pub height: usize,
    pub bytes: usize,
    pub value: usize,
    pub side: usize,
    pub element: usize,
    pub cells: usize,
    pub number: usize,
    pub run: usize,
    pub filled: usize,
    pub lent: Lent,
}

impl Call {
    pub fn from_name(name: &[u8]) -> Option<Self> {
        match name {
            b"start_erosion" => Some(Self::StartErosion),
            b"start_dilation" => Some(Self::StartDilation),
            b"start_cropped" => Some(Self::StartCropped),
            b"continue_run" => Some(Self::ContinueRun),
            b"collect" => Some(Self::Collect),
            b"threshold" => Some(Self::Threshold),
            b"provisional" => Some(Self::Provisional),
            b"write_pgm" => Some(Self::WritePgm),
            b"reflect" => Some(Self::Reflect),
            b"read_pbm" => Some(Self::ReadPbm),
            b"write_pbm" => Some(Self::WritePbm),
            b"open" => Some(Self::Open),
            b"close" => Some(Self::Close),
            b"opening_levels" => Some(Self::OpeningLevels),
            b"closing_levels" => Some(Self::ClosingLevels),
            b"dilate_by_map" => Some(Self::DilateByMap),
            b"spectrum" => Some(Self::Spectrum),
            _ => None,
        }
    }

    // What the accepted case lends.
    fn lent(self) -> Lent {
        let (levels, more, answer) = match self {
            Self::StartErosion | Self::ContinueRun => (9, 0, 0),
            Self::StartDilation | Self::StartCropped => (25, 0, 0),
            Self::Collect => (9, 0, 9),
            Self::Threshold | Self::Provisional => (9, 0, 3),
            Self::WritePgm => (9, 0, 41),
            Self::Reflect => (0, 0, 9),
            Self::ReadPbm => (0, 0, 1),
            Self::WritePbm => (0, 0, 10),
            Self::Open => (9, 9, 3),
            Self::Close => (25, 25, 3),
            Self::OpeningLevels => (9, 9, 9),
            Self::ClosingLevels => (25, 25, 9),
            Self::DilateByMap => (25, 9, 3),
            Self::Spectrum => (9, 9, 4),
        };
        Lent {
            levels,
            more,
            answer,
        }
    }
}

impl Case {
    // The accepted case of a call: a full sheet 3 by 3, the cross, size 1, and a run with all rows done.
    pub fn accepted(call: Call) -> Self {
        Self {
            call,
            width: 3,
            height: 3,
            bytes: 3,
            value: 224,
            side: 3,
            element: 10111010,
            cells: 9,
            number: 1,
            run: 2,
            filled: 0,
            lent: call.lent(),
        }
    }

    // The case with one number changed, which is named by the first letter of its word; another letter names none.
    pub fn changed(self, letter: u8, number: usize) -> Option<Self> {
        let mut next = self;
        match letter {
            b'w' => next.width = number,
            b'h' => next.height = number,
            b'b' => next.bytes = number,
            b'v' => next.value = number,
            b's' => next.side = number,
            b'e' => next.element = number,
            b'c' => next.cells = number,
            b'n' => next.number = number,
            b'r' => next.run = number,
            b'f' => next.filled = number,
            b'l' => next.lent.levels = number,
            b'm' => next.lent.more = number,
            b'a' => next.lent.answer = number,
            _ => return None,
        }
        Some(next)
    }
}
