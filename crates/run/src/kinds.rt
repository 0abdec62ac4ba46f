// What differs by a run's kind: the cells that it scans with, what a partner beyond its area reads, its start levels, and how its
// levels are read.
ghost use Rattle.std.specs.Prelude.{◌≡◌, ◌≤◌, cond};
ghost use Rattle.basics.specs.Limits.{largest_size, highest_cap};
ghost use Rattle.run.specs.Kinds.{kind_of, by_kind, cells_of, beyond_of, on_of, off_of, size_limit};
ghost use Rattle.run.specs.Patches.{reading_of, bounds_of, read_as, held_between};

use super::Record;

// The kinds of run: an erosion, a dilation, and the erosion of a cropped sheet, with foreground beyond the frame.
#[derive(Clone, Copy, Debug, PartialEq, Eq)]
pub enum Kind {
    Eroding,
    Dilating,
    Cropping,
}

// The kinds, as a record has them.
// Kept: numbers, since callers have records in memory, and one that no start gives is answered.
pub const EROSION: u8 = 1;

pub const DILATION: u8 = 2;

// The edge rules: what lies beyond the frame.
pub const BACKGROUND: u8 = 0;

pub const FOREGROUND: u8 = 1;

// A record's kind: both erosions have one number, and differ by the edge rule.
pub fn kind_of(run: Record) -> Kind
    ensures { result ≡ kind_of run }
{
    if run.kind != EROSION {
        Kind::Dilating
    } else if run.edge != BACKGROUND {
        Kind::Cropping
    } else {
        Kind::Eroding
    }
}

// One of three, by the kind.
pub fn by_kind<T: Copy>(kind: Kind, erosion: T, dilation: T, cropped: T) -> T
    ensures { result ≡ by_kind kind erosion dilation cropped }
{
    match kind {
        Kind::Eroding => erosion,
        Kind::Dilating => dilation,
        Kind::Cropping => cropped,
    }
}

// The cells that lead to the partners: the element's for either erosion, turned about for a dilation.
pub fn scan_cells(run: Record) -> [[u8; 7]; 7]
    ensures { result ≡ cells_of run }
{
    let cells = element::rows_of(run.cells);
    match kind_of(run) {
        Kind::Dilating => element::turned_cells(cells),
        Kind::Eroding | Kind::Cropping => cells,
    }
}

// What a partner beyond the area reads; a margin starts with it.
pub fn beyond_of(run: Record) -> u16
    ensures { result ≡ beyond_of run }
{
    by_kind(kind_of(run), 0, row::NONE, row::NONE)
}

// The start levels on the foreground, and on the frame's background.
pub fn on_of(run: Record) -> u16
    ensures { result ≡ on_of run }
{
    by_kind(kind_of(run), row::NONE, 1, row::NONE)
}

pub fn off_of(run: Record) -> u16
    ensures { result ≡ off_of run }
{
    by_kind(kind_of(run), 0, row::NONE, 1)
}

// The greatest size that may be asked for.
pub fn size_limit(run: Record) -> usize
    ensures { result ≡ size_limit run }
{
    by_kind(kind_of(run), basics::LARGEST_SIZE, run.cap, run.cap)
}

// How a level is read: up to `limit` it is given `less` lower, but not below 0; above, `other` is given.
#[derive(Clone, Copy)]
pub struct Reading {
    pub limit: u16,
    pub less: u16,
    pub other: u16,
}

impl Reading {
    // The level as it is read. Kept: a test and a difference, for which the compiler makes a better loop of narrow rows than for
    // `saturating_sub` (measured).
    #[tactic(auto, unfolding(crate::specs::Patches::read_as))]
    pub fn read(self, level: u16) -> u16
        ensures { result ≡ read_as self level }
    {
        if self.limit < level {
            self.other
        } else if level < self.less {
            0
        } else {
            level - self.less
        }
    }
}

// How levels are collected: any of a plain erosion as it is; of a dilation, those above R + 1 as 0; of a cropped sheet's erosion
// one less, and those above R + 1 as 65,535.
pub fn reading_of(run: Record) -> Reading
    requires { run.cap ≤ highest_cap }
    ensures { result ≡ reading_of run }
{
    let kind = kind_of(run);
    let limit = run.cap as u16 + 1;
    Reading {
        limit: by_kind(kind, row::NONE, limit, limit),
        less: by_kind(kind, 0, 0, 1),
        other: by_kind(kind, 0, 0, row::NONE),
    }
}

// The levels that are held: those above `low` and at most `high`.
#[derive(Clone, Copy)]
pub struct Bounds {
    pub low: u16,
    pub high: u16,
}

impl Bounds {
    // Whether a level is held.
    #[tactic(auto, unfolding(crate::specs::Patches::held_between))]
    pub fn hold(self, level: u16) -> bool
        ensures { cond result 1 0 ≡ held_between self.low self.high level }
    {
        self.low < level && level <= self.high
    }
}

// Kept, here and where it is called: a size with its bound in a clause; a type of its own would be opened at each use.
// The levels that a run holds at a size: above the size for a plain erosion; from 1 to the size and one for a dilation; for a
// cropped sheet's erosion, whose levels are collected one less, above the size and one, at most R + 1.
pub fn bounds_of(run: Record, size: usize) -> Bounds
    requires { size ≤ largest_size }
    ensures { result ≡ bounds_of run size }
{
    let kind = kind_of(run);
    let size_level = size as u16;
    let most = size.min(run.cap) as u16 + 1;
    Bounds {
        low: by_kind(kind, size_level, 0, most),
        high: by_kind(kind, row::NONE, size_level + 1, row::NONE),
    }
}
