// Runs: starting, continuing, collecting and thresholding erosions, dilations and erosions of cropped sheets, and a look at one
// under way.
#![tactic(auto)]

pub mod continuing;
pub mod kinds;
pub mod pictures;
pub mod provisional;
pub mod records;
pub mod sound;
pub mod starting;

// The numbers of an input: the sides of the frame, and the element's side.
#[derive(Clone, Copy)]
pub struct Input {
    pub width: usize,
    pub height: usize,
    pub side: usize,
}

// A run's record. Kind 1 is an erosion, 2 a dilation; the cells are the element's 49 in one flat row, as given. The edge rule is 0
// where background lies beyond the frame and 1 where foreground does, as for an erosion of a cropped sheet; a plain erosion has no
// cap, which is then 0.
// Kept: the kind and the edge rule are numbers, since callers have records in memory, and one that no start gives is answered.
#[derive(Clone, Copy)]
pub struct Record {
    pub kind: u8,
    pub width: usize,
    pub height: usize,
    pub cap: usize,
    pub side: usize,
    pub rows: usize,
    pub cells: [u8; 49],
    pub edge: u8,
}
