// What every layer shares: why a call is refused, how it answers, tables, limits, and laws about them. Its only code are the limits
// and the refusals.
#![tactic(auto)]

mod copying;
mod refusal;

pub use copying::copy;
pub use refusal::Refusal;

// A side of a frame or of a canvas.
pub const LONGEST_SIDE: usize = 4096;

// A size of an erosion or of an opening.
pub const LARGEST_SIZE: usize = 4096;

// A cap, and a size of a closing.
pub const HIGHEST_CAP: usize = 2047;

// An allowance; no run has more rows due.
pub const MOST_ROWS: usize = 8192;
