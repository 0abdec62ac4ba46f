// Records that a start could give, and the area that their runs work on.
ghost use Rattle.std.specs.Prelude.{◌≡◌, false, ◌≤◌};
ghost use Rattle.basics.specs.Limits.{longest_side, most_rows};
ghost use Rattle.run.specs.Records.{area_width, area_height, area_of, due, foreign, frame_of};
ghost use Rattle.run.specs.Continuing.{levels_wrong, is_done};

use super::records::{self, Frame};
use super::{Record, kinds};
use row::Area;

// A record that a start could give, rows done aside.
#[derive(Clone, Copy)]
pub struct Sound {
    pub run: Record,
    pub ghost taken: { foreign run ≡ false },
}

impl Sound {
    // Its frame, with its margin.
    pub fn frame(self) -> Frame
        ensures { (result ≡ frame_of self.run) × (result.margin ≤ 6141) }
    {
        records::frame_of(self.run)
    }

    // The sides of the area.
    pub fn area_width(self) -> usize
        ensures { (result ≡ area_width self.run) × ((1 ≤ result) × (result ≤ longest_side)) }
    {
        self.frame().area_width()
    }

    pub fn area_height(self) -> usize
        ensures { (result ≡ area_height self.run) × ((1 ≤ result) × (result ≤ longest_side)) }
    {
        self.frame().area_height()
    }

    // The area that its run works on.
    #[tactic(auto, using(crate::proofs::RecordLaws::sounds))]
    pub fn area(self) -> Area
        ensures { result ≡ area_of self.run }
    {
        Area {
            width: self.area_width(),
            height: self.area_height(),
            beyond: kinds::beyond_of(self.run),
            cells: kinds::scan_cells(self.run),
        }
    }

    // The rows due in all.
    pub fn rows_due(self) -> usize
        ensures { (result ≡ due self.run) × (result ≤ most_rows) }
    {
        2 * self.area_height()
    }

    // Whether all of them are done.
    pub fn all_done(self) -> bool
        ensures { result ≡ is_done self.run }
    {
        self.run.rows == self.rows_due()
    }

    // Whether the levels lent are not one for each point of the area.
    pub fn levels_wrong(self, levels: &[u16]) -> bool
        ensures { result ≡ levels_wrong self.run levels.now }
    {
        levels.len() != self.area_height() * self.area_width()
    }
}
