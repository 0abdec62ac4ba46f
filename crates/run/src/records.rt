// Records: whether a start could have given one, and the frame of its run.
ghost use Rattle.std.specs.Prelude.{◌≡◌, true, ◌*◌, ◌^◌, ◌<◌, ◌≤◌, [], ◌∷◌, IfOk};
ghost use Rattle.basics.specs.Limits.{longest_side, highest_cap};
ghost use Rattle.basics.specs.Refusals.{first, number};
ghost use Rattle.basics.specs.Tables.{table};
ghost use Rattle.element.specs.Elements.{is_side};
ghost use Rattle.run.specs.Records.{margin_of, canvas_side, outside, any_outside, element_foreign};
ghost use Rattle.run.specs.Records.{kind_foreign, cap_foreign, foreign, record_bad, frame_of};
ghost use Rattle.run.specs.Patches.{Canvas, level_in};

use super::kinds::Kind;
use super::sound::Sound;
use super::{Record, kinds};
use basics::Refusal;

// A frame, and the margin of the canvas around it.
#[derive(Clone, Copy)]
pub struct Frame {
    pub width: usize,
    pub height: usize,
    pub margin: usize,
}

impl Frame {
    // The sides of the area: the frame's, with the margin on both sides. Kept: a method for each, here and of `Sound`; one that
    // took which side would be longer at each call.
    // Kept: one method, as in frame.area_side(frame.width), would be no plainer.
    pub fn area_width(self) -> usize
        requires { canvas_side self.width self.margin ≤ 2 ^ 32 }
        ensures { result ≡ canvas_side self.width self.margin }
    {
        self.width + 2 * self.margin
    }

    pub fn area_height(self) -> usize
        requires { canvas_side self.height self.margin ≤ 2 ^ 32 }
        ensures { result ≡ canvas_side self.height self.margin }
    {
        self.height + 2 * self.margin
    }

    // The levels of a row of the frame, of those of the area.
    pub fn row(self, levels: &[u16], row: usize) -> &[u16]
        requires { Canvas self.width self.height self.margin levels.now × (row < self.height) }
        ensures { result.now ≡ table self.width (level_in self.width self.margin levels.now row) }
    {
        let from = (row + self.margin) * self.area_width() + self.margin;
        &levels[from..from + self.width]
    }
}

// Whether cell `k` is set though it lies outside the side's square.
#[tactic(auto, unfolding(crate::specs::Records::outside))]
fn is_outside(side: usize, cell: u8, k: usize) -> bool
    requires { is_side side ≡ true }
    ensures { result ≡ outside side cell k }
{
    cell != 0 && !(element::is_held(side, k / 7) && element::is_held(side, k % 7))
}

fn any_outside(side: usize, cells: [u8; 49]) -> bool
    requires { is_side side ≡ true }
    ensures { result ≡ any_outside side cells 0 }
{
    for k in 0..49 {
        if is_outside(side, cells[k], k) {
            return true;
        }
    }
    false
}

// Whether no start takes the element.
#[tactic(auto, unfolding(crate::specs::Records::element_foreign))]
fn element_foreign(side: usize, cells: [u8; 49]) -> bool
    ensures { result ≡ element_foreign side cells }
{
    !element::is_side(side)
        || element::any_above_one(&cells)
        || any_outside(side, cells)
        || cells[24] == 0
        || element::count_set(&cells) == 1
}

// The margin of the canvas.
pub fn margin_of(cap: usize, side: usize) -> usize
    requires { (is_side side ≡ true) × (cap ≤ highest_cap) }
    ensures { (result ≡ margin_of cap side) × (result ≤ 6141) }
{
    cap * ((side - 1) / 2)
}

// A run's frame, with its margin.
pub fn frame_of(run: Record) -> Frame
    requires { (is_side run.side ≡ true) × (run.cap ≤ highest_cap) }
    ensures { (result ≡ frame_of run) × (result.margin ≤ 6141) }
{
    Frame {
        width: run.width,
        height: run.height,
        margin: margin_of(run.cap, run.side),
    }
}

// Whether no start gives the kind with the edge rule, or a plain erosion with a cap.
#[tactic(auto, unfolding(crate::specs::Records::kind_foreign))]
fn kind_foreign(run: Record) -> bool
    ensures { result ≡ kind_foreign run }
{
    match kinds::kind_of(run) {
        Kind::Eroding => run.cap != 0,
        Kind::Dilating => run.kind != kinds::DILATION || run.edge != kinds::BACKGROUND,
        Kind::Cropping => run.edge != kinds::FOREGROUND,
    }
}

// Whether no start takes the cap, on the canvas that it gives.
#[tactic(auto, unfolding(crate::specs::Records::cap_foreign))]
fn cap_foreign(run: Record) -> bool
    requires { (is_side run.side ≡ true) × ((run.width ≤ longest_side) × (run.height ≤ longest_side)) }
    ensures { result ≡ cap_foreign run }
{
    if basics::HIGHEST_CAP < run.cap {
        return true;
    }
    let frame = frame_of(run);
    basics::LONGEST_SIDE < frame.area_width() || basics::LONGEST_SIDE < frame.area_height()
}

// Whether no start gives the record, rows done aside.
#[tactic(auto, using(crate::proofs::RecordLaws::parts), unfolding(crate::specs::Records::foreign))]
fn record_foreign(run: Record) -> bool
    ensures { result ≡ foreign run }
{
    sheet::is_side_out(run.width)
        || sheet::is_side_out(run.height)
        || element_foreign(run.side, run.cells)
        || kind_foreign(run)
        || cap_foreign(run)
}

// Whether no start gives the record, or more rows are done than due.
#[tactic(auto, unfolding(crate::specs::Records::record_bad))]
pub fn record_bad(run: Record) -> bool
    ensures { result ≡ record_bad run }
{
    record_foreign(run) || Sound { run }.rows_due() < run.rows
}

// Refusal 1.
#[tactic(auto, using(crate::proofs::RecordLaws::not_foreign))]
pub fn check_record(run: Record) -> Result<Sound, Refusal>
    ensures { (number result ≡ first ((1, record_bad run) ∷ [])) × IfOk result (λ sound. sound.run ≡ run) }
{
    if record_bad(run) {
        return Err(Refusal::Record);
    }
    Ok(Sound { run })
}
