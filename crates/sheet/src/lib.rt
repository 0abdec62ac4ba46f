// Sheets: the packed raster, its checks and its pixels.
#![tactic(auto)]

ghost use Rattle.std.specs.Prelude.{◌≡◌, ◌+◌, ◌*◌, ◌/◌, ◌<◌, ◌≤◌, length};
ghost use Rattle.basics.specs.Limits.{longest_side};
ghost use Rattle.basics.specs.Refusals.{first, number};
ghost use Rattle.sheet.specs.Sheets.{row_bytes, is_side_out, frame_refusals, sheet_refusals, pixel};

use basics::Refusal;

// The bytes of a row.
pub fn row_bytes(width: usize) -> usize
    requires { width ≤ longest_side }
    ensures { result ≡ row_bytes width }
{
    (width + 7) / 8
}

#[tactic(auto, unfolding(crate::specs::Sheets::is_side_out))]
pub fn is_side_out(side: usize) -> bool
    ensures { result ≡ is_side_out side }
{
    side == 0 || basics::LONGEST_SIDE < side
}

// Refusal 2 of a frame.
pub fn check_frame(width: usize, height: usize) -> Result<(), Refusal>
    ensures { number result ≡ first (frame_refusals width height) }
{
    if is_side_out(width) || is_side_out(height) {
        return Err(Refusal::FrameSide);
    }
    Ok(())
}

// Refusals 2 and 3 of a sheet.
pub fn check_sheet(width: usize, height: usize, sheet: &[u8]) -> Result<(), Refusal>
    ensures { number result ≡ first (sheet_refusals width height sheet.now) }
{
    check_frame(width, height)?;
    if sheet.len() != height * row_bytes(width) {
        return Err(Refusal::SheetLength);
    }
    Ok(())
}

// The pixel at a row and a column of the frame.
pub fn pixel_at(width: usize, sheet: &[u8], row: usize, col: usize) -> u8
    requires { (width ≤ longest_side) × ((row < longest_side) ×
        ((col < width) × (row * row_bytes width + col / 8 < length sheet.now))) }
    ensures { result ≡ pixel width sheet.now row col }
{
    let byte = sheet[row * row_bytes(width) + col / 8];
    (byte >> (7 - col % 8)) % 2
}
