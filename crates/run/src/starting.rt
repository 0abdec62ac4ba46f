// Starting a run: the three starts judge their inputs, make the record, and fill the levels by it.
ghost use Rattle.std.specs.Prelude.{◌≡◌, true, cond, ◌++◌, ◌+◌, ◌*◌, ◌<◌, ◌≤◌, eqb, length};
ghost use Rattle.basics.specs.Limits.{longest_side, highest_cap};
ghost use Rattle.basics.specs.Refusals.{first, number, value_or, Answers};
ghost use Rattle.basics.specs.Tables.{table};
ghost use Rattle.element.specs.Elements.{is_side, element_refusals};
ghost use Rattle.sheet.specs.Sheets.{pixel, row_bytes, sheet_refusals};
ghost use Rattle.run.specs.Records.{margin, canvas_side, empty_record};
ghost use Rattle.run.specs.Starting.{fresh_record, start_level, start_area, start_levels, begun, erosion_refusals, StartsErosion};
ghost use Rattle.run.specs.Starting.{canvas_refusals, dilation_refusals, StartsDilation, StartsCropped};
ghost use Rattle.run.specs.Patches.{Canvas};

use super::records::Frame;
use super::{Input, Record, kinds, records};
use basics::Refusal;

// The levels that points start with: on the foreground, on the frame's background, and in the margin.
#[derive(Clone, Copy)]
struct Starts {
    on: u16,
    off: u16,
    outside: u16,
}

// The levels of a row of the frame become those of its pixels.
fn fill_pixels(levels: &mut [u16], sheet: &[u8], row: usize, starts: Starts)
    requires { (length levels.old ≤ longest_side) × ((row < longest_side) ×
        (row * row_bytes (length levels.old) + row_bytes (length levels.old) ≤ length sheet.now)) }
    ensures { levels.new ≡ table (length levels.old)
        (λ col. cond (eqb (pixel (length levels.old) sheet.now row col) 1) starts.on starts.off) }
{
    let width = levels.len();
    for col in 0..width {
        levels[col] = if sheet::pixel_at(width, sheet, row, col) == 1 {
            starts.on
        } else {
            starts.off
        };
    }
}

// A row of the area: off the frame all is outside; else the left margin, the pixels, the right margin.
fn fill_row(levels: &mut [u16], frame: Frame, sheet: &[u8], row: usize, starts: Starts)
    requires { (length levels.old ≡ canvas_side frame.width frame.margin) ×
        ((canvas_side frame.width frame.margin ≤ longest_side) × ((canvas_side frame.height frame.margin ≤ longest_side) ×
        ((length sheet.now ≡ frame.height * row_bytes frame.width) × (row < canvas_side frame.height frame.margin)))) }
    ensures { levels.new ≡ table (canvas_side frame.width frame.margin)
        (start_level frame.width frame.height frame.margin sheet.now starts.on starts.off starts.outside row) }
{
    if row < frame.margin || frame.margin + frame.height <= row {
        levels.fill(starts.outside);
        return;
    }
    let end = frame.margin + frame.width;
    levels[..frame.margin].fill(starts.outside);
    fill_pixels(
        &mut levels[frame.margin..end],
        sheet,
        row - frame.margin,
        starts,
    );
    levels[end..].fill(starts.outside);
}

// The start levels of the area.
fn fill_area(levels: &mut [u16], frame: Frame, sheet: &[u8], starts: Starts)
    requires { Canvas frame.width frame.height frame.margin levels.old × (length sheet.now ≡ frame.height * row_bytes frame.width) }
    ensures { levels.new
        ≡ start_area frame.width frame.height frame.margin sheet.now starts.on starts.off starts.outside }
{
    let side = frame.area_width();
    for row in 0..frame.area_height() {
        let at = row * side;
        fill_row(&mut levels[at..at + side], frame, sheet, row, starts);
    }
}

// The start levels of a run, by its kind.
fn fill_levels(run: Record, sheet: &[u8], levels: &mut [u16])
    requires { (is_side run.side ≡ true) × ((run.cap ≤ highest_cap) ×
        (Canvas run.width run.height (margin run) levels.old × (length sheet.now ≡ run.height * row_bytes run.width))) }
    ensures { levels.new ≡ start_levels run sheet.now }
{
    let starts = Starts {
        on: kinds::on_of(run),
        off: kinds::off_of(run),
        outside: kinds::beyond_of(run),
    };
    fill_area(levels, records::frame_of(run), sheet, starts);
}

// Refusals 2 to 7, which all starts have.
pub fn check_start(input: Input, sheet: &[u8], bytes: &[u8]) -> Result<(), Refusal>
    ensures { number result ≡ first (sheet_refusals input.width input.height sheet.now ++ element_refusals input.side bytes.now) }
{
    sheet::check_sheet(input.width, input.height, sheet)?;
    element::check_element(input.side, bytes)
}

// Refusals 9 and 10 of a canvas with so many levels.
pub fn check_canvas(input: Input, cap: usize, count: usize) -> Result<(), Refusal>
    requires { (input.width ≤ longest_side) × ((input.height ≤ longest_side) ×
        ((is_side input.side ≡ true) × (cap ≤ highest_cap))) }
    ensures { number result ≡ first (canvas_refusals input.width input.height cap input.side count) }
{
    let frame = Frame {
        width: input.width,
        height: input.height,
        margin: records::margin_of(cap, input.side),
    };
    let width = frame.area_width();
    let height = frame.area_height();
    if basics::LONGEST_SIDE < width || basics::LONGEST_SIDE < height {
        return Err(Refusal::CanvasSide);
    }
    if count != height * width {
        return Err(Refusal::LevelsLength);
    }
    Ok(())
}

// Refusals 2 to 7 and 10 of an erosion.
pub fn check_erosion(
    input: Input,
    sheet: &[u8],
    bytes: &[u8],
    levels: &[u16],
) -> Result<(), Refusal>
    ensures { number result ≡ first
        (erosion_refusals input.width input.height sheet.now input.side bytes.now levels.now) }
{
    check_start(input, sheet, bytes)?;
    if levels.len() != input.height * input.width {
        return Err(Refusal::LevelsLength);
    }
    Ok(())
}

// Refusals 2 to 10 of a dilation, and of a cropped sheet's erosion.
pub fn check_dilation(
    input: Input,
    sheet: &[u8],
    bytes: &[u8],
    cap: usize,
    levels: &[u16],
) -> Result<(), Refusal>
    ensures { number result ≡ first
        (dilation_refusals input.width input.height sheet.now input.side bytes.now cap levels.now) }
{
    check_start(input, sheet, bytes)?;
    if basics::HIGHEST_CAP < cap {
        return Err(Refusal::Size);
    }
    check_canvas(input, cap, levels.len())
}

// The record of an accepted start, with no rows done.
fn fresh_record(kind: u8, edge: u8, input: Input, cap: usize, bytes: &[u8]) -> Record
    requires { (is_side input.side ≡ true) × (length bytes.now ≡ input.side * input.side) }
    ensures { result ≡ fresh_record kind edge input.width input.height cap input.side bytes.now }
{
    Record {
        kind,
        width: input.width,
        height: input.height,
        cap,
        side: input.side,
        rows: 0,
        cells: element::flat_cells(element::cells_of(input.side, bytes)),
        edge,
    }
}

// Public: starts an erosion, its levels 65,535 on the foreground and 0 elsewhere. Refusals 2 to 7, 10.
pub fn start_erosion(
    input: Input,
    sheet: &[u8],
    bytes: &[u8],
    levels: &mut [u16],
) -> Result<Record, Refusal>
    ensures { StartsErosion input.width input.height sheet.now input.side bytes.now levels.old (number result)
        (value_or empty_record result, levels.new) }
{
    check_erosion(input, sheet, bytes, levels)?;
    let run = fresh_record(kinds::EROSION, kinds::BACKGROUND, input, 0, bytes);
    fill_levels(run, sheet, levels);
    Ok(run)
}

// A start on the canvas of a cap: a dilation's, and a cropped sheet's. Refusals 2 to 10.
// Kept: kind and edge rule as numbers, since it promises an answer for each of them.
pub fn start_on_canvas(
    kind: u8,
    edge: u8,
    input: Input,
    sheet: &[u8],
    bytes: &[u8],
    cap: usize,
    levels: &mut [u16],
) -> Result<Record, Refusal>
    ensures { Answers
        (dilation_refusals input.width input.height sheet.now input.side bytes.now cap levels.old)
        (empty_record, levels.old)
        (λ after. after ≡ begun (fresh_record kind edge input.width input.height cap input.side bytes.now) sheet.now)
        (number result) (value_or empty_record result, levels.new) }
{
    check_dilation(input, sheet, bytes, cap, levels)?;
    let run = fresh_record(kind, edge, input, cap, bytes);
    fill_levels(run, sheet, levels);
    Ok(run)
}

// Public: starts a dilation on the canvas, its levels 1 on the foreground and 65,535 elsewhere. Refusals 2 to 10.
// Kept: this and the next, each with a promise of its own; what they share is `start_on_canvas`.
pub fn start_dilation(
    input: Input,
    sheet: &[u8],
    bytes: &[u8],
    cap: usize,
    levels: &mut [u16],
) -> Result<Record, Refusal>
    ensures { StartsDilation input.width input.height sheet.now input.side bytes.now cap levels.old
        (number result) (value_or empty_record result, levels.new) }
{
    start_on_canvas(
        kinds::DILATION,
        kinds::BACKGROUND,
        input,
        sheet,
        bytes,
        cap,
        levels,
    )
}

// Public: starts the erosion of a cropped sheet, with foreground beyond the frame, its levels 1 on the frame's background and
// 65,535 elsewhere on the canvas. Refusals 2 to 10.
pub fn start_cropped(
    input: Input,
    sheet: &[u8],
    bytes: &[u8],
    cap: usize,
    levels: &mut [u16],
) -> Result<Record, Refusal>
    ensures { StartsCropped input.width input.height sheet.now input.side bytes.now cap levels.old
        (number result) (value_or empty_record result, levels.new) }
{
    start_on_canvas(
        kinds::EROSION,
        kinds::FOREGROUND,
        input,
        sheet,
        bytes,
        cap,
        levels,
    )
}
