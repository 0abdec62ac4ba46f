// Dilating each foreground point by a size of its own, which a lent map gives: one scan, from levels that start with R + 1 - S(a)
// at each foreground point a.
#![tactic(auto)]

ghost use Rattle.std.specs.Prelude.{◌≡◌, false, ◌||◌, ◌+◌, ◌*◌, ◌<◌, ◌≤◌, ltb, length, get_or, replicate};
ghost use Rattle.basics.specs.Bounds.{any_above};
ghost use Rattle.basics.specs.Refusals.{first, number};
ghost use Rattle.basics.specs.Tables.{table};
ghost use Rattle.run.specs.Patches.{Canvas};
ghost use Rattle.run.specs.Starting.{dilation_refusals};
ghost use Rattle.run.specs.Pictures.{thresholded};
ghost use Rattle.run.specs.Demand2.{finished};
ghost use Rattle.filters.specs.Filters.{frame_size};
ghost use Rattle.maps.specs.Maps.{sizes_seen, map_refusals, DilatesByMap};
ghost use Rattle.maps.specs.Raising.{raised, Raised, StartsByMap, Fits, above_from, Finishes};

use basics::Refusal;
use filters::Input;
use run::records::Frame;
use run::sound::Sound;
use run::starting;

// Whether the map has a size above the cap at a row and a column, and a foreground point stands there. Kept: sheet and map apart,
// since a struct of both would hold references.
fn is_above(input: Input, sheet: &[u8], map: &[u16], cap: usize, row: usize, col: usize) -> bool
    requires { Fits input sheet.now map.now × ((row < input.height) × (col < input.width)) }
    ensures { result ≡ ltb cap (get_or (sizes_seen input sheet.now map.now) (row * input.width + col) 0) }
{
    let place = row * input.width + col;
    let pixel = sheet::pixel_at(input.width, sheet, row, col);
    (pixel == 1) & (cap < usize::from(map[place]))
}

// Whether it has one in a row. Kept: a loop that branches on no size and no pixel, as `any` would; they follow no pattern.
fn any_in_row(input: Input, sheet: &[u8], map: &[u16], cap: usize, row: usize) -> bool
    requires { Fits input sheet.now map.now × (row < input.height) }
    ensures { result || above_from cap (sizes_seen input sheet.now map.now) (row * input.width + input.width)
        ≡ above_from cap (sizes_seen input sheet.now map.now) (row * input.width) }
{
    let mut found = false;
    for col in 0..input.width {
        found |= is_above(input, sheet, map, cap, row, col);
    }
    found
}

// Whether it has one in any row.
fn any_seen(input: Input, sheet: &[u8], map: &[u16], cap: usize) -> bool
    requires { Fits input sheet.now map.now }
    ensures { result ≡ any_above cap (sizes_seen input sheet.now map.now) }
{
    for row in 0..input.height {
        if any_in_row(input, sheet, map, cap, row) {
            return true;
        }
    }
    false
}

// The same; where no entry at all is above the cap, which is sooner seen, no pixel is looked at.
fn any_above(input: Input, sheet: &[u8], map: &[u16], cap: usize) -> bool
    requires { Fits input sheet.now map.now }
    ensures { result ≡ any_above cap (sizes_seen input sheet.now map.now) }
{
    cap < usize::from(filters::levels::highest(map)) && any_seen(input, sheet, map, cap)
}

// Refusals 2 to 11, and 8 for a size above the cap.
fn check_map(
    input: Input,
    sheet: &[u8],
    bytes: &[u8],
    cap: usize,
    map: &[u16],
    work: &[u16],
    out: &[u8],
) -> Result<(), Refusal>
    ensures { number result ≡ first
        (map_refusals input sheet.now bytes.now cap map.now (record { work = work.now; out = out.now })) }
{
    starting::check_dilation(input, sheet, bytes, cap, work)?;
    if map.len() != input.height * input.width {
        return Err(Refusal::LevelsLength);
    }
    if out.len() != input.height * sheet::row_bytes(input.width) {
        return Err(Refusal::OutputLength);
    }
    if any_above(input, sheet, map, cap) {
        return Err(Refusal::Size);
    }
    Ok(())
}

// The level that a point with a size starts with, where a dilation's is 1; another level stays. No accepted map has a size above
// `most` there.
fn raised_level(level: u16, size: u16, most: u16) -> u16
    ensures { result ≡ raised most size level }
{
    if level == 1 {
        most.saturating_sub(size)
    } else {
        level
    }
}

// Raises the levels of a row by its sizes.
fn raise_row(levels: &mut [u16], map: &[u16], most: u16)
    requires { length levels.old ≡ length map.now }
    ensures { levels.new ≡ table (length map.now) (λ i. raised most (get_or map.now i 0) (get_or levels.old i 0)) }
{
    for i in 0..map.len() {
        levels[i] = raised_level(levels[i], map[i], most);
    }
}

// Raises the levels of the frame by the map.
fn raise_frame(levels: &mut [u16], frame: Frame, map: &[u16], most: u16)
    requires { Canvas frame.width frame.height frame.margin levels.old × (length map.now ≡ frame.height * frame.width) }
    ensures { Raised frame.width frame.margin frame.height most map.now levels.old levels.new }
{
    let side = frame.area_width();
    for row in 0..frame.height {
        let at = (row + frame.margin) * side + frame.margin;
        let from = row * frame.width;
        raise_row(
            &mut levels[at..at + frame.width],
            &map[from..from + frame.width],
            most,
        );
    }
}

// Starts the dilation, its levels raised by the map.
fn start_by_map(
    input: Input,
    sheet: &[u8],
    bytes: &[u8],
    cap: usize,
    map: &[u16],
    work: &mut [u16],
) -> Sound
    requires { (first (dilation_refusals input.width input.height sheet.now input.side bytes.now cap work.old) ≡ 0) ×
        (length map.now ≡ frame_size input) }
    ensures { StartsByMap input sheet.now bytes.now cap map.now result.run work.new }
{
    let run = starting::start_dilation(input, sheet, bytes, cap, work).unwrap();
    let most = cap as u16 + 1;
    let sound = Sound { run };
    raise_frame(work, sound.frame(), map, most);
    sound
}

// Works all rows of a started run, and fills `out` with the sheet that it holds at its cap; the work buffer becomes all zero.
fn finish_sheet(sound: Sound, work: &mut [u16], out: &mut [u8])
    requires { Finishes sound.run work.old out.old }
    ensures { (work.new ≡ replicate (length work.old) 0) ×
        (out.new ≡ thresholded sound.run (finished sound.run work.old) sound.run.cap) }
{
    filters::back::finish(sound, work);
    run::pictures::pack_held(sound, work, sound.run.cap, out);
    work.fill(0);
}

// Public: fills `out` with the sheet in which each foreground point is dilated by its size in the map; the work buffer becomes all
// zero. Refusals 2 to 11, and 8 for a size above the cap.
pub fn dilate_by_map(
    input: Input,
    sheet: &[u8],
    bytes: &[u8],
    cap: usize,
    map: &[u16],
    work: &mut [u16],
    out: &mut [u8],
) -> Result<(), Refusal>
    ensures { DilatesByMap input sheet.now bytes.now cap map.now
        (record { work = work.old; out = out.old }) (number result)
        (record { work = work.new; out = out.new }) }
{
    check_map(input, sheet, bytes, cap, map, work, out)?;
    let sound = start_by_map(input, sheet, bytes, cap, map, work);
    finish_sheet(sound, work, out);
    Ok(())
}
