// Pictures of a finished run: its levels collected, and the sheet that it holds at a size; and how both, and a look, are judged and
// packed.
ghost use Rattle.std.specs.Prelude.{◌≡◌, ◌+◌, ◌*◌, ◌/◌, ◌≤◌, length, get_or, IfOk};
ghost use Rattle.basics.specs.Limits.{longest_side};
ghost use Rattle.basics.specs.Refusals.{first, number};
ghost use Rattle.basics.specs.Tables.{table, raster};
ghost use Rattle.sheet.specs.Sheets.{row_bytes, byte_packed, packed};
ghost use Rattle.run.specs.Patches.{Patch, Canvas, level_in, read_as, held_between};
ghost use Rattle.run.specs.Pictures.{thresholded, Collects, Thresholds};
ghost use Rattle.run.specs.Provisional.{view_refusals, provisional_refusals};

use super::kinds::{Bounds, Reading};
use super::records::Frame;
use super::sound::Sound;
use super::{Record, kinds, records};
use basics::Refusal;

// The `n` levels from `from` on go to the places from `at` on, each as it is read. Kept, here and in the next: places, and turns
// counted by hand, of which the compiler makes better loops for narrow rows than of slices (measured).
fn copy_row(levels: &[u16], from: usize, n: usize, reading: Reading, out: &mut [u16], at: usize)
    requires { (from + n ≤ length levels.now) × (at + n ≤ length out.old) }
    ensures { Patch at n (λ i. read_as reading (get_or levels.now (from + i) 0)) out.old out.new }
{
    let mut i = 0;
    while i < n {
        let level = reading.read(levels[from + i]);
        out[at + i] = level;
        i += 1;
    }
}

// The frame's part of the levels, each as it is read. Kept: this walk over a frame's rows and those that copy, pack, store, raise and
// count are a loop each; one for all would state by a closure what it does to parts of two slices.
fn read_rows(levels: &[u16], frame: Frame, reading: Reading, out: &mut [u16])
    requires { Canvas frame.width frame.height frame.margin levels.now × (length out.old ≡ frame.height * frame.width) }
    ensures { out.new ≡ raster frame.width frame.height
        (λ row col. read_as reading (level_in frame.width frame.margin levels.now row col)) }
{
    let side = frame.area_width();
    let mut row = 0;
    while row < frame.height {
        let from = (row + frame.margin) * side + frame.margin;
        copy_row(levels, from, frame.width, reading, out, row * frame.width);
        row += 1;
    }
}

// The frame's part of the levels, as they stand.
fn copy_rows(levels: &[u16], frame: Frame, out: &mut [u16])
    requires { Canvas frame.width frame.height frame.margin levels.now × (length out.old ≡ frame.height * frame.width) }
    ensures { out.new ≡ raster frame.width frame.height (level_in frame.width frame.margin levels.now) }
{
    for row in 0..frame.height {
        let at = row * frame.width;
        basics::copy(frame.row(levels, row), &mut out[at..at + frame.width]);
    }
}

// The frame's part of the levels, each as it is read; a plain erosion's, which are read as they stand, are copied.
fn copy_frame(levels: &[u16], frame: Frame, reading: Reading, out: &mut [u16])
    requires { Canvas frame.width frame.height frame.margin levels.now × (length out.old ≡ frame.height * frame.width) }
    ensures { out.new ≡ raster frame.width frame.height
        (λ row col. read_as reading (level_in frame.width frame.margin levels.now row col)) }
{
    if reading.limit == row::NONE && reading.less == 0 {
        copy_rows(levels, frame, out);
        return;
    }
    read_rows(levels, frame, reading, out);
}

// Refusals 8, 10 and 11 of a sound record's levels read at a size, with `room` entries lent of `wanted`.
fn check_view(
    sound: Sound,
    levels: &[u16],
    size: usize,
    room: usize,
    wanted: usize,
) -> Result<(), Refusal>
    ensures { number result ≡ first (view_refusals sound.run levels.now size room wanted) }
{
    if kinds::size_limit(sound.run) < size {
        return Err(Refusal::Size);
    }
    if sound.levels_wrong(levels) {
        return Err(Refusal::LevelsLength);
    }
    if room != wanted {
        return Err(Refusal::OutputLength);
    }
    Ok(())
}

// Public: fills `out` with the frame's levels of a finished run. Refusals 1, 10, 11, 13.
#[tactic(auto, using(crate::proofs::RecordLaws::not_foreign, crate::proofs::RecordLaws::sounds))]
pub fn collect(run: Record, levels: &[u16], out: &mut [u16]) -> Result<(), Refusal>
    ensures { Collects run levels.now out.old (number result) out.new }
{
    let sound = records::check_record(run)?;
    check_view(sound, levels, 0, out.len(), run.height * run.width)?;
    if !sound.all_done() {
        return Err(Refusal::RowsDue);
    }
    copy_frame(levels, sound.frame(), kinds::reading_of(run), out);
    Ok(())
}

// The byte of the first eight levels: a bit for each, 1 where it is held.
fn full_byte(levels: &[u16], bounds: Bounds) -> u8
    requires { 8 ≤ length levels.now }
    ensures { result ≡ byte_packed 8 (λ i. held_between bounds.low bounds.high (get_or levels.now i 0)) 0 }
{
    let mut byte = 0;
    for i in 0..8 {
        byte = 2 * byte + u8::from(bounds.hold(levels[i]));
    }
    byte
}

// The byte in which a row ends, of its last levels: level 0, which is never held, stands in the padding's place.
fn last_byte(levels: &[u16], bounds: Bounds) -> u8
    requires { length levels.now ≤ 8 }
    ensures { result ≡ byte_packed (length levels.now) (λ i. held_between bounds.low bounds.high (get_or levels.now i 0)) 0 }
{
    let mut eight = [0u16; 8];
    eight[..levels.len()].copy_from_slice(levels);
    full_byte(&eight, bounds)
}

// The packed row of a row's levels.
fn pack_row(levels: &[u16], bounds: Bounds, out: &mut [u8])
    requires { (length levels.now ≤ longest_side) × (length out.old ≡ row_bytes (length levels.now)) }
    ensures { out.new ≡ table (row_bytes (length levels.now)) (byte_packed (length levels.now)
        (λ col. held_between bounds.low bounds.high (get_or levels.now col 0))) }
{
    let width = levels.len();
    let full = width / 8;
    for k in 0..full {
        out[k] = full_byte(&levels[8 * k..], bounds);
    }
    if width % 8 != 0 {
        out[full] = last_byte(&levels[8 * full..], bounds);
    }
}

// The packed sheet of the frame's part of the levels.
pub fn pack_frame(levels: &[u16], frame: Frame, bounds: Bounds, out: &mut [u8])
    requires { Canvas frame.width frame.height frame.margin levels.now × (length out.old ≡ frame.height * row_bytes frame.width) }
    ensures { out.new ≡ packed frame.width frame.height
        (λ row col. held_between bounds.low bounds.high (level_in frame.width frame.margin levels.now row col)) }
{
    let bytes = sheet::row_bytes(frame.width);
    for row in 0..frame.height {
        let at = row * bytes;
        pack_row(frame.row(levels, row), bounds, &mut out[at..at + bytes]);
    }
}

// Refusals 1, 8, 10 and 11 of the sheet that the levels hold at a size, whatever rows are done.
pub fn check_provisional(
    run: Record,
    levels: &[u16],
    size: usize,
    out: &[u8],
) -> Result<Sound, Refusal>
    ensures { (number result ≡ first (provisional_refusals run levels.now size out.now)) × IfOk result (λ sound. sound.run ≡ run) }
{
    let sound = records::check_record(run)?;
    let wanted = run.height * sheet::row_bytes(run.width);
    check_view(sound, levels, size, out.len(), wanted)?;
    Ok(sound)
}

// That sheet, packed.
pub fn pack_held(sound: Sound, levels: &[u16], size: usize, out: &mut [u8])
    requires { first (provisional_refusals sound.run levels.now size out.old) ≡ 0 }
    ensures { out.new ≡ thresholded sound.run levels.now size }
{
    let bounds = kinds::bounds_of(sound.run, size);
    pack_frame(levels, sound.frame(), bounds, out);
}

// Public: fills `out` with the packed sheet that a finished run holds at a size. Refusals 1, 8, 10, 11, 13.
pub fn threshold(run: Record, levels: &[u16], size: usize, out: &mut [u8]) -> Result<(), Refusal>
    ensures { Thresholds run levels.now size out.old (number result) out.new }
{
    let sound = check_provisional(run, levels, size, out)?;
    if !sound.all_done() {
        return Err(Refusal::RowsDue);
    }
    pack_held(sound, levels, size, out);
    Ok(())
}
