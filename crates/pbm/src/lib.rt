// Raw PBM: sheets read from files and written to them.
#![tactic(auto)]

ghost use Rattle.std.specs.Prelude.{◌≡◌, false, true, ◌+◌, ◌-◌, ◌*◌, ◌<◌, ◌≤◌, length, drop, MatchOption, MatchResult};
ghost use Rattle.basics.specs.Limits.{longest_side};
ghost use Rattle.basics.specs.Refusals.{first, number_of, number, value_or};
ghost use Rattle.sheet.specs.Sheets.{row_bytes};
ghost use Rattle.pbm.specs.Header.{is_white, white_run};
ghost use Rattle.pbm.specs.Steps.{FieldRead, HeaderRead};
ghost use Rattle.text.specs.Writing.{begun, Wrote};
ghost use Rattle.pbm.specs.Pbm.{cleared, raster_refusals, frame_given, ReadsPbm, pbm_header, WritesPbm};

use basics::Refusal;

// The sides of a sheet.
#[derive(Clone, Copy, Debug, PartialEq, Eq)]
pub struct Frame {
    pub width: usize,
    pub height: usize,
}

// Blank, TAB, CR or LF. Kept: std's `is_ascii_whitespace` would take a form feed too.
#[tactic(auto, unfolding(crate::specs::Header::is_white))]
fn is_white(byte: u8) -> bool
    ensures { result ≡ is_white byte }
{
    matches!(byte, b' ' | b'\t' | b'\r' | b'\n')
}

// The place after the white bytes that stand from `at` on.
fn skip_white(file: &[u8], at: usize) -> usize
    requires { at ≤ length file.now }
    ensures { result ≡ at + length (white_run (drop at file.now)) }
{
    at + file[at..]
        .iter()
        .take_while(|byte| is_white(**byte))
        .count()
}

// A header's number is told apart up to here; no frame has such a side.
const AMOUNT_END: usize = 65536;

// Reads white bytes and a number from `at` on, as AMOUNT_END where it is larger.
fn read_field(file: &[u8], at: usize) -> Option<decimal::Number>
    requires { at ≤ length file.now }
    ensures { MatchOption result (FieldRead file.now at false 0 0)
        (λ field. FieldRead file.now at true field.value field.next) }
{
    let start = skip_white(file, at);
    if start == at {
        return None;
    }
    let number = decimal::read_number(file, start, AMOUNT_END);
    if number.next == start {
        return None;
    }
    Some(number)
}

// A header's frame, and the place of the raster.
#[derive(Clone, Copy)]
struct Header {
    frame: Frame,
    at: usize,
}

// Reads the header: refusals 21, 22 and 2.
fn read_header(file: &[u8]) -> Result<Header, Refusal>
    ensures { MatchResult result (λ header. HeaderRead file.now 0 header.frame.width header.frame.height header.at)
        (λ refusal. HeaderRead file.now (number_of refusal) 0 0 0) }
{
    if !file.starts_with(b"P4") {
        return Err(Refusal::NoPbm);
    }
    let width = read_field(file, 2).ok_or(Refusal::Header)?;
    let height = read_field(file, width.next).ok_or(Refusal::Header)?;
    if !file.get(height.next).is_some_and(|byte| is_white(*byte)) {
        return Err(Refusal::Header);
    }
    let frame = Frame {
        width: width.value,
        height: height.value,
    };
    sheet::check_frame(frame.width, frame.height)?;
    Ok(Header {
        frame,
        at: height.next + 1,
    })
}

// Copies a frame's raster to the front of `out`, and clears the padding, the lowest bits of each row's last byte.
fn copy_cleared(frame: Frame, raster: &[u8], out: &mut [u8])
    requires frame { (1 ≤ frame.width) × (frame.width ≤ longest_side) × (frame.height ≤ longest_side) }
    requires raster { frame.height * row_bytes frame.width ≤ length raster.now }
    requires room { frame.height * row_bytes frame.width ≤ length out.old }
    ensures { out.new ≡ begun (cleared frame.width frame.height raster.now) out.old }
{
    let row_bytes = sheet::row_bytes(frame.width);
    let count = frame.height * row_bytes;
    let padding = row_bytes * 8 - frame.width;
    basics::copy(&raster[..count], &mut out[..count]);
    for row in 0..frame.height {
        let last = row * row_bytes + row_bytes - 1;
        out[last] = out[last] >> padding << padding;
    }
}

// Refusals 23 and 24 of a raster against its frame.
fn check_raster(frame: Frame, raster: &[u8]) -> Result<(), Refusal>
    requires { (frame.width ≤ longest_side) × (frame.height ≤ longest_side) }
    ensures { number result ≡ first (raster_refusals frame.width frame.height raster.now) }
{
    let count = frame.height * sheet::row_bytes(frame.width);
    if raster.len() < count {
        return Err(Refusal::ShortRaster);
    }
    if count < raster.len() {
        return Err(Refusal::LongRaster);
    }
    Ok(())
}

// Public: reads a raw PBM file; the sheet goes to the front of `out`, padding cleared. Refusals 21, 22, 2, 23, 24, 11.
pub fn read_pbm(file: &[u8], out: &mut [u8]) -> Result<Frame, Refusal>
    ensures { ReadsPbm file.now out.old (number result) (frame_given result).width (frame_given result).height
        out.new }
{
    let Header { frame, at } = read_header(file)?;
    let raster = &file[at..];
    check_raster(frame, raster)?;
    if out.len() < raster.len() {
        return Err(Refusal::OutputLength);
    }
    copy_cleared(frame, raster, out);
    Ok(frame)
}

// Writes "P4", LF, the width, a blank, the height and LF to the front of `out`, and gives their length.
#[tactic(auto, unfolding(crate::specs::Pbm::pbm_header))]
fn write_header(frame: Frame, out: &mut [u8]) -> usize
    requires { length (pbm_header frame.width frame.height) ≤ length out.old }
    ensures { Wrote (pbm_header frame.width frame.height) out.old out.new result }
{
    let end = text::write_pair(b"P4\n", frame.width, b" ", frame.height, out);
    end + text::write_bytes(b"\n", &mut out[end..])
}

// Public: writes a sheet as a raw PBM file to the front of `out`, and gives its length. Refusals 2, 3, 11.
pub fn write_pbm(
    width: usize,
    height: usize,
    sheet: &[u8],
    out: &mut [u8],
) -> Result<usize, Refusal>
    ensures { WritesPbm width height sheet.now out.old (number result) (value_or 0 result) out.new }
{
    sheet::check_sheet(width, height, sheet)?;
    let size = 5 + decimal::digit_count(width) + decimal::digit_count(height) + sheet.len();
    if out.len() < size {
        return Err(Refusal::OutputLength);
    }
    let frame = Frame { width, height };
    let at = write_header(frame, out);
    copy_cleared(frame, sheet, &mut out[at..]);
    Ok(size)
}
