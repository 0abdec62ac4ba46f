// What the program prints, as one function from the input's bytes to the output's.
#![tactic(auto)]

ghost use Rattle.std.specs.Prelude.{◌≡◌, ◌*◌, ◌<◌, ◌≤◌, length, take};
ghost use Rattle.run.specs.Records.{due};
ghost use Rattle.run.specs.Continuing.{with_rows};
ghost use Rattle.printing.specs.Printing.{input_end, most_pixels, text_room, refused_text, cross_run, cross_levels, sheet_text};
ghost use Rattle.printing.specs.Printing.{printed};
ghost use Rattle.printing.specs.Steps.{Prints, PrintsOr, SoundSheet, Rooms};

use basics::Refusal;
use pbm::Frame;
use run::{Input, Record};

// Inputs from here on are refused.
pub const INPUT_END: usize = 65536;

// Sheets of more pixels are refused.
pub const MOST_PIXELS: usize = 16384;

// Room for the picture of so many pixels.
pub const TEXT_ROOM: usize = 98432;

// Writes "refused", a blank, the number and LF to the front of `out`, and gives the text's length. Kept: its bytes are promised, as
// none of `Display`'s are.
fn write_refused(number: usize, out: &mut [u8]) -> usize
    requires { (number < 4294967296) × (text_room ≤ length out.old) }
    ensures { Prints (refused_text number) result out.new }
{
    let end = text::write_labelled(b"refused ", number, out);
    end + text::write_bytes(b"\n", &mut out[end..])
}

// Erodes a sheet with the cross, all rows at once, and collects its levels; gives the run's record. No call of it refuses.
fn run_erosion(frame: Frame, sheet: &[u8], levels: &mut [u16], collected: &mut [u16]) -> Record
    requires { SoundSheet frame.width frame.height sheet.now ×
        ((length levels.old ≡ frame.height * frame.width) × (length collected.old ≡ frame.height * frame.width)) }
    ensures { (result ≡ with_rows (cross_run frame.width frame.height) (due (cross_run frame.width frame.height))) ×
        (collected.new ≡ cross_levels frame.width frame.height sheet.now) }
{
    let input = Input {
        width: frame.width,
        height: frame.height,
        side: 3,
    };
    let cross = [0u8, 1, 0, 1, 1, 1, 0, 1, 0];
    let begun = run::starting::start_erosion(input, sheet, &cross, levels).unwrap();
    let continued = run::continuing::continue_run(begun, levels, basics::MOST_ROWS).unwrap();
    run::pictures::collect(continued.run, levels, collected).unwrap();
    continued.run
}

// Writes the picture of a sound sheet's levels; refusal 10 of too many pixels.
fn print_sheet(
    frame: Frame,
    sheet: &[u8],
    levels: &mut [u16],
    collected: &mut [u16],
    out: &mut [u8],
) -> Result<usize, Refusal>
    requires { SoundSheet frame.width frame.height sheet.now × Rooms levels.old collected.old out.old }
    ensures { PrintsOr (sheet_text frame.width frame.height sheet.now) result out.old out.new }
{
    let count = frame.width * frame.height;
    if MOST_PIXELS < count {
        return Err(Refusal::LevelsLength);
    }
    let collected = &mut collected[..count];
    let run = run_erosion(frame, sheet, &mut levels[..count], collected);
    pgm::finished::write_pgm(run, collected, out)
}

// Writes the picture of an input's levels; refusal 10 of too long an input, too.
fn print_input(
    input: &[u8],
    sheet: &mut [u8],
    levels: &mut [u16],
    collected: &mut [u16],
    out: &mut [u8],
) -> Result<usize, Refusal>
    requires { (input_end ≤ length sheet.old) × Rooms levels.old collected.old out.old }
    ensures { PrintsOr (printed input.now) result out.old out.new }
{
    if INPUT_END <= input.len() {
        return Err(Refusal::LevelsLength);
    }
    let frame = pbm::read_pbm(input, sheet)?;
    let size = frame.height * sheet::row_bytes(frame.width);
    print_sheet(frame, &sheet[..size], levels, collected, out)
}

// For the program: prints the erosion of an input to the front of `out`, and gives the text's length.
pub fn print_erosion(
    input: &[u8],
    sheet: &mut [u8],
    levels: &mut [u16],
    collected: &mut [u16],
    out: &mut [u8],
) -> usize
    requires { (input_end ≤ length sheet.old) × Rooms levels.old collected.old out.old }
    ensures { (result ≤ length out.new) × (take result out.new ≡ printed input.now) }
{
    match print_input(input, sheet, levels, collected, out) {
        Ok(length) => length,
        Err(refusal) => write_refused(refusal.number() as usize, out),
    }
}
