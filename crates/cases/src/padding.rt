// Case 10: width 9 takes two bytes a row, and its seven padding bits change no answer. The sheets are 9 by 3 and full, the
// element is the cross, the size and the cap are 1; a canvas is 11 by 5.
ghost use Rattle.std.specs.Prelude.{◌≤◌};

use super::asking::{Call, Case};
use super::elements::{self, CROSS};
use super::fault::Result;
use super::{calls, lines};
use basics::Refusal;
use run::Record;

const FRAME: usize = 27;

const CANVAS: usize = 55;

// A packed sheet's bytes, and a file's.
const SHEET: usize = 6;

const FILE: usize = 13;

// What a call leaves: levels, and a packed sheet or a file at the front of the bytes.
#[derive(Clone, Copy, PartialEq, Eq)]
struct Left {
    levels: [u16; FRAME],
    bytes: [u8; FILE],
}

// Continues a run over all its rows: its levels collected, and the sheet that it holds at 1.
fn run_through(
    started: Record,
    work: &mut [u16],
    out: &mut [u16],
    bytes: &mut [u8],
) -> Result<Record, Refusal> {
    let done = run::continuing::continue_run(started, work, basics::MOST_ROWS)?.run;
    run::pictures::collect(done, work, out)?;
    run::pictures::threshold(done, work, 1, bytes)?;
    Ok(done)
}

// The call on a sheet, with `work` levels to work with and room for `room` bytes.
fn left_by(call: Call, sheet: &[u8], work: usize, room: usize) -> Result<Left, Refusal>
    requires { (work ≤ 55) × (room ≤ 13) }
{
    let mut first_room = [0; CANVAS];
    let mut second_room = [0; CANVAS];
    let mut levels = [0; FRAME];
    let mut bytes = [0; FILE];
    let first = &mut first_room[..work];
    let second = &mut second_room[..work];
    let out = &mut bytes[..room];
    match call {
        Call::StartErosion => {
            let started = run::starting::start_erosion(
                elements::input_on(9, 3),
                sheet,
                &CROSS,
                first,
            )?;
            run_through(started, first, &mut levels, out)?;
        }
        Call::StartDilation => {
            let started = run::starting::start_dilation(
                elements::input_on(9, 3),
                sheet,
                &CROSS,
                1,
                first,
            )?;
            run_through(started, first, &mut levels, out)?;
        }
        Call::StartCropped => {
            let started = run::starting::start_cropped(
                elements::input_on(9, 3),
                sheet,
                &CROSS,
                1,
                first,
            )?;
            run_through(started, first, &mut levels, out)?;
        }
        _ => {
            let mut case = Case::accepted(call);
            case.width = 9;
            calls::answer(
                case,
                sheet,
                sheet,
                &CROSS,
                first,
                second,
                &mut levels,
                &mut [0],
                out,
            )?;
        }
    }
    Ok(Left { levels, bytes })
}

// Compares what a call leaves of the sheet with its padding bits unset and set.
fn compare(rt: &impl Print, name: &str, call: Call, work: usize, room: usize) -> Result<()>
    requires { (work ≤ 55) × (room ≤ 13) }
{
    let unset = [255u8, 128, 255, 128, 255, 128];
    let set = [255u8; SHEET];
    let same = left_by(call, &unset, work, room)? == left_by(call, &set, work, room)?;
    lines::say_same(rt, name, same)
}

fn read(file: &[u8]) -> Result<[u8; SHEET], Refusal> {
    let mut out = [0; SHEET];
    pbm::read_pbm(file, &mut out)?;
    Ok(out)
}

fn compare_read(rt: &impl Print) -> Result<()> {
    let one = read(b"P4\n9 3\n\xff\x80\xff\x80\xff\x80")?;
    let other = read(b"P4\n9 3\n\xff\xff\xff\xff\xff\xff")?;
    lines::say_same(rt, "read_pbm", one == other)
}

// The picture of the erosion of the sheet with its padding bits set.
fn show_levels(rt: &impl Print) -> Result<()> {
    let sheet = [255; SHEET];
    let mut work = [0; FRAME];
    let mut levels = [0; FRAME];
    let mut bytes = [0; SHEET];
    let started = run::starting::start_erosion(
        elements::input_on(9, 3),
        &sheet,
        &CROSS,
        &mut work,
    )?;
    let done = run_through(started, &mut work, &mut levels, &mut bytes)?;
    let mut text = [0; 128];
    let length = pgm::finished::write_pgm(done, &levels, &mut text)?;
    lines::say_text(rt, &text, length)
}

pub fn same_answers(rt: &impl Print) -> Result<()> {
    show_levels(rt)?;
    compare(rt, "erosion levels", Call::StartErosion, FRAME, SHEET)?;
    compare(rt, "erosion by 1", Call::StartErosion, FRAME, SHEET)?;
    compare(rt, "dilation levels", Call::StartDilation, CANVAS, SHEET)?;
    compare(rt, "cropped levels", Call::StartCropped, CANVAS, SHEET)?;
    compare(rt, "write_pbm", Call::WritePbm, FRAME, FILE)?;
    compare_read(rt)?;
    compare(rt, "opening by 1", Call::Open, FRAME, SHEET)?;
    compare(rt, "closing by 1", Call::Close, CANVAS, SHEET)?;
    compare(rt, "opening levels", Call::OpeningLevels, FRAME, FILE)?;
    compare(rt, "closing levels", Call::ClosingLevels, CANVAS, FILE)
}
