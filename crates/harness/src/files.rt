// Files: PBM read and written, and the picture of a finished run.
ghost use Rattle.harness.specs.Files.{ReadsSheet, WritesSheet, WritesPicture};

use super::{answers, words};

// Public: reads a PBM file; the sheet goes to the front of `out`, the width and the height into `frame`. Refusals 21, 22, 2, 23,
// 24, 11.
#[unsafe(no_mangle)]
pub extern "C" fn wt_read_pbm(file: &[u8], out: &mut [u8], frame: &mut [u64]) -> u32
    ensures { ReadsSheet file.now out.old frame.old result (
      out.new,
      frame.new,
    ) }
{
    if frame.len() != 2 {
        // The file is judged with a room of our own: where nothing else is wrong, 11 is given, whatever the room.
        let mut room = [0u8; 1];
        return match pbm::read_pbm(file, &mut room) {
            Ok(_) => 11,
            Err(refusal) => refusal.number(),
        };
    }
    let read = pbm::read_pbm(file, out);
    match read {
        Ok(sheet) => {
            frame[0] = sheet.width as u64;
            frame[1] = sheet.height as u64;
            0
        }
        Err(refusal) => refusal.number(),
    }
}

// Public: writes a sheet as PBM to the front of `out`, and its length into `answer`. Refusals 2, 3, 11.
#[unsafe(no_mangle)]
pub extern "C" fn wt_write_pbm(
    width: u64,
    height: u64,
    sheet: &[u8],
    out: &mut [u8],
    answer: &mut [u64],
) -> u32
    ensures { WritesSheet width height sheet.now out.old answer.old result (
      out.new,
      answer.new,
    ) }
{
    let columns = width as usize;
    let rows = height as usize;
    if answer.len() != 1 {
        return answers::at_latest(sheet::check_sheet(columns, rows, sheet));
    }
    answers::answer_value(pbm::write_pbm(columns, rows, sheet, out), answer)
}

// Public: writes the collected levels of a finished run as PGM to the front of `out`, and its length into `answer`. Refusals 1,
// 8, 10, 11, 13.
#[unsafe(no_mangle)]
pub extern "C" fn wt_write_pgm(
    words: &[u64],
    levels: &[u16],
    out: &mut [u8],
    answer: &mut [u64],
) -> u32
    ensures { WritesPicture words.now levels.now out.old answer.old result
        (out.new, answer.new) }
{
    let Some(run) = words::read_record(words) else {
        return 1;
    };
    if answer.len() != 1 {
        return answers::at_latest(pgm::finished::check_pgm(run, levels, out));
    }
    answers::answer_value(pgm::finished::write_pgm(run, levels, out), answer)
}
