// Writing the collected levels of a finished run.
ghost use Rattle.std.specs.Prelude.{◌≡◌, IfOk};
ghost use Rattle.basics.specs.Bounds.{any_above};
ghost use Rattle.basics.specs.Refusals.{first, number, value_or};
ghost use Rattle.pgm.specs.WritePgm.{maximum, header_of, pgm_refusals, WritesPgm};

use super::Header;
use basics::Refusal;
use run::sound::Sound;
use run::{Record, kinds, records};

// The maximum that the picture states.
fn maximum_of(sound: Sound) -> usize
    ensures { result ≡ maximum sound.run }
{
    let run = sound.run;
    kinds::by_kind(
        kinds::kind_of(run),
        run.width.max(run.height),
        run.cap + 1,
        usize::from(row::NONE),
    )
}

// What the picture states before its levels.
fn header_of(sound: Sound) -> Header
    ensures { result ≡ header_of sound.run }
{
    Header {
        done: sound.run.rows,
        due: sound.rows_due(),
        width: sound.run.width,
        height: sound.run.height,
        maximum: maximum_of(sound),
    }
}

fn any_above(limit: usize, levels: &[u16]) -> bool
    ensures { result ≡ any_above limit levels.now }
{
    levels.iter().any(|&level| limit < usize::from(level))
}

// Refusals 1, 8, 10, 11 and 13.
pub fn check_pgm(run: Record, levels: &[u16], out: &[u8]) -> Result<Sound, Refusal>
    ensures { (number result ≡ first (pgm_refusals run levels.now out.now)) × IfOk result (λ sound. sound.run ≡ run) }
{
    let sound = records::check_record(run)?;
    let header = header_of(sound);
    if any_above(header.maximum, levels) {
        return Err(Refusal::Size);
    }
    if levels.len() != run.height * run.width {
        return Err(Refusal::LevelsLength);
    }
    if out.len() < super::pgm_length(header, levels) {
        return Err(Refusal::OutputLength);
    }
    if header.done != header.due {
        return Err(Refusal::RowsDue);
    }
    Ok(sound)
}

// Public: writes the collected levels of a finished run as plain PGM at the front of `out`, and gives the text's length.
// Refusals 1, 8, 10, 11, 13.
pub fn write_pgm(run: Record, levels: &[u16], out: &mut [u8]) -> Result<usize, Refusal>
    ensures { WritesPgm run levels.now out.old (number result) (value_or 0 result, out.new) }
{
    let sound = check_pgm(run, levels, out)?;
    Ok(super::write_pgm_text(header_of(sound), levels, out))
}
