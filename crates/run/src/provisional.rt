// A look at a run under way: the sheet that its levels hold at a size as they stand. It is no picture.
ghost use Rattle.std.specs.Prelude.{false};
ghost use Rattle.basics.specs.Refusals.{number, value_or};
ghost use Rattle.run.specs.Provisional.{ShowsProvisional};

use super::{Record, pictures};
use basics::Refusal;

// Public: fills `out` with the packed sheet that a run's levels hold at a size, whatever rows are done, and answers whether all
// are, so that the sheet is final. Refusals 1, 8, 10, 11.
pub fn provisional(
    run: Record,
    levels: &[u16],
    size: usize,
    out: &mut [u8],
) -> Result<bool, Refusal>
    ensures { ShowsProvisional run levels.now size out.old (number result)
        (value_or false result, out.new) }
{
    let sound = pictures::check_provisional(run, levels, size, out)?;
    pictures::pack_held(sound, levels, size, out);
    Ok(sound.all_done())
}
