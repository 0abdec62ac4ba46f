// The answer to a plan: it is judged, its first run is finished, and the way back is taken from there.
ghost use Rattle.std.specs.Prelude.{◌≡◌, true, false, length};
ghost use Rattle.basics.specs.Refusals.{first, number};
ghost use Rattle.filters.specs.Plans.{record_in, start_refusals, first_record, first_start, first_levels};
ghost use Rattle.filters.specs.Plans.{FirstAnswered, SheetAnswered, LevelsAnswered};

use super::judging::{Lengths, Plan};
use super::{Input, back, judging, levels};
use basics::Refusal;
use run::sound::Sound;
use run::{Record, starting};

// Starts the first run: a dilation on the canvas of a closing's size, or an erosion of the frame.
fn start_run(input: Input, sheet: &[u8], bytes: &[u8], plan: Plan, levels: &mut [u16]) -> Record
    requires { first (start_refusals input sheet.now bytes.now plan (length levels.old)) ≡ 0 }
    ensures { (result ≡ first_record input bytes.now plan) ×
        (levels.new ≡ first_start input sheet.now bytes.now plan) }
{
    if plan.closing {
        starting::start_dilation(input, sheet, bytes, judging::cap_of(plan), levels).unwrap()
    } else {
        starting::start_erosion(input, sheet, bytes, levels).unwrap()
    }
}

// The first run, all its rows worked.
pub fn first_run(input: Input, sheet: &[u8], bytes: &[u8], plan: Plan, levels: &mut [u16]) -> Sound
    requires { first (start_refusals input sheet.now bytes.now plan (length levels.old)) ≡ 0 }
    ensures { (result.run ≡ first_record input bytes.now plan) ×
        (levels.new ≡ first_levels input sheet.now bytes.now plan) }
{
    let run = start_run(input, sheet, bytes, plan, levels);
    let sound = Sound { run };
    back::finish(sound, levels);
    sound
}

// The same where the plan is accepted.
fn accepted_run(
    input: Input,
    sheet: &[u8],
    bytes: &[u8],
    plan: Plan,
    levels: &mut [u16],
    second: usize,
    out: usize,
) -> Result<Sound, Refusal>
    ensures { FirstAnswered input sheet.now bytes.now plan
        (record { first = length levels.old; second = second; out = out }) levels.old
        (number result) (record_in result, levels.new) }
{
    let lent = Lengths {
        first: levels.len(),
        second,
        out,
    };
    judging::check_filter(input, sheet, bytes, plan, lent)?;
    Ok(first_run(input, sheet, bytes, plan, levels))
}

// Fills `out` with the sheet that a plan asks for.
pub fn answer_sheet(
    input: Input,
    sheet: &[u8],
    bytes: &[u8],
    plan: Plan,
    first: &mut [u16],
    second: &mut [u16],
    out: &mut [u8],
) -> Result<(), Refusal>
    requires { plan.packed ≡ true }
    ensures { SheetAnswered input sheet.now bytes.now plan
        (record { first = first.old; second = second.old; out = out.old }) (number result)
        (record { first = first.new; second = second.new; out = out.new }) }
{
    let sound = accepted_run(input, sheet, bytes, plan, first, second.len(), out.len())?;
    back::filter_sheet(sound, plan.size, first, second, out);
    Ok(())
}

// Fills `out` with the levels that a plan asks for.
// Kept: two functions, since the contracts' `Buffers` hold numbers, which an output of a type parameter does not.
pub fn answer_levels(
    input: Input,
    sheet: &[u8],
    bytes: &[u8],
    plan: Plan,
    first: &mut [u16],
    second: &mut [u16],
    out: &mut [u16],
) -> Result<(), Refusal>
    requires { plan.packed ≡ false }
    ensures { LevelsAnswered input sheet.now bytes.now plan
        (record { first = first.old; second = second.old; out = out.old }) (number result)
        (record { first = first.new; second = second.new; out = out.new }) }
{
    let sound = accepted_run(input, sheet, bytes, plan, first, second.len(), out.len())?;
    levels::filter_levels(sound, plan, first, second, out);
    Ok(())
}
