// The spectrum of sizes: how many of the frame's points have each opening level, and two fractions of the foreground.
#![tactic(auto)]

mod blank;
mod counting;
mod fractions;

ghost use Rattle.std.specs.Prelude.{◌≡◌};
ghost use Rattle.basics.specs.Refusals.{first, number, value_or};
ghost use Rattle.spectrum.specs.Spectrum.{refusals_by, no_summary, GivesSpectrum};

use basics::Refusal;
use filters::judging::{self, Plan};
use filters::{Input, answering};

// The mean opening level over the foreground, and the share of the foreground at level 1.
#[derive(Clone, Copy)]
pub struct Summary {
    pub mean: f64,
    pub share: f64,
}

// Refusals 2 to 7, 10, 11 and 14 with buffers of these lengths. Kept: three numbers, as the definition takes them (`refusals_by`).
pub fn check_spectrum(
    input: Input,
    sheet: &[u8],
    bytes: &[u8],
    one: usize,
    two: usize,
    entries: usize,
) -> Result<(), Refusal>
    ensures { number result ≡ first (refusals_by input sheet.now bytes.now one two entries) }
{
    judging::check_work(input, sheet, bytes, Plan::OPENING_LEVELS, one, two)?;
    if entries != input.width.max(input.height) + 1 {
        return Err(Refusal::OutputLength);
    }
    if blank::is_blank(input.width, input.height, sheet) {
        return Err(Refusal::BlankSheet);
    }
    Ok(())
}

// Public: fills `table` with how many points have each opening level, from 0, the background, to the larger side; the work buffers
// become all zero. Refusals 2 to 7, 10, 11, 14.
pub fn spectrum(
    input: Input,
    sheet: &[u8],
    bytes: &[u8],
    first: &mut [u16],
    second: &mut [u16],
    table: &mut [u64],
) -> Result<Summary, Refusal>
    ensures { GivesSpectrum input sheet.now bytes.now
        (record { first = first.old; second = second.old; out = table.old }) (number result)
        (record { first = first.new; second = second.new; out = table.new }, value_or no_summary result) }
{
    check_spectrum(input, sheet, bytes, first.len(), second.len(), table.len())?;
    let sound = answering::first_run(input, sheet, bytes, Plan::OPENING_LEVELS, first);
    counting::fill_table(sound, first, second, table);
    first.fill(0);
    second.fill(0);
    Ok(fractions::summary_of(table))
}
