// Opening, closing and their transforms: a finished erosion or dilation, and the way back from it at each size asked for.
#![tactic(auto)]

pub mod answering;
pub mod back;
pub mod judging;
pub mod levels;

ghost use Rattle.basics.specs.Refusals.{number};
ghost use Rattle.filters.specs.Filters.{Opens, Closes, OpeningLevels, ClosingLevels};

use basics::Refusal;
pub use run::Input;

// Public: fills `out` with the sheet opened by a size. Refusals 2 to 8, 10, 11.
// Kept: this and the next three, each with a promise and theorems of its own; what they share is one `Plan`, answered in one place.
pub fn open(
    input: Input,
    sheet: &[u8],
    bytes: &[u8],
    size: usize,
    first: &mut [u16],
    second: &mut [u16],
    out: &mut [u8],
) -> Result<(), Refusal>
    ensures { Opens input sheet.now bytes.now size
        (record { first = first.old; second = second.old; out = out.old }) (number result)
        (record { first = first.new; second = second.new; out = out.new }) }
{
    let plan = judging::Plan {
        closing: false,
        size,
        packed: true,
    };
    answering::answer_sheet(input, sheet, bytes, plan, first, second, out)
}

// Public: fills `out` with the sheet closed by a size. Refusals 2 to 11.
pub fn close(
    input: Input,
    sheet: &[u8],
    bytes: &[u8],
    size: usize,
    first: &mut [u16],
    second: &mut [u16],
    out: &mut [u8],
) -> Result<(), Refusal>
    ensures { Closes input sheet.now bytes.now size
        (record { first = first.old; second = second.old; out = out.old }) (number result)
        (record { first = first.new; second = second.new; out = out.new }) }
{
    let plan = judging::Plan {
        closing: true,
        size,
        packed: true,
    };
    answering::answer_sheet(input, sheet, bytes, plan, first, second, out)
}

// Public: fills `out` with the opening levels. Refusals 2 to 7, 10, 11.
pub fn opening_levels(
    input: Input,
    sheet: &[u8],
    bytes: &[u8],
    first: &mut [u16],
    second: &mut [u16],
    out: &mut [u16],
) -> Result<(), Refusal>
    ensures { OpeningLevels input sheet.now bytes.now
        (record { first = first.old; second = second.old; out = out.old }) (number result)
        (record { first = first.new; second = second.new; out = out.new }) }
{
    let plan = judging::Plan::OPENING_LEVELS;
    answering::answer_levels(input, sheet, bytes, plan, first, second, out)
}

// Public: fills `out` with the closing levels up to a cap. Refusals 2 to 11.
pub fn closing_levels(
    input: Input,
    sheet: &[u8],
    bytes: &[u8],
    cap: usize,
    first: &mut [u16],
    second: &mut [u16],
    out: &mut [u16],
) -> Result<(), Refusal>
    ensures { ClosingLevels input sheet.now bytes.now cap
        (record { first = first.old; second = second.old; out = out.old }) (number result)
        (record { first = first.new; second = second.new; out = out.new }) }
{
    let plan = judging::Plan {
        closing: true,
        size: cap,
        packed: false,
    };
    answering::answer_levels(input, sheet, bytes, plan, first, second, out)
}
