// What a call asks for, and what it is refused for: one judge for the four.
ghost use Rattle.std.specs.Prelude.{◌≡◌, ◌≤◌};
ghost use Rattle.basics.specs.Limits.{longest_side};
ghost use Rattle.basics.specs.Refusals.{first, number};
ghost use Rattle.filters.specs.Plans.{limit_of, cap_of, entries_of, start_refusals, work_refusals, plan_refusals};

use super::Input;
use basics::Refusal;
use run::starting;

// An opening or a closing, by a size or up to a cap, into a packed sheet or into levels.
// Kept: two flags; an enum of an opening and a closing would say no more, and the definitions choose by the flags (`size_at`).
#[derive(Clone, Copy)]
pub struct Plan {
    pub closing: bool,
    pub size: usize,
    pub packed: bool,
}

impl Plan {
    // Opening levels, which have no size to ask for.
    pub const OPENING_LEVELS: Plan = Plan {
        closing: false,
        size: 0,
        packed: false,
    };
}

// The lengths of the two work buffers and of the output.
#[derive(Clone, Copy)]
pub struct Lengths {
    pub first: usize,
    pub second: usize,
    pub out: usize,
}

// The largest size or cap.
fn limit_of(plan: Plan) -> usize
    ensures { result ≡ limit_of plan }
{
    if plan.closing {
        basics::HIGHEST_CAP
    } else {
        basics::LARGEST_SIZE
    }
}

// The cap of the first run, whose canvas holds all that a closing dilates to; an opening stays in the frame.
pub fn cap_of(plan: Plan) -> usize
    ensures { result ≡ cap_of plan }
{
    if plan.closing { plan.size } else { 0 }
}

// The entries of a row of the output: bytes of a packed sheet, or levels.
fn row_entries(packed: bool, width: usize) -> usize
    requires { width ≤ longest_side }
    ensures { (result ≡ entries_of packed width) × (result ≤ longest_side) }
{
    if packed {
        sheet::row_bytes(width)
    } else {
        width
    }
}

// Refusals 2 to 10 of the first run, with so many levels.
fn check_first(
    input: Input,
    sheet: &[u8],
    bytes: &[u8],
    plan: Plan,
    count: usize,
) -> Result<(), Refusal>
    ensures { number result ≡ first (start_refusals input sheet.now bytes.now plan count) }
{
    starting::check_start(input, sheet, bytes)?;
    if limit_of(plan) < plan.size {
        return Err(Refusal::Size);
    }
    starting::check_canvas(input, cap_of(plan), count)
}

// The same with the second work buffer.
pub fn check_work(
    input: Input,
    sheet: &[u8],
    bytes: &[u8],
    plan: Plan,
    count: usize,
    second: usize,
) -> Result<(), Refusal>
    ensures { number result ≡ first (work_refusals input sheet.now bytes.now plan count second) }
{
    check_first(input, sheet, bytes, plan, count)?;
    if second != count {
        return Err(Refusal::LevelsLength);
    }
    Ok(())
}

// Refusals 2 to 11.
pub fn check_filter(
    input: Input,
    sheet: &[u8],
    bytes: &[u8],
    plan: Plan,
    lent: Lengths,
) -> Result<(), Refusal>
    ensures { number result ≡ first (plan_refusals input sheet.now bytes.now plan lent) }
{
    check_work(input, sheet, bytes, plan, lent.first, lent.second)?;
    if lent.out != input.height * row_entries(plan.packed, input.width) {
        return Err(Refusal::OutputLength);
    }
    Ok(())
}
