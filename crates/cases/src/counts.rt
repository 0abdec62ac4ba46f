// How many points slices of rows lower, of an erosion of a sheet of 3 by 3 with the cross.
use super::elements::{self, CROSS};
use super::fault::Result;
use super::lines;
use basics::Refusal;

// The second of two slices.
fn second_slice(sheet: &[u8], first: usize, second: usize) -> Result<usize, Refusal> {
    let input = elements::input_on(3, 3);
    let mut levels = [0; 9];
    let started = run::starting::start_erosion(input, sheet, &CROSS, &mut levels)?;
    let begun = run::continuing::continue_run(started, &mut levels, first)?;
    let continued = run::continuing::continue_run(begun.run, &mut levels, second)?;
    Ok(continued.lowered)
}

// A slice that is refused lowers none.
pub fn say_counts(rt: &impl Print) -> Result<()> {
    let full = [224; 3];
    let blank = [0; 3];
    for (slice, sheet, first, second) in [
        ("full sheet, rows 1 and 2", full, 0, 2),
        ("full sheet, rows 3 to 6", full, 2, 4),
        ("full sheet, rows 1 to 6", full, 0, 6),
        ("full sheet, no rows due", full, 6, 6),
        ("full sheet, an allowance of 8193", full, 0, 8193),
        ("blank sheet, rows 1 to 6", blank, 0, 6),
    ] {
        lines::say_count(rt, slice, second_slice(&sheet, first, second).unwrap_or(0))?;
    }
    Ok(())
}
