// The levels of two cropped sheets of 3 by 3, one full and one with its centre unset, with the cross and R 2; the canvas is 7 by 7.
use super::elements::{self, CROSS};
use super::fault::Result;
use super::lines;
use run::Record;

const CANVAS: usize = 49;

// The levels of a run with all rows done.
fn show(rt: &impl Print, done: Record, levels: &[u16]) -> Result<()> {
    let mut frame = [0; 9];
    let mut text = [0; 128];
    run::pictures::collect(done, levels, &mut frame)?;
    let length = pgm::finished::write_pgm(done, &frame, &mut text)?;
    lines::say_text(rt, &text, length)
}

// A run in slices of so many rows, how many points each lowers, and the levels after all of them.
fn show_run(rt: &impl Print, sheet: &[u8], slices: &[(&str, usize)]) -> Result<()> {
    let input = elements::input_on(3, 3);
    let mut levels = [0; CANVAS];
    let mut record = run::starting::start_cropped(input, sheet, &CROSS, 2, &mut levels)?;
    for &(slice, rows) in slices {
        let continued = run::continuing::continue_run(record, &mut levels, rows)?;
        lines::say_count(rt, slice, continued.lowered)?;
        record = continued.run;
    }
    show(rt, record, &levels)
}

pub fn say_crops(rt: &impl Print) -> Result<()> {
    let full = [224; 3];
    let ring = [224, 160, 224];
    show_run(rt, &full, &[("full crop, rows 1 to 14", 14)])?;
    show_run(rt, &ring, &[("crop without centre, rows 1 to 14", 14)])?;
    show_run(
        rt,
        &ring,
        &[
            ("crop without centre, rows 1 to 4", 4),
            ("crop without centre, rows 5 to 9", 5),
            ("crop without centre, rows 10 to 14", 5),
        ],
    )
}
