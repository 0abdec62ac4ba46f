// The records that cases lend, of runs on a full 3 by 3 sheet with the cross; on a canvas with R 1.
use super::elements::{self, CROSS};
use basics::Refusal;
use run::Record;

const SHEET: [u8; 3] = [224, 224, 224];

// A started erosion.
fn begun() -> Result<Record, Refusal> {
    run::starting::start_erosion(elements::input_on(3, 3), &SHEET, &CROSS, &mut [0; 9])
}

// Kept: this and the next, a call of another function each.
fn begun_dilation() -> Result<Record, Refusal> {
    run::starting::start_dilation(elements::input_on(3, 3), &SHEET, &CROSS, 1, &mut [0; 25])
}

fn begun_cropped() -> Result<Record, Refusal> {
    run::starting::start_cropped(elements::input_on(3, 3), &SHEET, &CROSS, 1, &mut [0; 25])
}

// The record of a run with all rows done.
fn done(begun: Record, levels: &mut [u16]) -> Result<Record, Refusal> {
    Ok(run::continuing::continue_run(begun, levels, basics::MOST_ROWS)?.run)
}

// The record with another edge rule, as no start gives it.
fn ruled(begun: Record, edge: u8) -> Record {
    Record { edge, ..begun }
}

// Kept: numbers, as the list writes them.
// By its number in the list: 1 and 2 an erosion begun and done, 3 and 4 a cropped sheet's; 5 a dilation with edge rule 1, 6 an
// erosion with edge rule 2, 7 one with edge rule 0 and a cap; any other all zero.
pub fn record_of(number: usize) -> Result<Record, Refusal> {
    match number {
        1 => begun(),
        2 => done(begun()?, &mut [0; 9]),
        3 => begun_cropped(),
        4 => done(begun_cropped()?, &mut [0; 25]),
        5 => Ok(ruled(begun_dilation()?, 1)),
        6 => Ok(ruled(begun()?, 2)),
        7 => Ok(ruled(begun_cropped()?, 0)),
        _ => Ok(Record {
            kind: 0,
            width: 0,
            height: 0,
            cap: 0,
            side: 0,
            rows: 0,
            cells: [0; 49],
            edge: 0,
        }),
    }
}
