// The spectrum of case 6: the row 1 0 1 1 1, with the origin and its right neighbour, has opening levels 1 0 3 3 3. Printed are the
// table's entries, 1 1 0 3 0 0, and 1 where the mean level is 10/4 and where the share at level 1 is 1/4.
use super::elements::{self, PAIR};
use super::fault::Result;
use super::lines;

pub fn say_spectrum(rt: &impl Print) -> Result<()> {
    let input = elements::input_on(5, 1);
    let sheet = [184u8];
    let mut first = [9u16; 5];
    let mut second = [9u16; 5];
    let mut table = [9u64; 6];
    let summary = spectrum::spectrum(input, &sheet, &PAIR, &mut first, &mut second, &mut table)?;
    for (level, points) in table.iter().enumerate() {
        print!(rt; "row 1 0 1 1 1, points of level {level}")?;
        println!(rt; ": {points}")?;
    }
    lines::say(rt, b"mean level is 10/4", u32::from(summary.mean == 2.5))?;
    lines::say(
        rt,
        b"share at level 1 is 1/4",
        u32::from(summary.share == 0.25),
    )
}
