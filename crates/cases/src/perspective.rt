// The worked example of dilating by a map: of a row of seven, points 1 and 5 by sizes 0 and 1, with the origin and its right
// neighbour. Printed is the byte of the answer, 70 for points 1, 5 and 6.
use super::elements::{self, PAIR};
use super::fault::Result;
use super::lines;
use basics::Refusal;

// The byte that a row's byte gives, with a size at the background points.
fn dilated(row: u8, elsewhere: u16) -> Result<u8, Refusal> {
    let input = elements::input_on(7, 1);
    let sheet = [row];
    let map = [elsewhere, 0, elsewhere, elsewhere, elsewhere, 1, elsewhere];
    let mut work = [9u16; 27];
    let mut out = [0u8; 1];
    maps::dilate_by_map(input, &sheet, &PAIR, 1, &map, &mut work, &mut out)?;
    Ok(out[0])
}

// The same byte with the padding bit unset and set, and with small and large sizes at the background points.
pub fn say_perspective(rt: &impl Print) -> Result<()> {
    lines::say(rt, b"two points, sizes 0 and 1", u32::from(dilated(68, 0)?))?;
    lines::say(
        rt,
        b"two points, padding bit set, 65535 elsewhere",
        u32::from(dilated(69, 65535)?),
    )
}
