// Opening, closing, their transforms, dilating by a map, and the spectrum: the library's own contracts, at the boundary's numbers.
ghost use Rattle.std.specs.Prelude.{◌≡◌};
ghost use Rattle.filters.specs.Filters.{Opens, Closes, OpeningLevels, ClosingLevels};
ghost use Rattle.maps.specs.Maps.{DilatesByMap};
ghost use Rattle.harness.specs.Fractions.{GivesFractions};

use super::answers;
use run::Input;

// The numbers of an input, as C has them.
pub fn input_of(width: u64, height: u64, side: u64) -> Input
    ensures { result ≡ record { width = width; height = height; side = side } }
{
    Input {
        width: width as usize,
        height: height as usize,
        side: side as usize,
    }
}

// Public: the sheet opened by a size, into `out`. Refusals 2 to 8, 10, 11.
#[unsafe(no_mangle)]
pub extern "C" fn wt_open(
    width: u64,
    height: u64,
    sheet: &[u8],
    side: u64,
    cells: &[u8],
    size: u64,
    first: &mut [u16],
    second: &mut [u16],
    out: &mut [u8],
) -> u32
    ensures { Opens (record { width = width; height = height; side = side }) sheet.now cells.now size
        (record { first = first.old; second = second.old; out = out.old }) result
        (record { first = first.new; second = second.new; out = out.new }) }
{
    let input = input_of(width, height, side);
    answers::number(filters::open(input, sheet, cells, size as usize, first, second, out))
}

// Public: the sheet closed by a size, into `out`. Refusals 2 to 11.
#[unsafe(no_mangle)]
pub extern "C" fn wt_close(
    width: u64,
    height: u64,
    sheet: &[u8],
    side: u64,
    cells: &[u8],
    size: u64,
    first: &mut [u16],
    second: &mut [u16],
    out: &mut [u8],
) -> u32
    ensures { Closes (record { width = width; height = height; side = side }) sheet.now cells.now size
        (record { first = first.old; second = second.old; out = out.old }) result
        (record { first = first.new; second = second.new; out = out.new }) }
{
    let input = input_of(width, height, side);
    answers::number(filters::close(input, sheet, cells, size as usize, first, second, out))
}

// Public: the opening levels, into `out`. Refusals 2 to 7, 10, 11.
#[unsafe(no_mangle)]
pub extern "C" fn wt_opening_levels(
    width: u64,
    height: u64,
    sheet: &[u8],
    side: u64,
    cells: &[u8],
    first: &mut [u16],
    second: &mut [u16],
    out: &mut [u16],
) -> u32
    ensures { OpeningLevels (record { width = width; height = height; side = side }) sheet.now cells.now
        (record { first = first.old; second = second.old; out = out.old }) result
        (record { first = first.new; second = second.new; out = out.new }) }
{
    let input = input_of(width, height, side);
    answers::number(filters::opening_levels(input, sheet, cells, first, second, out))
}

// Public: the closing levels up to a cap, into `out`. Refusals 2 to 11.
#[unsafe(no_mangle)]
pub extern "C" fn wt_closing_levels(
    width: u64,
    height: u64,
    sheet: &[u8],
    side: u64,
    cells: &[u8],
    cap: u64,
    first: &mut [u16],
    second: &mut [u16],
    out: &mut [u16],
) -> u32
    ensures { ClosingLevels (record { width = width; height = height; side = side }) sheet.now cells.now cap
        (record { first = first.old; second = second.old; out = out.old }) result
        (record { first = first.new; second = second.new; out = out.new }) }
{
    let input = input_of(width, height, side);
    answers::number(filters::closing_levels(input, sheet, cells, cap as usize, first, second, out))
}

// Public: the sheet in which each foreground point is dilated by its size in a map, into `out`. Refusals 2 to 11, and 8 for a size
// above the cap.
#[unsafe(no_mangle)]
pub extern "C" fn wt_dilate_by_map(
    width: u64,
    height: u64,
    sheet: &[u8],
    side: u64,
    cells: &[u8],
    cap: u64,
    map: &[u16],
    work: &mut [u16],
    out: &mut [u8],
) -> u32
    ensures { DilatesByMap (record { width = width; height = height; side = side }) sheet.now cells.now cap
        map.now (record { work = work.old; out = out.old }) result
        (record { work = work.new; out = out.new }) }
{
    let input = input_of(width, height, side);
    answers::number(maps::dilate_by_map(input, sheet, cells, cap as usize, map, work, out))
}

// Public: how many points have each opening level, into `table`; the mean level over the foreground and the share of the foreground
// at level 1, into `fractions`. Refusals 2 to 7, 10, 11, 14.
#[unsafe(no_mangle)]
pub extern "C" fn wt_spectrum(
    width: u64,
    height: u64,
    sheet: &[u8],
    side: u64,
    cells: &[u8],
    first: &mut [u16],
    second: &mut [u16],
    table: &mut [u64],
    fractions: &mut [f64],
) -> u32
    ensures { GivesFractions (record { width = width; height = height; side = side }) sheet.now cells.now
        (record { first = first.old; second = second.old; out = table.old }) fractions.old result
        (record { first = first.new; second = second.new; out = table.new }, fractions.new) }
{
    let input = input_of(width, height, side);
    if fractions.len() != 2 {
        let judged = spectrum::check_spectrum(
            input,
            sheet,
            cells,
            first.len(),
            second.len(),
            table.len(),
        );
        return answers::at_latest(judged);
    }
    match spectrum::spectrum(input, sheet, cells, first, second, table) {
        Ok(summary) => {
            fractions[0] = summary.mean;
            fractions[1] = summary.share;
            0
        }
        Err(refusal) => refusal.number(),
    }
}
