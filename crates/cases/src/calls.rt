// The call of a case, with what is lent to it.
use super::asking::{Call, Case};
use super::records;
use basics::Refusal;
use run::{Input, starting};

// Whether the call of a case is accepted. For a dilation by a map, the second levels are the map.
pub fn answer(
    case: Case,
    file: &[u8],
    sheet: &[u8],
    cells: &[u8],
    first: &mut [u16],
    second: &mut [u16],
    levels: &mut [u16],
    table: &mut [u64],
    out: &mut [u8],
) -> Result<(), Refusal> {
    let Case {
        width,
        height,
        side,
        number,
        ..
    } = case;
    let input = Input {
        width,
        height,
        side,
    };
    let record = || records::record_of(case.run);
    match case.call {
        Call::StartErosion => starting::start_erosion(input, sheet, cells, first).map(drop),
        Call::StartDilation => {
            starting::start_dilation(input, sheet, cells, number, first).map(drop)
        }
        Call::StartCropped => starting::start_cropped(input, sheet, cells, number, first).map(drop),
        Call::ContinueRun => run::continuing::continue_run(record()?, first, number).map(drop),
        Call::Collect => run::pictures::collect(record()?, first, levels),
        Call::Threshold => run::pictures::threshold(record()?, first, number, out),
        Call::Provisional => run::provisional::provisional(record()?, first, number, out).map(drop),
        Call::WritePgm => pgm::finished::write_pgm(record()?, first, out).map(drop),
        Call::Reflect => element::reflect(side, cells, out),
        Call::ReadPbm => pbm::read_pbm(file, out).map(drop),
        Call::WritePbm => pbm::write_pbm(width, height, sheet, out).map(drop),
        Call::Open => filters::open(input, sheet, cells, number, first, second, out),
        Call::Close => filters::close(input, sheet, cells, number, first, second, out),
        Call::OpeningLevels => filters::opening_levels(input, sheet, cells, first, second, levels),
        Call::ClosingLevels => {
            filters::closing_levels(input, sheet, cells, number, first, second, levels)
        }
        Call::DilateByMap => maps::dilate_by_map(input, sheet, cells, number, second, first, out),
        Call::Spectrum => spectrum::spectrum(input, sheet, cells, first, second, table).map(drop),
    }
}
