// The rooms that a case lends parts of.
use super::asking::Case;
use super::calls;
use basics::Refusal;

// The largest parts that a case may lend.
const SHEET: usize = 4097;

const LEVELS: usize = 12291;

const MORE: usize = 32;

const ANSWER: usize = 64;

fn byte_of(number: usize) -> u8 {
    u8::try_from(number).unwrap_or(255)
}

// The element that a number's digits are, by its bytes from the last on; 9 stands for 255.
fn cells_of(digits: usize) -> [u8; 9] {
    let mut cells = [0; 9];
    let mut left = digits;
    for cell in cells.iter_mut().rev() {
        *cell = match left % 10 {
            9 => 255,
            digit => digit as u8,
        };
        left /= 10;
    }
    cells
}

// Whether the call of a case is accepted, where the rooms are large enough for what it lends.
pub fn answer(case: Case, file: &[u8]) -> Option<Result<(), Refusal>> {
    let lent = case.lent;
    let sheet = [byte_of(case.value); SHEET];
    let cells = cells_of(case.element);
    let filled = u16::from(byte_of(case.filled));
    let mut first = [filled; LEVELS];
    let mut second = [filled; MORE];
    let mut levels = [0; ANSWER];
    let mut table = [0; ANSWER];
    let mut bytes = [0; ANSWER];
    Some(calls::answer(
        case,
        file,
        sheet.get(..case.bytes)?,
        cells.get(..case.cells)?,
        first.get_mut(..lent.levels)?,
        second.get_mut(..lent.more)?,
        levels.get_mut(..lent.answer)?,
        table.get_mut(..lent.answer)?,
        bytes.get_mut(..lent.answer)?,
    ))
}
