// Levels written as plain PGM text: its length, and the text.
#![tactic(auto)]

pub mod finished;

ghost use Rattle.std.specs.Prelude.{◌≡◌, ◌∷◌, ◌+◌, ◌*◌, ◌<◌, ◌≤◌, length};
ghost use Rattle.decimal.specs.Numbers.{digits};
ghost use Rattle.pgm.specs.PgmText.{stays, parting, column_after, level_row, frame_row, levels_text};
ghost use Rattle.text.specs.Writing.{Wrote};
ghost use Rattle.pgm.specs.Lines.{line_width};
ghost use Rattle.basics.specs.Limits.{longest_side};
ghost use Rattle.pgm.specs.Writing.{levels_size, header_text, picture_text, SmallHeader, IsPicture};

// The characters of a line, its end not counted.
const LINE_WIDTH: usize = 70;

// What the lines before the levels state: the rows done and due, the sides, and the maximum.
#[derive(Clone, Copy)]
pub struct Header {
    pub done: usize,
    pub due: usize,
    pub width: usize,
    pub height: usize,
    pub maximum: usize,
}

// Whether a number of `size` digits stays on a line of `column` characters, as long as the sum fits.
#[tactic(auto, unfolding(crate::specs::PgmText::stays))]
fn stays_on(column: usize, size: usize) -> bool
    requires { column + 1 + size < 18446744073709551616 }
    ensures { result ≡ stays column size }
{
    column + 1 + size <= LINE_WIDTH
}

// The byte before that number: a blank, or the end of the line before.
#[tactic(auto, unfolding(crate::specs::PgmText::parting))]
fn parting_byte(column: usize, size: usize) -> u8
    requires { column + 1 + size < 18446744073709551616 }
    ensures { result ≡ parting column size }
{
    if stays_on(column, size) { b' ' } else { b'\n' }
}

// The characters of its line up to its end.
#[tactic(auto, unfolding(crate::specs::PgmText::column_after))]
fn column_after(column: usize, size: usize) -> usize
    requires { column + 1 + size < 18446744073709551616 }
    ensures { result ≡ column_after column size }
{
    if stays_on(column, size) {
        column + 1 + size
    } else {
        size
    }
}

// Writes a level that follows `column` characters of a line: its digits, and before them what parts it from the number before.
// This and the functions below write to the front of `out` and give the length of what they wrote.
fn write_parted(level: usize, column: usize, out: &mut [u8]) -> usize
    requires { (column ≤ line_width) × (1 + length (digits level) ≤ length out.old) }
    ensures { Wrote (parting column (length (digits level)) ∷ digits level) out.old out.new result }
{
    let size = decimal::write_number(level, &mut out[1..]);
    out[0] = parting_byte(column, size);
    1 + size
}

// Writes the rest of a frame row, which follows `start` characters of a line, and ends the last line.
fn write_rest(rest: &[u16], start: usize, out: &mut [u8]) -> usize
    requires { (start ≤ line_width) × (length (level_row start rest.now) ≤ length out.old) }
    ensures { Wrote (level_row start rest.now) out.old out.new result }
{
    let mut column = start;
    let mut end = 0;
    for &level in rest {
        let size = write_parted(usize::from(level), column, &mut out[end..]);
        column = column_after(column, size - 1);
        end += size;
    }
    out[end] = b'\n';
    end + 1
}

// Writes a frame row.
fn write_row(row: &[u16], out: &mut [u8]) -> usize
    requires { (0 < length row.now) × (length (frame_row row.now) ≤ length out.old) }
    ensures { Wrote (frame_row row.now) out.old out.new result }
{
    let start = decimal::write_number(usize::from(row[0]), out);
    start + write_rest(&row[1..], start, &mut out[start..])
}

// Writes the frame rows one after the other.
fn write_levels(header: Header, levels: &[u16], out: &mut [u8]) -> usize
    requires { (0 < header.width) × ((length levels.now ≡ header.height * header.width) ×
        (length (levels_text header.width header.height levels.now) ≤ length out.old)) }
    ensures { Wrote (levels_text header.width header.height levels.now) out.old out.new result }
{
    let mut end = 0;
    for row in levels.chunks_exact(header.width) {
        end += write_row(row, &mut out[end..]);
    }
    end
}

// Writes the header, which begins with the magic number of its format.
#[tactic(auto, unfolding(crate::specs::PgmText::pgm_header))]
pub fn write_header(magic: &[u8], header: Header, out: &mut [u8]) -> usize
    requires { length (header_text magic.now header) ≤ length out.old }
    ensures { Wrote (header_text magic.now header) out.old out.new result }
{
    let mut end = text::write_bytes(magic, out);
    end += text::write_pair(
        b"\n# rows ",
        header.done,
        b" of ",
        header.due,
        &mut out[end..],
    );
    end += text::write_pair(b"\n", header.width, b" ", header.height, &mut out[end..]);
    end += text::write_labelled(b"\n", header.maximum, &mut out[end..]);
    end + text::write_bytes(b"\n", &mut out[end..])
}

// The length of a header whose magic number has two bytes.
#[tactic(auto, using(crate::proofs::SizeLaws::header_size, crate::proofs::SizeLaws::header_bound))]
pub fn header_length(magic: &[u8], header: Header) -> usize
    requires { (length magic.now ≡ 2) × SmallHeader header }
    ensures { result ≡ length (header_text magic.now header) }
{
    18 + decimal::digit_count(header.done)
        + decimal::digit_count(header.due)
        + decimal::digit_count(header.width)
        + decimal::digit_count(header.height)
        + decimal::digit_count(header.maximum)
}

// The length of the levels' text: a byte parts each number from the next, wherever the lines end.
fn levels_length(levels: &[u16]) -> usize
    requires { length levels.now ≤ longest_side * longest_side }
    ensures { (result ≡ levels_size levels.now) × (result ≤ 6 * (longest_side * longest_side)) }
{
    let mut sum = 0;
    for &level in levels {
        sum += decimal::digit_count(usize::from(level)) + 1;
    }
    sum
}

// The length of the text.
pub fn pgm_length(header: Header, levels: &[u16]) -> usize
    requires { IsPicture header levels.now }
    ensures { result ≡ length (picture_text header levels.now) }
{
    header_length(b"P2", header) + levels_length(levels)
}

// Writes the text at the front of `out`, which has room for it, and gives its length.
#[tactic(auto, unfolding(crate::specs::PgmText::pgm_text))]
pub fn write_pgm_text(header: Header, levels: &[u16], out: &mut [u8]) -> usize
    requires { IsPicture header levels.now × (length (picture_text header levels.now) ≤ length out.old) }
    ensures { Wrote (picture_text header levels.now) out.old out.new result }
{
    let start = write_header(b"P2", header, out);
    start + write_levels(header, levels, &mut out[start..])
}
