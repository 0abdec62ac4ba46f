// A run's record as the words that C has of it: kind, width, height, cap, side, rows done, the cells, and the edge rule.
ghost use Rattle.std.specs.Prelude.{◌≡◌, false, cond, length, take, drop, None, Some};
ghost use Rattle.basics.specs.Bounds.{any_above};
ghost use Rattle.harness.specs.Boundary.{record_numbers, record_cells, record_words, highest_byte};
ghost use Rattle.harness.specs.Boundary.{words_of, record_of, holds_no_record};

use run::Record;

const RECORD_NUMBERS: usize = 6;

const RECORD_CELLS: usize = 49;

const EDGE_PLACE: usize = RECORD_NUMBERS + RECORD_CELLS;

pub const RECORD_WORDS: usize = EDGE_PLACE + 1;

const HIGHEST_BYTE: u64 = 255;

// Whether no record is held in the words: there are more or fewer, or the kind, a cell or the edge rule is more than a byte.
#[tactic(auto, unfolding(crate::specs::Boundary::holds_no_record))]
pub fn holds_no_record(words: &[u64]) -> bool
    ensures { result ≡ holds_no_record words.now }
{
    words.len() != RECORD_WORDS || HIGHEST_BYTE < words[0] || any_wide(&words[RECORD_NUMBERS..])
}

// Whether a word is more than a byte.
fn any_wide(words: &[u64]) -> bool
    ensures { result ≡ any_above highest_byte words.now }
{
    words.iter().any(|&word| word > HIGHEST_BYTE)
}

// The cells of the record that the words hold.
fn read_cells(words: &[u64]) -> [u8; RECORD_CELLS]
    requires { holds_no_record words.now ≡ false }
    ensures { result ≡ take record_cells (drop record_numbers words.now) }
{
    let mut cells = [0u8; RECORD_CELLS];
    for k in 0..RECORD_CELLS {
        cells[k] = words[RECORD_NUMBERS + k] as u8;
    }
    cells
}

// The record that the words hold, if they hold one.
pub fn read_record(words: &[u64]) -> Option<Record>
    ensures { result ≡ cond (holds_no_record words.now) None (Some (record_of words.now)) }
{
    if holds_no_record(words) {
        return None;
    }
    Some(Record {
        kind: words[0] as u8,
        width: words[1] as usize,
        height: words[2] as usize,
        cap: words[3] as usize,
        side: words[4] as usize,
        rows: words[5] as usize,
        cells: read_cells(words),
        edge: words[EDGE_PLACE] as u8,
    })
}

// The record's words.
pub fn write_record(run: Record, words: &mut [u64])
    requires { length words.old ≡ record_words }
    ensures { words.new ≡ words_of run }
{
    words[0] = u64::from(run.kind);
    words[1] = run.width as u64;
    words[2] = run.height as u64;
    words[3] = run.cap as u64;
    words[4] = run.side as u64;
    words[5] = run.rows as u64;
    for k in 0..RECORD_CELLS {
        words[RECORD_NUMBERS + k] = u64::from(run.cells[k]);
    }
    words[EDGE_PLACE] = u64::from(run.edge);
}
