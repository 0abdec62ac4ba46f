// Elements: from a side and its bytes to seven rows of seven cells, the flat row of a record, and reflection.
#![tactic(auto)]

ghost use Rattle.std.specs.Prelude.{◌≡◌, true, cond, eqb, ◌+◌, ◌-◌, ◌*◌, ◌<◌, ◌≤◌, length, get_or};
ghost use Rattle.basics.specs.Bounds.{any_above};
ghost use Rattle.basics.specs.Refusals.{first, number};
ghost use Rattle.basics.specs.Tables.{table};
ghost use Rattle.element.specs.Elements.{is_side, count_set, element_refusals};
ghost use Rattle.element.specs.Cells.{is_held, centred, centred_cell, turned, flat, unflat};
ghost use Rattle.element.specs.Reflect.{reflected_bytes, Reflects};

use basics::Refusal;

#[tactic(auto, unfolding(crate::specs::Elements::is_side))]
pub fn is_side(side: usize) -> bool
    ensures { result ≡ is_side side }
{
    matches!(side, 1 | 3 | 5 | 7)
}

pub fn any_above_one(bytes: &[u8]) -> bool
    ensures { result ≡ any_above 1 bytes.now }
{
    bytes.iter().any(|&byte| byte > 1)
}

pub fn count_set(bytes: &[u8]) -> usize
    ensures { result ≡ count_set bytes.now }
{
    bytes.iter().filter(|&&byte| byte != 0).count()
}

// Refusals 4 to 7 of an element.
pub fn check_element(side: usize, bytes: &[u8]) -> Result<(), Refusal>
    ensures { number result ≡ first (element_refusals side bytes.now) }
{
    if !is_side(side) || bytes.len() != side * side {
        return Err(Refusal::ElementSide);
    }
    if any_above_one(bytes) {
        return Err(Refusal::ElementByte);
    }
    if bytes[(side - 1) / 2 * side + (side - 1) / 2] == 0 {
        return Err(Refusal::CentreUnset);
    }
    if count_set(bytes) == 1 {
        return Err(Refusal::CentreAlone);
    }
    Ok(())
}

// Whether place `p` of seven is one of the side's, centred among the seven.
#[tactic(auto, using(crate::proofs::ElementLaws::side_bounds), unfolding(crate::specs::Cells::is_held))]
pub fn is_held(side: usize, p: usize) -> bool
    requires { is_side side ≡ true }
    ensures { result ≡ is_held side p }
{
    let before = 3 - (side - 1) / 2;
    before <= p && p < before + side
}

// The cell at a row and a column of the seven by seven.
fn centred_cell(side: usize, bytes: &[u8], row: usize, col: usize) -> u8
    requires { (is_side side ≡ true) × (length bytes.now ≡ side * side) }
    ensures { result ≡ centred_cell side bytes.now row col }
{
    if is_held(side, row) && is_held(side, col) {
        let before = 3 - (side - 1) / 2;
        bytes[(row - before) * side + (col - before)]
    } else {
        0
    }
}

// An accepted element as seven rows of seven cells. Kept: loops, here and below; the check did not find the rows of what
// `array::from_fn` makes (tried). Kept: side and bytes apart, since a struct of both would hold a reference, and each clause would
// say `x.entry.bytes.now`.
pub fn cells_of(side: usize, bytes: &[u8]) -> [[u8; 7]; 7]
    requires { (is_side side ≡ true) × (length bytes.now ≡ side * side) }
    ensures { result ≡ centred side bytes.now }
{
    let mut out = [[0u8; 7]; 7];
    for row in 0..7 {
        for col in 0..7 {
            out[row][col] = centred_cell(side, bytes, row, col);
        }
    }
    out
}

// The cells turned about their centre.
pub fn turned_cells(cells: [[u8; 7]; 7]) -> [[u8; 7]; 7]
    ensures { result ≡ turned cells }
{
    let mut out = [[0u8; 7]; 7];
    for row in 0..7 {
        for col in 0..7 {
            out[row][col] = cells[6 - row][6 - col];
        }
    }
    out
}

// The flat row of 49 that a record keeps.
pub fn flat_cells(cells: [[u8; 7]; 7]) -> [u8; 49]
    ensures { result ≡ flat cells }
{
    let mut out = [0u8; 49];
    for k in 0..49 {
        out[k] = cells[k / 7][k % 7];
    }
    out
}

// The seven rows of a flat row.
pub fn rows_of(cells: [u8; 49]) -> [[u8; 7]; 7]
    ensures { result ≡ unflat cells }
{
    let mut out = [[0u8; 7]; 7];
    for row in 0..7 {
        for col in 0..7 {
            out[row][col] = cells[row * 7 + col];
        }
    }
    out
}

// The bytes from last to first, which is the element reflected.
fn fill_reflected(side: usize, bytes: &[u8], out: &mut [u8])
    requires { (is_side side ≡ true) × ((length bytes.now ≡ side * side) × (length out.old ≡ length bytes.now)) }
    ensures { out.new ≡ reflected_bytes side bytes.now }
{
    basics::copy(bytes, out);
    out.reverse();
}

// Public: fills `out` with the element reflected, the cell at each b taking the byte at -b. Refusals 4, 5, 6, 7, 11.
pub fn reflect(side: usize, bytes: &[u8], out: &mut [u8]) -> Result<(), Refusal>
    ensures { Reflects side bytes.now out.old (number result) out.new }
{
    check_element(side, bytes)?;
    if out.len() != bytes.len() {
        return Err(Refusal::OutputLength);
    }
    fill_reflected(side, bytes, out);
    Ok(())
}
