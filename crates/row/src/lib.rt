// The row rule on a part of the levels. The row is worked in a buffer of its own: by the rows already met, whole row by whole row,
// then by the own row, column by column. Then it is stored, and the levels that fell are counted.
#![tactic(auto)]

ghost use Rattle.std.specs.Prelude.{◌≡◌, ◌≢◌, ℕ, true, false, ◌+◌, ◌*◌, ◌<◌, ◌≤◌, min, length, get_or, set};
ghost use Rattle.basics.specs.Limits.{longest_side};
ghost use Rattle.row.specs.RowRule.{none, more, place, least, row_rule, points_lowered};
ghost use Rattle.row.specs.Passes.{Lowers, Pass, column_at, first_other, leads_back, step, Lowest, TwoLowest, own_columns};

// The level that means "nothing found yet".
pub const NONE: u16 = u16::MAX;

// The area worked on: its sides, what a partner beyond it reads, and the seven rows of seven cells whose set cells lead from a
// point to its partners.
#[derive(Clone, Copy)]
pub struct Area {
    pub width: usize,
    pub height: usize,
    pub beyond: u16,
    pub cells: [[u8; 7]; 7],
}

// Each level, lowered to one more than what is offered to it.
fn lower_each<F: Fn(usize) -> u16>(levels: &mut [u16], offer: F)
    requires { (i : ℕ) → i < length levels.old → F.pre offer i }
    ensures { Lowers (F.post offer) levels.old levels.new }
{
    for i in 0..levels.len() {
        levels[i] = levels[i].min(offer(i).saturating_add(1));
    }
}

// The row, by the partners in the row that a cell leads to, `across` columns on from 3 before. It is not inlined, so that nothing
// of it is worked out for the cells that are not set.
#[inline(never)]
fn by_columns(worked: &mut [u16], partners: &[u16], across: usize, beyond: u16)
    requires { length partners.now ≡ length worked.old }
    ensures { Pass 0 (length worked.old) (λ col. more (column_at (length worked.old) 0 beyond partners.now (col + across)))
        worked.old worked.new }
{
    let width = worked.len();
    // how many columns have their partner beyond an edge
    let left = 3usize.saturating_sub(across).min(width);
    let right = across.saturating_sub(3).min(width);
    let end = width - right;
    lower_each(&mut worked[..left], |_| beyond);
    lower_each(&mut worked[left..end], |i| partners[right + i]);
    lower_each(&mut worked[end..], |_| beyond);
}

// The row, by the partners that cell `k`, in another row of the element, leads to.
fn by_cell(worked: &mut [u16], part: &[u16], area: &Area, row: usize, k: usize)
    requires { (length part.now ≡ area.now.height * area.now.width) ×
        ((row < area.now.height) × ((length worked.old ≡ area.now.width) × ((area.now.height ≤ longest_side) × (k < 49)))) }
    ensures { Pass 0 area.now.width (λ col. more (least area.now part.now row col k 1)) worked.old worked.new }
{
    if area.cells[k / 7][k % 7] == 0 {
        return;
    }
    let met = row + k / 7;
    if (3..area.height + 3).contains(&met) {
        let from = (met - 3) * area.width;
        by_columns(worked, &part[from..from + area.width], k % 7, area.beyond);
    } else {
        lower_each(worked, |_| area.beyond);
    }
}

// The row, by its partners in the rows already met: the 21 cells before the own row's, or the 21 after them.
fn by_other_rows(worked: &mut [u16], part: &[u16], area: &Area, row: usize, upward: bool)
    requires { (length part.now ≡ area.now.height * area.now.width) ×
        ((row < area.now.height) × ((length worked.old ≡ area.now.width) × (area.now.height ≤ longest_side))) }
    ensures { Pass 0 area.now.width (λ col. more (least area.now part.now row col (first_other upward) 21)) worked.old worked.new }
{
    let first = if upward { 28 } else { 0 };
    for n in 0..21 {
        by_cell(worked, part, area, row, first + n);
    }
}

// The column worked at turn `t`.
#[tactic(auto, unfolding(crate::specs::RowRule::place))]
fn column(upward: bool, width: usize, t: usize) -> usize
    requires { t < width }
    ensures { result ≡ place upward width t }
{
    if upward { width - 1 - t } else { t }
}

// Whether the cell that leads to the column worked `d` turns ago is set.
#[tactic(auto, unfolding(crate::specs::RowRule::cell_number, crate::specs::Passes::cell_back, crate::specs::Passes::leads_back))]
fn leads_back(cells: [[u8; 7]; 7], upward: bool, d: usize) -> bool
    requires { (1 ≤ d) × (d ≤ 3) }
    ensures { result ≡ leads_back cells upward d }
{
    let col = if upward { 3 + d } else { 3 - d };
    cells[3][col] != 0
}

// What a cell of the own row adds to its partner's level: 1, or, where it is not set, so much that nothing is lowered.
#[tactic(auto, unfolding(crate::specs::Passes::step))]
fn step_of(set: bool) -> u32
    ensures { (result ≡ step set) × (result ≤ none) }
{
    if set { 1 } else { u32::from(NONE) }
}

// The level at `at`, lowered to the least of three. It waits for `near` last, which is known last. In 32 bits, a level and a step
// add up with no limit to test. Kept: a row and an index in it, by which both directions go.
fn lower_to_least(worked: &mut [u16], at: usize, near: u32, middle: u32, far: u32) -> u32
    requires { at < length worked.old }
    ensures { Lowest worked.old worked.new at near middle far result }
{
    let level = u32::from(worked[at]).min(middle.min(far)).min(near);
    worked[at] = level as u16;
    level
}

// The row, by its partners in the own row, with the three levels worked last in locals. It is not inlined, so that its loops keep
// all that they need in registers.
#[inline(never)]
fn by_three(worked: &mut [u16], upward: bool, one: bool, two: bool, three: bool, beyond: u16)
    ensures { worked.new ≡ own_columns upward (length worked.old) one two three beyond (length worked.old) worked.old }
{
    let from_near = step_of(one);
    let from_middle = step_of(two);
    let from_far = step_of(three);
    let mut near = u32::from(beyond);
    let mut middle = near;
    let mut far = near;
    let width = worked.len();
    for t in 0..width {
        let level = lower_to_least(
            worked,
            column(upward, width, t),
            near + from_near,
            middle + from_middle,
            far + from_far,
        );
        far = middle;
        middle = near;
        near = level;
    }
}

// Two columns, where the nearest cell alone is set. What the second waits for beside `near` is known before it.
fn lower_two(worked: &mut [u16], first: usize, second: usize, near: u32) -> u32
    requires { (first < length worked.old) × ((second < length worked.old) × ((first ≢ second) × (near ≤ none))) }
    ensures { TwoLowest worked.old worked.new first second near result }
{
    let one = u32::from(worked[first]);
    let two = u32::from(worked[second]).min(one + 1);
    let level = two.min(near + 2);
    worked[first] = one.min(near + 1) as u16;
    worked[second] = level as u16;
    level
}

// The row, by its partners in the own row, where the nearest of the three cells is the only one set.
#[tactic(auto, unfolding(crate::specs::RowRule::place))]
fn by_nearest(worked: &mut [u16], upward: bool, beyond: u16)
    ensures { worked.new ≡ own_columns upward (length worked.old) true false false beyond (length worked.old) worked.old }
{
    let none = u32::from(NONE);
    let mut near = u32::from(beyond);
    let width = worked.len();
    for pair in 0..width / 2 {
        let first = column(upward, width, 2 * pair);
        let second = if upward { first - 1 } else { first + 1 };
        near = lower_two(worked, first, second, near);
    }
    if width % 2 == 1 {
        lower_to_least(
            worked,
            column(upward, width, width - 1),
            near + 1,
            none,
            none,
        );
    }
}

// The row, by its partners in the own row. Where none of the three cells is set they change nothing.
fn by_own_row(worked: &mut [u16], area: &Area, upward: bool)
    ensures { worked.new ≡ own_columns upward (length worked.old) (leads_back area.now.cells upward 1)
        (leads_back area.now.cells upward 2) (leads_back area.now.cells upward 3) area.now.beyond (length worked.old) worked.old }
{
    let one = leads_back(area.cells, upward, 1);
    let two = leads_back(area.cells, upward, 2);
    let three = leads_back(area.cells, upward, 3);
    if two || three {
        by_three(worked, upward, one, two, three, area.beyond);
        return;
    }
    if one {
        by_nearest(worked, upward, area.beyond);
    }
}

// Stores the row worked, and counts the levels that fell.
fn settle(stored: &mut [u16], worked: &[u16]) -> usize
    requires { (length worked.now ≡ length stored.old) × (length stored.old ≤ longest_side) }
    ensures { (stored.new ≡ worked.now) × (result ≡ points_lowered stored.old stored.new) }
{
    let mut fallen = 0u16;
    for i in 0..stored.len() {
        if worked[i] < stored[i] {
            fallen += 1;
        }
        stored[i] = worked[i];
    }
    usize::from(fallen)
}

// Kept: `upward` is a flag here and below, as it is in `row_rule` of the definitions; a direction has no third.
// The row rule on a part of the levels, the rows of `area`, at row `row` of the part; and how many points it lowers. It works in
// `worked`, whatever that holds.
pub fn row_rule(part: &mut [u16], worked: &mut [u16], area: Area, row: usize, upward: bool) -> usize
    requires { (length part.old ≡ area.height * area.width) × ((row < area.height) ×
        ((area.width ≤ longest_side) × ((area.height ≤ longest_side) × (area.width ≤ length worked.old)))) }
    ensures { (part.new ≡ row_rule area upward row part.old) × (result ≡ points_lowered part.old part.new) }
{
    let start = row * area.width;
    let end = start + area.width;
    let worked = &mut worked[..area.width];
    basics::copy(&part[start..end], worked);
    by_other_rows(worked, part, &area, row, upward);
    by_own_row(worked, &area, upward);
    settle(&mut part[start..end], worked)
}
