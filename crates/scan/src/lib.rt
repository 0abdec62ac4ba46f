// A scan of rows over lent levels: each row is worked in the part of the levels that begins where docs/RULES.md says, and how many
// points it lowers is answered.
#![tactic(auto)]

ghost use Rattle.std.specs.Prelude.{◌≡◌, ◌+◌, ◌<◌, ◌≤◌, length};
ghost use Rattle.basics.specs.Limits.{longest_side};
ghost use Rattle.row.specs.RowRule.{row_rule, points_lowered};
ghost use Rattle.scan.specs.Scan.{Lent, Within, Reaches, scan_row, scan_rows, rows_lowered};

use row::Area;

// A row, in the part of the levels that begins at row `start`.
fn row_in_part(
    levels: &mut [u16],
    worked: &mut [u16],
    area: &Area,
    start: usize,
    row: usize,
    upward: bool,
) -> usize
    requires { Lent area.now.width area.now.height levels.old × ((length worked.old ≡ longest_side) ×
        ((start ≤ row) × ((row < area.now.height) × Within upward start row area.now.cells))) }
    ensures { (levels.new ≡ row_rule area.now upward row levels.old) × (result ≡ points_lowered levels.old levels.new) }
{
    let part = Area {
        height: area.height - start,
        ..*area
    };
    row::row_rule(
        &mut levels[start * area.width..],
        worked,
        part,
        row - start,
        upward,
    )
}

// The row that is due after `done` rows: on the upward scan in the part that begins at that row; on the downward scan in the part
// that begins `reach` rows higher, or at row 0 where there are fewer.
fn scan_row(levels: &mut [u16], worked: &mut [u16], area: &Area, done: usize, reach: usize) -> usize
    requires { Lent area.now.width area.now.height levels.old × ((length worked.old ≡ longest_side) ×
        ((done < area.now.height + area.now.height) × Reaches reach area.now.cells)) }
    ensures { (levels.new ≡ scan_row area.now done levels.old) × (result ≡ points_lowered levels.old levels.new) }
{
    if done < area.height {
        let start = done.saturating_sub(reach);
        return row_in_part(levels, worked, area, start, done, false);
    }
    let row = area.height + area.height - 1 - done;
    row_in_part(levels, worked, area, row, row, true)
}

// `count` rows, after `done` rows.
pub fn scan_rows(levels: &mut [u16], area: &Area, done: usize, count: usize, reach: usize) -> usize
    requires { Lent area.now.width area.now.height levels.old × ((done + count ≤ area.now.height + area.now.height) ×
        Reaches reach area.now.cells) }
    ensures { (levels.new ≡ scan_rows area.now done count levels.old) ×
        (result ≡ rows_lowered area.now done count levels.old) }
{
    let mut worked = [0u16; basics::LONGEST_SIDE];
    let mut lowered = 0;
    for n in 0..count {
        lowered += scan_row(levels, &mut worked, area, done + n, reach);
    }
    lowered
}
