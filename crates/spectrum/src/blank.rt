// Whether a sheet has any foreground: pixels are looked at, padding bits never.
ghost use Rattle.std.specs.Prelude.{◌≡◌, cond, ◌+◌, ◌*◌, ◌<◌, ◌≤◌, eqb, ltb, length};
ghost use Rattle.basics.specs.Limits.{longest_side};
ghost use Rattle.basics.specs.Sums.{sum};
ghost use Rattle.sheet.specs.Sheets.{row_bytes, pixel};
ghost use Rattle.spectrum.specs.Spectrum.{is_blank};

// Whether a row has a foreground pixel. Kept: a loop that branches on no pixel, as `any` would; maps has one that looks at sizes.
fn any_in_row(width: usize, sheet: &[u8], row: usize) -> bool
    requires { (width ≤ longest_side) × ((row < longest_side) × (row * row_bytes width + row_bytes width ≤ length sheet.now)) }
    ensures { result ≡ ltb 0 (sum width (λ col. cond (eqb (pixel width sheet.now row col) 1) 1 0)) }
{
    let mut found = false;
    for col in 0..width {
        found |= sheet::pixel_at(width, sheet, row, col) == 1;
    }
    found
}

// Whether no row has one.
pub fn is_blank(width: usize, height: usize, sheet: &[u8]) -> bool
    requires { (width ≤ longest_side) × ((height ≤ longest_side) × (length sheet.now ≡ height * row_bytes width)) }
    ensures { result ≡ is_blank width height sheet.now }
{
    for row in 0..height {
        if any_in_row(width, sheet, row) {
            return false;
        }
    }
    true
}
