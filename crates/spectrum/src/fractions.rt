// The summary of a table: two fractions of whole numbers, each small enough to be a double exactly.
ghost use Rattle.std.specs.Prelude.{◌≡◌, ◌≤◌};
ghost use Rattle.spectrum.specs.Spectrum.{foreground_points, levels_added, exact_limit, fraction, summary_of};
ghost use Rattle.spectrum.specs.Counting.{IsTable};

use super::Summary;

// The points that are no background.
fn foreground_points(table: &[u64]) -> u64
    requires { IsTable table.now }
    ensures { result ≡ foreground_points table.now }
{
    table[1..].iter().sum()
}

// The levels of all points, added up.
fn levels_added(table: &[u64]) -> u64
    requires { IsTable table.now }
    ensures { result ≡ levels_added table.now }
{
    let mut added = 0;
    for n in 0..table.len() {
        added += n as u64 * table[n];
    }
    added
}

// One division of two whole numbers that are doubles exactly.
fn divided(part: u64, whole: u64) -> f64
    requires { (part ≤ exact_limit) × (whole ≤ exact_limit) }
    ensures { result ≡ fraction part whole }
{
    part as f64 / whole as f64
}

pub fn summary_of(table: &[u64]) -> Summary
    requires { IsTable table.now }
    ensures { result ≡ summary_of table.now }
{
    let points = foreground_points(table);
    let mean = divided(levels_added(table), points);
    let share = divided(table[1], points);
    Summary { mean, share }
}
