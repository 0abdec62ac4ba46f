// Counting the points of each level: those that one size holds and the next does not.
ghost use Rattle.std.specs.Prelude.{◌≡◌, ◌*◌, ◌≤◌, length, get_or};
ghost use Rattle.basics.specs.Limits.{longest_side, largest_size};
ghost use Rattle.basics.specs.Sums.{sum, points_where};
ghost use Rattle.run.specs.Records.{area_width, area_height};
ghost use Rattle.run.specs.Patches.{Canvas, level_in, held_between};
ghost use Rattle.filters.specs.Back.{is_found, Highest, Ready};
ghost use Rattle.spectrum.specs.Counting.{HasLevels, CountsAbove, FillsTable};

use run::kinds::Bounds;
use run::records::Frame;
use run::sound::Sound;

// How many of the levels are held.
// Kept: counted by index and in 16 bits; over the levels themselves it is slower by a third, by `count()` six times (measured).
fn count_row(levels: &[u16], bounds: Bounds) -> usize
    requires { length levels.now ≤ longest_side }
    ensures { result ≡ sum (length levels.now) (λ i. held_between bounds.low bounds.high (get_or levels.now i 0)) }
{
    let mut count = 0u16;
    for i in 0..levels.len() {
        count += u16::from(bounds.hold(levels[i]));
    }
    usize::from(count)
}

// The same in all rows of the frame's part of the levels.
fn count_frame(levels: &[u16], frame: Frame, bounds: Bounds) -> usize
    requires { Canvas frame.width frame.height frame.margin levels.now }
    ensures { result ≡ sum frame.height (λ row. sum frame.width
        (λ col. held_between bounds.low bounds.high (level_in frame.width frame.margin levels.now row col))) }
{
    let mut count = 0;
    for row in 0..frame.height {
        count += count_row(frame.row(levels, row), bounds);
    }
    count
}

// How many points of the frame are found at a size.
fn count_found(sound: Sound, size: usize, second: &[u16]) -> usize
    requires { (length second.now ≡ area_height sound.run * area_width sound.run) × (size ≤ largest_size) }
    ensures { result ≡ points_where sound.run.width sound.run.height (is_found sound.run second.now size) }
{
    let bounds = filters::back::back_bounds(sound, size);
    count_frame(second, sound.frame(), bounds)
}

// How many points have a level above the size. None has one above `most`, the highest level of the first run.
fn points_above(sound: Sound, size: usize, most: usize, first: &[u16], second: &mut [u16]) -> usize
    requires { Ready sound.run first.now second.old × (Highest first.now (length first.now) most × (most ≤ largest_size)) }
    ensures { (length second.new ≡ length second.old) × CountsAbove sound.run first.now size result }
{
    if most <= size {
        return 0;
    }
    filters::back::find_size(sound, size, first, second);
    count_found(sound, size, second)
}

// Fills the table from the finished first run: the points of level n or more, without those above n, have level n.
pub fn fill_table(sound: Sound, first: &[u16], second: &mut [u16], table: &mut [u64])
    requires { Ready sound.run first.now second.old × HasLevels sound.run first.now }
    ensures { (length second.new ≡ length second.old) ×
        FillsTable sound.run first.now (length table.old) table.new }
{
    let most = usize::from(filters::levels::highest(first));
    let mut points = sound.run.height * sound.run.width;
    for n in 0..table.len() {
        let above = points_above(sound, n, most, first, second);
        table[n] = (points - above) as u64;
        points = above;
    }
}
