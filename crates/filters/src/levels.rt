// Levels by going through the sizes: each size that holds a point is written over what was found before.
ghost use Rattle.std.specs.Prelude.{◌≡◌, ◌+◌, ◌*◌, ◌≤◌, ◌<◌, length, get_or, replicate};
ghost use Rattle.basics.specs.Limits.{largest_size};
ghost use Rattle.basics.specs.Tables.{table, raster};
ghost use Rattle.run.specs.Records.{area_width, area_height};
ghost use Rattle.run.specs.Patches.{Canvas, level_in};
ghost use Rattle.filters.specs.Back.{chosen, stored, size_at, Highest, Ready};
ghost use Rattle.filters.specs.Plans.{Bounded, Counted, FindsSize, FindsLevels};

use super::back;
use super::judging::Plan;
use run::kinds::Bounds;
use run::records::Frame;
use run::sound::Sound;

// The entries of `out` become `value` where the levels are held. Each entry is read and stored whatever its level, which takes no
// branch: ten times as fast as a store or a read under the `if` (measured).
fn store_row(levels: &[u16], bounds: Bounds, value: u16, out: &mut [u16])
    requires { length out.old ≡ length levels.now }
    ensures { out.new ≡ table (length levels.now)
        (λ i. chosen bounds.low bounds.high value (get_or out.old i 0) (get_or levels.now i 0)) }
{
    for i in 0..levels.len() {
        let kept = out[i];
        out[i] = if bounds.hold(levels[i]) { value } else { kept };
    }
}

// The same for all rows of the frame's part of the levels.
fn store_frame(levels: &[u16], frame: Frame, bounds: Bounds, value: u16, out: &mut [u16])
    requires { Canvas frame.width frame.height frame.margin levels.now × (length out.old ≡ frame.height * frame.width) }
    ensures { out.new ≡ raster frame.width frame.height
        (λ row col. chosen bounds.low bounds.high value (get_or out.old (row * frame.width + col) 0)
        (level_in frame.width frame.margin levels.now row col)) }
{
    for row in 0..frame.height {
        let at = row * frame.width;
        store_row(
            frame.row(levels, row),
            bounds,
            value,
            &mut out[at..at + frame.width],
        );
    }
}

// Stores a size and one at the points that are held after the way back.
fn store_held(sound: Sound, size: usize, second: &[u16], out: &mut [u16])
    requires { (length second.now ≡ area_height sound.run * area_width sound.run) × ((size ≤ largest_size) ×
        (length out.old ≡ sound.run.height * sound.run.width)) }
    ensures { out.new ≡ stored sound.run second.now size out.old }
{
    let bounds = back::back_bounds(sound, size);
    let value = size as u16 + 1;
    store_frame(second, sound.frame(), bounds, value, out);
}

// Stores one size.
fn one_size(sound: Sound, size: usize, first: &[u16], second: &mut [u16], out: &mut [u16])
    requires { Ready sound.run first.now second.old × ((size ≤ largest_size) ×
        (length out.old ≡ sound.run.height * sound.run.width)) }
    ensures { (length second.new ≡ length second.old) ×
        (FindsSize sound.run first.now size second.new ×
        (out.new ≡ stored sound.run second.new size out.old)) }
{
    back::find_size(sound, size, first, second);
    store_held(sound, size, second, out);
}

// The size that step k of `count` takes: an opening goes up, a closing down, so that the size that must stand is written last.
fn size_at(closing: bool, count: usize, k: usize) -> usize
    requires { k < count }
    ensures { result ≡ size_at closing count k }
{
    if closing { count - 1 - k } else { k }
}

// The sizes below `count`, one after the other, over levels that are 0.
fn go_through(
    sound: Sound,
    plan: Plan,
    count: usize,
    first: &[u16],
    second: &mut [u16],
    out: &mut [u16],
)
    requires { Ready sound.run first.now second.old × (Bounded plan first.now × (Counted plan first.now count ×
        (out.old ≡ replicate (sound.run.height * sound.run.width) 0))) }
    ensures { FindsLevels sound.run first.now plan out.new }
{
    for k in 0..count {
        one_size(sound, size_at(plan.closing, count, k), first, second, out);
    }
}

// The highest of the levels, or 0 where there is none.
pub fn highest(levels: &[u16]) -> u16
    ensures { Highest levels.now (length levels.now) result }
{
    levels.iter().copied().max().unwrap_or(0)
}

// How many sizes a plan goes through: a closing those up to its cap, an opening those below the highest of the eroded levels,
// for no larger one holds anything.
fn count_of(plan: Plan, levels: &[u16]) -> usize
    requires { Bounded plan levels.now }
    ensures { Counted plan levels.now result }
{
    if plan.closing {
        plan.size + 1
    } else {
        usize::from(highest(levels))
    }
}

// The levels of a plan from its finished first run; both work buffers are cleared.
pub fn filter_levels(
    sound: Sound,
    plan: Plan,
    first: &mut [u16],
    second: &mut [u16],
    out: &mut [u16],
)
    requires { Ready sound.run first.old second.old × (Bounded plan first.old ×
        (length out.old ≡ sound.run.height * sound.run.width)) }
    ensures { (first.new ≡ replicate (length first.old) 0) ×
        ((second.new ≡ replicate (length second.old) 0) ×
        FindsLevels sound.run first.old plan out.new) }
{
    out.fill(0);
    let count = count_of(plan, first);
    go_through(sound, plan, count, first, second, out);
    first.fill(0);
    second.fill(0);
}
