// The way back from a finished run: the points that it holds at a size are marked, and scanned by the rule of the other kind.
ghost use Rattle.std.specs.Prelude.{◌≡◌, ◌*◌, ◌≤◌, length, get_or, replicate};
ghost use Rattle.basics.specs.Limits.{largest_size};
ghost use Rattle.basics.specs.Tables.{table};
ghost use Rattle.sheet.specs.Sheets.{row_bytes};
ghost use Rattle.run.specs.Records.{area_width, area_height};
ghost use Rattle.run.specs.Demand2.{finished};
ghost use Rattle.filters.specs.Back.{back, chosen, back_start, kept_sheet, HoldsAfter, Ready};
ghost use Rattle.filters.specs.Plans.{FindsSize, FindsSheet};

use run::kinds::Bounds;
use run::sound::Sound;
use run::{Record, continuing, kinds, pictures};

// All rows of a run that has none done.
pub fn finish(sound: Sound, levels: &mut [u16])
    requires { (sound.run.rows ≡ 0) × (length levels.old ≡ area_height sound.run * area_width sound.run) }
    ensures { levels.new ≡ finished sound.run levels.old }
{
    continuing::continue_run(sound.run, levels, basics::MOST_ROWS).unwrap();
}

// The run of the other kind, on all of the area.
pub fn back_run(sound: Sound) -> Sound
    ensures { result.run ≡ back sound.run }
{
    let kind = if sound.run.kind == kinds::EROSION {
        kinds::DILATION
    } else {
        kinds::EROSION
    };
    Sound {
        run: Record {
            kind,
            width: sound.area_width(),
            height: sound.area_height(),
            cap: 0,
            rows: 0,
            edge: kinds::BACKGROUND,
            ..sound.run
        },
    }
}

// Marks the second levels by the first: `on` where those are held, else `off`.
fn mark(first: &[u16], bounds: Bounds, on: u16, off: u16, second: &mut [u16])
    requires { length second.old ≡ length first.now }
    ensures { second.new
        ≡ table (length first.now) (λ k. chosen bounds.low bounds.high on off (get_or first.now k 0)) }
{
    for k in 0..first.len() {
        second[k] = if bounds.hold(first[k]) { on } else { off };
    }
}

// Marks the second levels as the way back starts: with the points that the first run holds at a size.
fn mark_held(sound: Sound, size: usize, first: &[u16], second: &mut [u16])
    requires { Ready sound.run first.now second.old × (size ≤ largest_size) }
    ensures { second.new ≡ back_start sound.run first.now size }
{
    let other = back_run(sound);
    let bounds = kinds::bounds_of(sound.run, size);
    let on = kinds::on_of(other.run);
    let off = kinds::off_of(other.run);
    mark(first, bounds, on, off, second);
}

// The way back from a finished run, at a size: afterwards the second levels say which points of the frame the size holds.
pub fn find_size(sound: Sound, size: usize, first: &[u16], second: &mut [u16])
    requires { Ready sound.run first.now second.old × (size ≤ largest_size) }
    ensures { (length second.new ≡ length second.old) ×
        FindsSize sound.run first.now size second.new }
{
    mark_held(sound, size, first, second);
    finish(back_run(sound), second);
}

// Between which bounds a level is held after the way back.
pub fn back_bounds(sound: Sound, size: usize) -> Bounds
    requires { size ≤ largest_size }
    ensures { HoldsAfter sound.run size result }
{
    kinds::bounds_of(back_run(sound).run, size)
}

// The packed sheet of the frame's points that are held after the way back.
fn pack_back(sound: Sound, size: usize, second: &[u16], out: &mut [u8])
    requires { (length second.now ≡ area_height sound.run * area_width sound.run) × ((size ≤ largest_size) ×
        (length out.old ≡ sound.run.height * row_bytes sound.run.width)) }
    ensures { out.new ≡ kept_sheet sound.run second.now size }
{
    pictures::pack_frame(second, sound.frame(), back_bounds(sound, size), out);
}

// The sheet of what a size holds; both work buffers are cleared.
pub fn filter_sheet(
    sound: Sound,
    size: usize,
    first: &mut [u16],
    second: &mut [u16],
    out: &mut [u8],
)
    requires { Ready sound.run first.old second.old ×
        ((size ≤ largest_size) × (length out.old ≡ sound.run.height * row_bytes sound.run.width)) }
    ensures { (first.new ≡ replicate (length first.old) 0) ×
        ((second.new ≡ replicate (length second.old) 0) ×
        FindsSheet sound.run first.old size out.new) }
{
    find_size(sound, size, first, second);
    pack_back(sound, size, second, out);
    first.fill(0);
    second.fill(0);
}
