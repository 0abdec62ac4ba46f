// Continuing a run by an allowance of rows.
ghost use Rattle.std.specs.Prelude.{◌≡◌, ◌+◌, ◌*◌, ◌≤◌, length, IfOk};
ghost use Rattle.basics.specs.Refusals.{first, number};
ghost use Rattle.scan.specs.Scan.{scan_rows, rows_lowered};
ghost use Rattle.run.specs.Records.{area_width, area_height, due, area_of};
ghost use Rattle.run.specs.Continuing.{continue_refusals, answer_of, Continues};

use super::sound::Sound;
use super::{Record, records};
use basics::Refusal;

// What a continue answers: the new record, whether all rows are done, and how many points its rows lowered.
#[derive(Clone, Copy)]
pub struct Continued {
    pub run: Record,
    pub done: bool,
    pub lowered: usize,
}

// Refusals 1, 10 and 12 of a continue.
pub fn check_continue(run: Record, levels: &[u16], allowance: usize) -> Result<Sound, Refusal>
    ensures { (number result ≡ first (continue_refusals run levels.now allowance)) × IfOk result (λ sound. sound.run ≡ run) }
{
    let sound = records::check_record(run)?;
    if sound.levels_wrong(levels) {
        return Err(Refusal::LevelsLength);
    }
    if basics::MOST_ROWS < allowance {
        return Err(Refusal::Allowance);
    }
    Ok(sound)
}

// Works `count` rows of those due, and counts the points they lower.
fn work_rows(sound: Sound, levels: &mut [u16], count: usize) -> usize
    requires { (length levels.old ≡ area_height sound.run * area_width sound.run) × (sound.run.rows + count ≤ due sound.run) }
    ensures { (levels.new ≡ scan_rows (area_of sound.run) sound.run.rows count levels.old) ×
        (result ≡ rows_lowered (area_of sound.run) sound.run.rows count levels.old) }
{
    let reach = (sound.run.side - 1) / 2;
    scan::scan_rows(levels, &sound.area(), sound.run.rows, count, reach)
}

// Public: works the allowance or what is due, the lesser. Refusals 1, 10, 12.
#[tactic(auto, using(crate::proofs::RecordLaws::rows_within))]
pub fn continue_run(run: Record, levels: &mut [u16], allowance: usize) -> Result<Continued, Refusal>
    ensures { Continues run levels.old allowance (number result) (answer_of result levels.new) }
{
    let sound = check_continue(run, levels, allowance)?;
    let due = sound.rows_due();
    let count = allowance.min(due - run.rows);
    let lowered = work_rows(sound, levels, count);
    let rows = run.rows + count;
    Ok(Continued {
        run: Record { rows, ..run },
        done: rows == due,
        lowered,
    })
}
