// Runs: started, continued, collected, thresholded and looked at, with the record as words.
ghost use Rattle.std.specs.Prelude.{◌≡◌, length};
ghost use Rattle.basics.specs.Refusals.{number, value_or};
ghost use Rattle.run.specs.Records.{empty_record};
ghost use Rattle.run.specs.Starting.{fresh_record, dilation_refusals};
ghost use Rattle.harness.specs.Boundary.{record_words, words_of, answered};
ghost use Rattle.harness.specs.Runs.{StartsWords, StartsErosionWords, StartsDilationWords, StartsCroppedWords};
ghost use Rattle.harness.specs.Runs.{ContinuesWords, CollectsWords, ThresholdsWords, ShowsProvisionalWords};

use super::{answers, filtering, words};
use basics::Refusal;
use run::Record;

// Public: the frame's levels of a finished run, into `out`. Refusals 1, 10, 11, 13.
#[unsafe(no_mangle)]
pub extern "C" fn wt_collect(words: &[u64], levels: &[u16], out: &mut [u16]) -> u32
    ensures { CollectsWords words.now levels.now out.old result out.new }
{
    let Some(run) = words::read_record(words) else {
        return 1;
    };
    answers::number(run::pictures::collect(run, levels, out))
}

// Public: the sheet that a finished run holds at a size, into `out`. Refusals 1, 8, 10, 11, 13.
#[unsafe(no_mangle)]
pub extern "C" fn wt_threshold(words: &[u64], levels: &[u16], size: u64, out: &mut [u8]) -> u32
    ensures { ThresholdsWords words.now levels.now size out.old result out.new }
{
    let Some(run) = words::read_record(words) else {
        return 1;
    };
    answers::number(run::pictures::threshold(run, levels, size as usize, out))
}

// Public: the sheet that a run's levels hold at a size as they stand, into `out`; `state` becomes 1 where it is final, else 0.
// Refusals 1, 8, 10, 11.
#[unsafe(no_mangle)]
pub extern "C" fn wt_provisional(
    words: &[u64],
    levels: &[u16],
    size: u64,
    out: &mut [u8],
    state: &mut [u64],
) -> u32
    ensures { ShowsProvisionalWords words.now levels.now size out.old state.old result
        (out.new, state.new) }
{
    let Some(run) = words::read_record(words) else {
        return 1;
    };
    if state.len() != 1 {
        let judged = run::pictures::check_provisional(run, levels, size as usize, out);
        return answers::at_latest(judged);
    }
    match run::provisional::provisional(run, levels, size as usize, out) {
        Ok(done) => {
            state[0] = u64::from(done);
            0
        }
        Err(refusal) => refusal.number(),
    }
}

// Public: works the allowance of rows or what is due, the lesser. Of `answer` the first word becomes 1 when all rows are done, else
// 0, and the second how many points the rows lowered. Refusals 1, 10, 11, 12.
#[unsafe(no_mangle)]
pub extern "C" fn wt_continue(
    words: &mut [u64],
    levels: &mut [u16],
    allowance: u64,
    answer: &mut [u64],
) -> u32
    ensures { ContinuesWords words.old levels.old allowance answer.old result (
      words.new,
      levels.new,
      answer.new,
    ) }
{
    let Some(run) = words::read_record(words) else {
        return 1;
    };
    if answer.len() != 2 {
        let judged = run::continuing::check_continue(run, levels, allowance as usize);
        return answers::at_latest(judged);
    }
    match run::continuing::continue_run(run, levels, allowance as usize) {
        Ok(worked) => {
            words::write_record(worked.run, words);
            answer[0] = u64::from(worked.done);
            answer[1] = worked.lowered as u64;
            0
        }
        Err(refusal) => refusal.number(),
    }
}

// Gives the number of a start; the record of an accepted one goes into `words`.
fn answer_start(started: Result<Record, Refusal>, words: &mut [u64]) -> u32
    requires { length words.old ≡ record_words }
    ensures { (result ≡ number started) ×
        (words.new ≡ answered (number started) (words_of (value_or empty_record started)) words.old) }
{
    match started {
        Ok(run) => {
            words::write_record(run, words);
            0
        }
        Err(refusal) => refusal.number(),
    }
}

// Public: starts an erosion; its record goes into `words`. Refusals 2 to 7, 10, 11.
#[unsafe(no_mangle)]
pub extern "C" fn wt_start_erosion(
    width: u64,
    height: u64,
    sheet: &[u8],
    side: u64,
    cells: &[u8],
    levels: &mut [u16],
    words: &mut [u64],
) -> u32
    ensures { StartsErosionWords width height sheet.now side cells.now levels.old
        words.old result (levels.new, words.new) }
{
    let input = filtering::input_of(width, height, side);
    if words.len() != words::RECORD_WORDS {
        return answers::at_latest(run::starting::check_erosion(input, sheet, cells, levels));
    }
    let started = run::starting::start_erosion(input, sheet, cells, levels);
    answer_start(started, words)
}

// Starts a run on the canvas of a cap, with a kind and an edge rule; its record goes into `words`. Refusals 2 to 11.
fn start_on_canvas(
    kind: u8,
    edge: u8,
    width: u64,
    height: u64,
    sheet: &[u8],
    side: u64,
    cells: &[u8],
    cap: u64,
    levels: &mut [u16],
    words: &mut [u64],
) -> u32
    ensures { StartsWords
        (dilation_refusals width height sheet.now side cells.now cap levels.old)
        (fresh_record kind edge width height cap side cells.now) sheet.now levels.old
        words.old result (levels.new, words.new) }
{
    let input = filtering::input_of(width, height, side);
    let cap = cap as usize;
    if words.len() != words::RECORD_WORDS {
        return answers::at_latest(run::starting::check_dilation(input, sheet, cells, cap, levels));
    }
    let started = run::starting::start_on_canvas(kind, edge, input, sheet, cells, cap, levels);
    answer_start(started, words)
}

// Public: starts a dilation; its record goes into `words`. Refusals 2 to 11.
#[unsafe(no_mangle)]
pub extern "C" fn wt_start_dilation(
    width: u64,
    height: u64,
    sheet: &[u8],
    side: u64,
    cells: &[u8],
    cap: u64,
    levels: &mut [u16],
    words: &mut [u64],
) -> u32
    ensures { StartsDilationWords width height sheet.now side cells.now cap levels.old
        words.old result (levels.new, words.new) }
{
    start_on_canvas(
        run::kinds::DILATION,
        run::kinds::BACKGROUND,
        width,
        height,
        sheet,
        side,
        cells,
        cap,
        levels,
        words,
    )
}

// Public: starts the erosion of a cropped sheet; its record goes into `words`. Refusals 2 to 11.
#[unsafe(no_mangle)]
pub extern "C" fn wt_start_cropped(
    width: u64,
    height: u64,
    sheet: &[u8],
    side: u64,
    cells: &[u8],
    cap: u64,
    levels: &mut [u16],
    words: &mut [u64],
) -> u32
    ensures { StartsCroppedWords width height sheet.now side cells.now cap levels.old
        words.old result (levels.new, words.new) }
{
    start_on_canvas(
        run::kinds::EROSION,
        run::kinds::FOREGROUND,
        width,
        height,
        sheet,
        side,
        cells,
        cap,
        levels,
        words,
    )
}
