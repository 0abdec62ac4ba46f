// What a call answers as a number, and in answer slices: the number of a call whose slice is of another length (its refusals rise,
// all but those of reading PBM), and the value that goes into one.
ghost use Rattle.std.specs.Prelude.{◌≡◌, [], ◌∷◌, length};
ghost use Rattle.basics.specs.Refusals.{number, value_or};
ghost use Rattle.harness.specs.Boundary.{at_latest, answered};

use basics::Refusal;

// The number of a call: 0 where it is accepted. Kept: the calls that store more than one value `match` on their own, each with its
// slices; a helper that took a closure over these would be no shorter.
pub fn number<T: Copy>(answer: Result<T, Refusal>) -> u32
    ensures { result ≡ number answer }
{
    match answer {
        Ok(_) => 0,
        Err(refusal) => refusal.number(),
    }
}

// 11, unless the call is refused by a lower number.
pub fn at_latest<T: Copy>(judged: Result<T, Refusal>) -> u32
    ensures { result ≡ at_latest (number judged) }
{
    let number = number(judged);
    if number == 0 || 11 < number {
        return 11;
    }
    number
}

// Gives the number of a call; the value of an accepted one goes into `answer`.
pub fn answer_value(given: Result<usize, Refusal>, answer: &mut [u64]) -> u32
    requires { length answer.old ≡ 1 }
    ensures { (result ≡ number given) × (answer.new ≡ answered (number given) (value_or 0 given ∷ []) answer.old) }
{
    match given {
        Ok(value) => {
            answer[0] = value as u64;
            0
        }
        Err(refusal) => refusal.number(),
    }
}
