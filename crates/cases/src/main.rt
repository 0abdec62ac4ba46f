// Cases 9 and 10 of docs/RULES.md, and a case for each refusal of each public call. The list of cases is read on standard input
// (the file `stdin`), so a new case is a line there and nothing to prove here; for each the program prints the call, the case and
// the number answered, 0 where it is accepted. Then case 10, how many points slices of rows lower, cropped sheets, two points
// dilated by a map, and the spectrum of case 6.
#![tactic(auto)]

mod asking;
mod calls;
mod counts;
mod crops;
mod elements;
mod fault;
mod lines;
mod lists;
mod padding;
mod perspective;
mod records;
mod rooms;
mod sizes;

use fault::Result;

// As much of the input as is read.
const INPUT: usize = 65536;

fn main(rt: HostRuntime) -> Result<()> {
    let mut input = [0u8; INPUT];
    let length = input::read_full(&mut rt.reader(), &mut input)?;
    lists::answer_all(&rt, &input[..length])?;
    padding::same_answers(&rt)?;
    counts::say_counts(&rt)?;
    crops::say_crops(&rt)?;
    perspective::say_perspective(&rt)?;
    sizes::say_spectrum(&rt)
}
