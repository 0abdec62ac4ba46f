// Erodes a raw PBM file with the cross: reads it on standard input, and prints the levels as plain PGM, or a refusal.
#![tactic(auto)]

use std::io;

fn main(rt: HostRuntime) -> io::Result<()> {
    let mut input = [0u8; printing::INPUT_END];
    let length = input::read_full(&mut rt.reader(), &mut input)?;
    let mut sheet = [0u8; printing::INPUT_END];
    let mut levels = [0u16; printing::MOST_PIXELS];
    let mut collected = [0u16; printing::MOST_PIXELS];
    let mut out = [0u8; printing::TEXT_ROOM];
    let size = printing::print_erosion(
        &input[..length],
        &mut sheet,
        &mut levels,
        &mut collected,
        &mut out,
    );
    rt.write_all(&out[..size])
}
