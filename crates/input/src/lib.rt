// A program's input, as bytes in a room.
#![tactic(auto)]

ghost use Rattle.std.specs.Prelude.{◌≤◌, length, IfOk};

use std::io;
use std::io::Read;

// Reads until the room is full or the input ends, and gives how many bytes stand at its front.
pub fn read_full(input: &mut impl Read, room: &mut [u8]) -> io::Result<usize>
    ensures { IfOk result (λ n. n ≤ length room.new) }
{
    let mut done = 0;
    // Kept: it counts the bytes read and not its turns, of which nobody knows how many there are.
    while done < room.len() {
        let count = input.read(&mut room[done..])?;
        if count == 0 {
            break;
        }
        done += count;
    }
    Ok(done)
}
