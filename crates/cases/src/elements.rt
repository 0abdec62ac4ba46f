// What is lent where a case gives nothing: elements of side 3, and frames that they are used on.
use run::Input;

// The cross.
pub const CROSS: [u8; 9] = [0, 1, 0, 1, 1, 1, 0, 1, 0];

// The origin and its right neighbour.
pub const PAIR: [u8; 9] = [0, 0, 0, 0, 1, 1, 0, 0, 0];

// A frame, and an element of side 3.
pub fn input_on(width: usize, height: usize) -> Input {
    Input {
        width,
        height,
        side: 3,
    }
}
