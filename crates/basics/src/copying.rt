// Copying from slice to slice.
ghost use Rattle.std.specs.Prelude.{◌≡◌, length};

// Copies a slice to one of the same length. Kept: a loop, since std's `copy_from_slice` calls `memmove`, and the archive for C asks
// for no function from outside but `memcpy` and `memset`.
pub fn copy<T: Copy>(from: &[T], to: &mut [T])
    requires { length to.old ≡ length from.now }
    ensures { to.new ≡ from.now }
{
    for i in 0..to.len() {
        to[i] = from[i];
    }
}
