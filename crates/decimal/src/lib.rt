// Numbers as decimal digits, written and read for every file format.
#![tactic(auto)]

ghost use Rattle.std.specs.Prelude.{◌≡◌, ◌+◌, ◌<◌, ◌≤◌, min, length, drop};
ghost use Rattle.decimal.specs.Numbers.{value, digits, digit_run, written};

// How many digits `n` has. Most levels have one, and a test for that spares them the logarithm (measured).
pub fn digit_count(n: usize) -> usize
    ensures { result ≡ length (digits n) }
{
    if n < 10 {
        return 1;
    }
    n.checked_ilog10().unwrap_or(0) as usize + 1
}

// The byte of the digit `n`.
// Kept: a function, whose contract tells a digit's byte from another (`digit_off_by_one`).
fn digit_byte(n: usize) -> u8
    requires { n < 10 }
    ensures { result ≡ 48 + n }
{
    b'0' + n as u8
}

// Writes the digits of `n` to the front of `out`, the last one first, and gives how many they are. The first is what is left then.
pub fn write_number(n: usize, out: &mut [u8]) -> usize
    requires { length (digits n) ≤ length out.old }
    ensures { (result ≡ length (digits n)) × (out.new ≡ written n 0 out.old) }
{
    let count = digit_count(n);
    let mut left = n;
    for i in (1..count).rev() {
        out[i] = digit_byte(left % 10);
        left /= 10;
    }
    out[0] = digit_byte(left);
    count
}

// A number that was read, at most the limit, and the place after its digits.
#[derive(Clone, Copy)]
pub struct Number {
    pub value: usize,
    pub next: usize,
}

// Kept: a place in the file, here and in pbm's header, whose definitions go by places (`HeaderRead`).
// Reads the digits of `file` from `at` on, however many, as a number; one above the limit is read as the limit.
pub fn read_number(file: &[u8], at: usize, limit: usize) -> Number
    requires { (at ≤ length file.now) × (limit < 4294967296) }
    ensures { (result.next ≡ at + length (digit_run (drop at file.now))) ×
        (result.value ≡ min (value (digit_run (drop at file.now))) limit) }
{
    let count = file[at..]
        .iter()
        .take_while(|byte| byte.is_ascii_digit())
        .count();
    let next = at + count;
    let mut value = 0;
    for byte in &file[at..next] {
        value = (value * 10 + usize::from(byte - b'0')).min(limit);
    }
    Number { value, next }
}
