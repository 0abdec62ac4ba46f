// Texts written into lent buffers, piece after piece; every file format is written with these.
#![tactic(auto)]

ghost use Rattle.std.specs.Prelude.{◌++◌, ◌≤◌, length};
ghost use Rattle.decimal.specs.Numbers.{digits};
ghost use Rattle.text.specs.Writing.{Wrote};

// Copies `text` to the front of `out`. This and the functions below give the length of what they wrote.
#[tactic(auto, unfolding(crate::specs::Writing::begun))]
pub fn write_bytes(text: &[u8], out: &mut [u8]) -> usize
    requires { length text.now ≤ length out.old }
    ensures { Wrote text.now out.old out.new result }
{
    basics::copy(text, &mut out[..text.len()]);
    text.len()
}

// Writes `label` and a number after it.
pub fn write_labelled(label: &[u8], n: usize, out: &mut [u8]) -> usize
    requires { length (label.now ++ digits n) ≤ length out.old }
    ensures { Wrote (label.now ++ digits n) out.old out.new result }
{
    let end = write_bytes(label, out);
    end + decimal::write_number(n, &mut out[end..])
}

// Writes two labelled numbers.
pub fn write_pair(
    before: &[u8],
    first: usize,
    between: &[u8],
    second: usize,
    out: &mut [u8],
) -> usize
    requires { length ((before.now ++ digits first) ++ (between.now ++ digits second)) ≤ length out.old }
    ensures { Wrote ((before.now ++ digits first) ++ (between.now ++ digits second)) out.old out.new result }
{
    let end = write_labelled(before, first, out);
    end + write_labelled(between, second, &mut out[end..])
}
