// The lines that are printed. Kept: each in two writes, what is said and then what of it, so that a write that fails leaves what it
// always left.
use super::fault::Result;

// A call and its case, and the number that it answered.
pub fn say(rt: &impl Print, case: &[u8], number: u32) -> Result<()> {
    rt.write_all(case)?;
    println!(rt; ": {number}")?;
    Ok(())
}

// What was done, and how many points it lowered.
pub fn say_count(rt: &impl Print, slice: &str, points: usize) -> Result<()> {
    rt.write_all(slice.as_bytes())?;
    println!(rt; ", points lowered: {points}")?;
    Ok(())
}

// A call, and whether its answers to the two sheets of case 10 are the same.
pub fn say_same(rt: &impl Print, call: &str, same: bool) -> Result<()> {
    rt.write_all(call.as_bytes())?;
    let found = if same { "the same" } else { "NOT the same" };
    println!(rt; ", padding bits set and unset: {found}")?;
    Ok(())
}

// A text at the front of a room.
pub fn say_text(rt: &impl Print, room: &[u8], size: usize) -> Result<()> {
    rt.write_all(room.get(..size).unwrap_or(&[]))?;
    Ok(())
}
