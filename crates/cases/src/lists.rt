// The list of cases, line by line: `CALL, CASE: WORD NUMBER WORD NUMBER..`, what differs from the call's accepted case; where the
// call reads a file, its bytes come last, after a bar, with `_`, `^` and `~` for the line feed, the carriage return and the tab. A
// line that begins with `#` is a remark.
ghost use Rattle.std.specs.Prelude.{◌≤◌, ◌-◌, length};

use super::asking::{Call, Case};
use super::fault::Result;
use super::{lines, rooms};
use basics::Refusal;

// What is printed for a line that is no case.
// Kept: a number, since it is one of the output.
const NO_CASE: u32 = 99;

// The longest file of a line.
const FILE: usize = 32;

// The place of the first such byte, or the end.
fn place_of(byte: u8, text: &[u8]) -> usize
    ensures { result ≤ length text.now }
{
    text.iter()
        .position(|other| *other == byte)
        .unwrap_or(text.len())
}

// What stands before the first such byte, and after it: all and nothing where there is none.
fn cut(byte: u8, text: &[u8]) -> (&[u8], &[u8])
    ensures { length result.1.now ≤ length text.now - 1 }
{
    let end = place_of(byte, text);
    (&text[..end], text.get(end + 1..).unwrap_or(&[]))
}

fn number_of(digits: &[u8]) -> usize {
    decimal::read_number(digits, 0, 4294967295).value
}

// What the words of a line ask for, each with its number behind it.
fn asked(accepted: Case, words: &[u8]) -> Option<Case> {
    let mut case = accepted;
    let mut left = words;
    // Kept: it counts nothing; each turn cuts a word and its number off what is left.
    while !left.is_empty() {
        let (word, behind) = cut(b' ', left);
        let (digits, next) = cut(b' ', behind);
        case = case.changed(*word.first()?, number_of(digits))?;
        left = next;
    }
    Some(case)
}

// The byte that a line has it for.
fn white(byte: u8) -> u8 {
    match byte {
        b'_' => b'\n',
        b'^' => b'\r',
        b'~' => b'\t',
        _ => byte,
    }
}

// The bytes of a file, as many as there is room for.
fn file_of(text: &[u8]) -> [u8; FILE] {
    let mut file = [0; FILE];
    for (place, byte) in file.iter_mut().zip(text) {
        *place = white(*byte);
    }
    file
}

// The number that a line's call answers, 0 where it is accepted.
fn number_for(call: &[u8], words: &[u8], text: &[u8]) -> Option<u32> {
    let accepted = Case::accepted(Call::from_name(call)?);
    let case = asked(accepted, words)?;
    let file = file_of(text);
    let answer = rooms::answer(case, file.get(..text.len())?)?;
    Some(answer.err().map_or(0, Refusal::number))
}

fn answer_line(rt: &impl Print, line: &[u8]) -> Result<()> {
    if line.is_empty() || line.starts_with(b"#") {
        return Ok(());
    }
    let comma = place_of(b',', line);
    let colon = comma + place_of(b':', &line[comma..]);
    let asked = line.get(colon + 2..).unwrap_or(&[]);
    let (words, file) = cut(b'|', asked);
    let number = number_for(&line[..comma], words, file).unwrap_or(NO_CASE);
    lines::say(rt, &line[..colon], number)
}

pub fn answer_all(rt: &impl Print, text: &[u8]) -> Result<()> {
    for line in text.split(|byte| *byte == b'\n') {
        answer_line(rt, line)?;
    }
    Ok(())
}
