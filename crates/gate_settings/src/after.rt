// What a fresh reading of the file shows after a list of settings.
use crate::case::{TABLE, VALUE};
use format::Reading;
use gate_frames::frame::Frame;

// Whether a reading of the file, whose table goes to `fresh`, gives the count and the table.
pub fn lines_right(
    file: &[u8],
    table: &[u32; TABLE],
    count: usize,
    fresh: &mut [u32; TABLE],
) -> bool {
    fresh.fill(0);
    let answer = read_header::read::read(file, fresh);
    let n = count.min(TABLE);
    answer.refusal.number == 0 && answer.reading.lines as usize == count && fresh[..n] == table[..n]
}

// How many lines there are from the first name under LIST on.
fn names(reading: &Reading) -> u32 {
    reading.lines.wrapping_sub(reading.fieldlines)
}

// Whether two readings differ in nothing but the header's bytes and lines.
pub fn same_reading(a: &Reading, b: &Reading) -> bool {
    let resized = Reading {
        length: b.length,
        lines: b.lines,
        fieldlines: b.fieldlines,
        ..*a
    };
    names(a) == names(b) && resized == *b
}

// Whether the value of the key, which goes to `out`, is the one given.
fn value_right(file: &[u8], key: &[u8], value: &[u8], out: &mut [u8; VALUE]) -> bool {
    out.fill(0);
    let answer = read_lookup::keys::copy_value(file, key, out);
    answer.refusal.number == 0
        && answer.found
        && answer.length == value.len() as u64
        && out.starts_with(value)
}

// Whether the keys of a run have their values.
pub fn keys_right(file: &[u8], keys: &[u8], out: &mut [u8; VALUE]) -> bool {
    let mut frame = Frame::new(keys);
    let mut right = true;
    for _ in 0..frame.number() {
        right &= value_right(file, frame.run(), frame.run(), out);
    }
    right
}

// What follows the first `n` bytes of a file.
pub fn rest(file: &[u8], n: usize) -> &[u8] {
    file.get(n..).unwrap_or(file)
}
