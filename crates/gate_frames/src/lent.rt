// What a call is lent, and what it leaves there.

ghost use Rattle.std.specs.Prelude.{◌<◌, ℕ};
ghost use Rattle.std.proofs.Math.Nat.{zero-lt-suc};

use crate::frame::Frame;

// What a list holds, as a run has many of them: entries of a table as numbers; sizes, coordinates and samples as wide numbers, a negative
// sample as its two's complement.
pub trait Item: Copy {
    const SIZE: usize;

    ghost SIZE: { ℕ };

    ghost has_size: { 0 < SIZE };

    fn read(frame: &mut Frame) -> Self;
}

impl Item for u32 {
    const SIZE: usize = 4;

    ghost SIZE = { 4 };

    ghost has_size = { zero-lt-suc 3 };

    fn read(frame: &mut Frame) -> u32 {
        frame.number()
    }
}

impl Item for u64 {
    const SIZE: usize = 8;

    ghost SIZE = { 8 };

    ghost has_size = { zero-lt-suc 7 };

    fn read(frame: &mut Frame) -> u64 {
        frame.wide()
    }
}

impl Item for i64 {
    const SIZE: usize = 8;

    ghost SIZE = { 8 };

    ghost has_size = { zero-lt-suc 7 };

    fn read(frame: &mut Frame) -> i64 {
        frame.wide().cast_signed()
    }
}

// Stores the items of a run at the front of a list, as many as it has places.
pub fn store<T: Item>(list: &mut [T], run: &[u8]) {
    for (place, bytes) in list.iter_mut().zip(run.chunks_exact(T::SIZE)) {
        *place = T::read(&mut Frame::new(bytes));
    }
}

// The items of a run, stored at the front of a list; none where it has fewer places.
pub fn listed<'a, T: Item>(list: &'a mut [T], run: &[u8]) -> &'a [T] {
    store(list, run);
    list.get(..run.len() / T::SIZE).unwrap_or(&[])
}

// The first `room` places, all where there are fewer.
pub fn first<T>(lent: &mut [T], room: usize) -> &mut [T] {
    let n = room.min(lent.len());
    &mut lent[..n]
}

// Whether the bytes are the text and then as they were before the call. They are compared in place: a copy of what is expected would take
// as much of the stack again.
pub fn holds<const N: usize>(lent: &[u8; N], text: &[u8], before: u8) -> bool {
    match lent.get(text.len()..) {
        Some(rest) => lent.starts_with(text) && is_all(rest, before),
        None => false,
    }
}

// Whether each byte is this one: the first is, and each after it is as the one before.
fn is_all(s: &[u8], byte: u8) -> bool {
    match s.split_first() {
        Some((first, rest)) => *first == byte && rest == &s[..rest.len()],
        None => true,
    }
}
