// The numbers that go into a pattern.
ghost use Rattle.std.specs.Prelude.{◌≡◌, ◌≤◌, ◌<◌, length};
ghost use Rattle.format.specs.Limits.{max_file_number};
ghost use Rattle.format.specs.DataFiles.{count_up, count_numbers};
ghost use Rattle.read_files.specs.Parts.{NumberRead, StepRead, NumberingRead};

use crate::{bytes, words};

// Whether a word is a number, its value, 0 where it is none, and where the word ends.
#[derive(Clone, Copy)]
struct NumberAt {
    fine: bool,
    value: u64,
    end: usize,
}

// The first word from `at` on as a number, up to the largest that a pattern may have: sizes have the same limit.
fn next_number(t: &[u8], at: usize) -> NumberAt
    requires { at ≤ length t.now }
    ensures { NumberRead t.now at result }
{
    let w = words::next_word(t, at);
    let from = w.from;
    let end = w.to;
    let x = read_text::numbers::read_number(&t[from..end]);
    match x {
        Some(value) => NumberAt {
            fine: true,
            value,
            end,
        },
        None => NumberAt {
            fine: false,
            value: 0,
            end,
        },
    }
}

// Whether a step is negative, its size, 0 where the word is no step, and where the word ends.
#[derive(Clone, Copy)]
struct Step {
    falls: bool,
    size: u64,
    end: usize,
}

// The first word from `at` on as a step.
fn next_step(t: &[u8], at: usize) -> Step
    requires { at ≤ length t.now }
    ensures { StepRead t.now at result }
{
    let place = words::next_word(t, at);
    let from = place.from;
    let end = place.to;
    let w = &t[from..end];
    let minus = bytes::begins(w, b'-');
    let digits = minus as usize;
    let size = read_text::numbers::read_size(&w[digits..]);
    Step {
        falls: minus,
        size,
        end,
    }
}

// How many of low, low + size, low + 2 * size .. are at most high.
fn count_up(low: u64, high: u64, size: u64) -> u64
    requires { (high ≤ max_file_number) × (0 < size) }
    ensures { result ≡ count_up low high size }
{
    if high < low {
        return 0;
    }
    (high - low) / size + 1
}

// How many numbers there are from the first to the last: falling ones are as many as rising ones from the last to the first.
pub fn count_numbers(falls: bool, first: u64, last: u64, size: u64) -> u64
    requires { (first ≤ max_file_number) × ((last ≤ max_file_number) × (0 < size)) }
    ensures { result ≡ count_numbers falls first last size }
{
    if falls {
        return count_up(last, first, size);
    }
    count_up(first, last, size)
}

// Whether the numbers are right ones; the first of them, whether they fall, by how much each differs from the one before it; the number of the last file, counted from 0;
// where the last of their words ends.
#[derive(Clone, Copy)]
pub struct Numbers {
    pub fine: bool,
    pub first: u64,
    pub falls: bool,
    pub size: u64,
    pub last: u32,
    pub end: usize,
}

const NO_NUMBERS: Numbers = Numbers {
    fine: false,
    first: 0,
    falls: false,
    size: 0,
    last: 0,
    end: 0,
};

// The first three words from `at` on: the first number, the last one, and a step. A word that is missing is empty, and is neither a number nor a step.
pub fn read_numbering(t: &[u8], at: usize) -> Numbers
    requires { at ≤ length t.now }
    ensures { NumberingRead t.now at result }
{
    let first = next_number(t, at);
    let until = next_number(t, first.end);
    let step = next_step(t, until.end);
    if !(first.fine & until.fine) {
        return NO_NUMBERS;
    }
    let size = step.size;
    if size == 0 {
        return NO_NUMBERS;
    }
    let count = count_numbers(step.falls, first.value, until.value, size);
    if count == 0 {
        return NO_NUMBERS;
    }
    let last = (count - 1) as u32;
    Numbers {
        fine: true,
        first: first.value,
        falls: step.falls,
        size,
        last,
        end: step.end,
    }
}
