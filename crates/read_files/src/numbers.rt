// The numbers that go into a pattern.
ghost use Rattle.std.specs.Prelude.{◌≡◌, ◌≤◌, length};
ghost use Rattle.read_files.specs.Files.{StepIs, NumbersAre};

use crate::{bytes, numbering, words};

// Whether a step is negative, and its size, which is not 0.
#[derive(Clone, Copy)]
struct Step {
    falls: bool,
    size: u64,
}

// The word w as a step.
fn read_step(w: &[u8]) -> Option<Step>
    ensures { StepIs w.now result }
{
    let minus = bytes::begins(w, b'-');
    let digits = minus as usize;
    let size = read_text::numbers::read_size(&w[digits..]);
    if size == 0 {
        return None;
    }
    Some(Step { falls: minus, size })
}

// The first of the numbers, whether they fall, by how much each differs from the one before it; the number of the last file, counted from 0; where the last of their words ends.
#[derive(Clone, Copy)]
pub struct Numbers {
    pub first: u64,
    pub falls: bool,
    pub size: u64,
    pub last: u32,
    pub end: usize,
}

// The first three words from `at` on: the first number, the last one, and a step. A word that is missing is empty, and is neither a number nor a step.
pub fn read_numbers(t: &[u8], at: usize) -> Option<Numbers>
    requires { at ≤ length t.now }
    ensures { NumbersAre t.now at result }
{
    let first_word = words::next_word(t, at);
    let last_word = words::next_word(t, first_word.to);
    let step_word = words::next_word(t, last_word.to);
    let first = read_text::numbers::read_number(&t[first_word.from..first_word.to])?;
    let last = read_text::numbers::read_number(&t[last_word.from..last_word.to])?;
    let step = read_step(&t[step_word.from..step_word.to])?;
    let count = numbering::count_numbers(step.falls, first, last, step.size);
    if count == 0 {
        return None;
    }
    Some(Numbers {
        first,
        falls: step.falls,
        size: step.size,
        last: (count - 1) as u32,
        end: step_word.to,
    })
}
