// How many axes one file covers.
ghost use Rattle.std.specs.Prelude.{◌≡◌, ◌≤◌, length, drop};
ghost use Rattle.format.specs.Words.{number, words};
ghost use Rattle.format.specs.DataFiles.{axes_number, axes_said};
ghost use Rattle.read_files.specs.Files.{cover_answer};

use crate::words;

// How many axes one of several files covers: it is left open, or so many. A number above the most axes counts as one above it, since no array has so many.
#[derive(Clone, Copy, PartialEq, Eq)]
pub enum Cover {
    Open,
    Axes(u32),
}

// The number that the digits of w write, of any length.
fn read_count(w: &[u8]) -> Option<Cover>
    ensures { result ≡ cover_answer (axes_number (number w.now)) }
{
    let digits = read_decimals::parts::read_digits(w, 0);
    if digits.count == 0 || digits.count != w.len() {
        return None;
    }
    let axes = digits.number.min(format::MAX_AXES + 1);
    Some(Cover::Axes(axes as u32))
}

// The words from `at` on: none, or one that is such a number.
pub fn read_cover(t: &[u8], at: usize) -> Option<Cover>
    requires { at ≤ length t.now }
    ensures { result ≡ cover_answer (axes_said (words (drop at t.now))) }
{
    let w = words::next_word(t, at);
    if w.from == w.to {
        return Some(Cover::Open);
    }
    let more = words::next_word(t, w.to);
    if more.from != more.to {
        return None;
    }
    read_count(&t[w.from..w.to])
}
