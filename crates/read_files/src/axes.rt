// The number of axes that one file covers.
ghost use Rattle.std.specs.Prelude.{◌≡◌, ◌≤◌, length, drop};
ghost use Rattle.format.specs.Words.{number, words};
ghost use Rattle.format.specs.DataFiles.{axes_number, axes_said};
ghost use Rattle.read_files.specs.Said.{cover_code};

use crate::words;

// The number that the digits of w write, of any length, and 2. It is no error that a number is above the most axes: all of those count as one above it.
fn read_count(w: &[u8]) -> u32
    ensures { result ≡ cover_code (axes_number (number w.now)) }
{
    let d = read_decimals::parts::read_digits(w, 0);
    let count = d.count;
    let n = d.number;
    if count == 0 {
        return crate::NO_COVER;
    }
    if count != w.len() {
        return crate::NO_COVER;
    }
    if n <= format::MAX_AXES {
        return n as u32 + crate::COVER_FROM;
    }
    format::MAX_AXES as u32 + 3
}

// The words from `at` on: none, or one that is such a number.
pub fn read_axes(t: &[u8], at: usize) -> u32
    requires { at ≤ length t.now }
    ensures { result ≡ cover_code (axes_said (words (drop at t.now))) }
{
    let w = words::next_word(t, at);
    let from = w.from;
    let to = w.to;
    if from == to {
        return crate::OPEN_COVER;
    }
    let more = words::next_word(t, to);
    if more.from != more.to {
        return crate::NO_COVER;
    }
    read_count(&t[from..to])
}
