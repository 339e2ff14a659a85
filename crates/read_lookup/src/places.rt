// Places in a file: of so many bytes from a start on, and where line 2 starts.
ghost use Rattle.std.specs.Prelude.{◌≡◌, ◌<◌, length, Some};
ghost use Rattle.format.specs.Answers.{place_found};
ghost use Rattle.format.specs.Calls.{found_at};
ghost use Rattle.read_lookup.specs.Lookup.{SecondAt};

use format::answers::Place;
use read_lines::LineEnds;

// So many bytes from `start` on.
pub(crate) fn placed(start: usize, length: usize) -> Place
    ensures { place_found (Some result) ≡ found_at start length }
{
    Place {
        start: start as u64,
        length: length as u64,
    }
}

// Where line 2 starts.
pub(crate) fn second_line(file: &[u8]) -> usize
    requires { 0 < length file.now }
    ensures { SecondAt file.now result }
{
    match read_lines::line_at(file, 0) {
        Some(LineEnds { next, .. }) => next,
        None => 0,
    }
}
