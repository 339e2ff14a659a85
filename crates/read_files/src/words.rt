// The words of a descriptor, one after the other.
ghost use Rattle.std.specs.Prelude.{◌≤◌, length};
ghost use Rattle.read_files.specs.Parts.{Next};

use read_text::numbers::Place;

// The first word from `at` on.
pub fn next_word(t: &[u8], at: usize) -> Place
    requires { at ≤ length t.now }
    ensures { Next t.now at result }
{
    let from = at + read_text::lines::leading(&t[at..]);
    let to = from + read_text::numbers::word_length(&t[from..]);
    Place { from, to }
}
