// The words that blanks outside of brackets part.
ghost use Rattle.std.specs.Prelude.{◌≡◌, false, not, ◌&&◌, ◌≤◌, length};
ghost use Rattle.format.specs.Bytes.{space_or_tab};
ghost use Rattle.format.specs.Vectors.{inside_after};
ghost use Rattle.read_vectors.specs.Outside.{first_outside, Next, WordAt};

// Where a word stands.
pub use read_text::numbers::Place;

// Whether the byte b ends a word.
fn is_end(inside: bool, b: u8) -> bool
    ensures { result ≡ (space_or_tab b && not inside) }
{
    ((b == b' ') | (b == b'\t')) & !inside
}

// Whether what follows the byte b is inside of brackets.
fn is_inside(inside: bool, b: u8) -> bool
    ensures { result ≡ inside_after inside b }
{
    match b {
        b'(' => true,
        b')' => false,
        _ => inside,
    }
}

// How long the word at the front is: up to a space or a tab outside of brackets, or to the end.
fn word_length(s: &[u8]) -> usize
    ensures { (result ≡ length (first_outside false s.now)) × (result ≤ length s.now) }
{
    let mut inside = false;
    for (i, b) in s.iter().enumerate() {
        if is_end(inside, *b) {
            return i;
        }
        inside = is_inside(inside, *b);
    }
    s.len()
}

// The first word from `at` on, where no word is cut.
pub fn next_word(t: &[u8], at: usize) -> Place
    requires { at ≤ length t.now }
    ensures { Next t.now at result.from result.to }
{
    let from = at + read_text::lines::leading(&t[at..]);
    let to = from + word_length(&t[from..]);
    Place { from, to }
}

// The word number i, from 0 for the first.
pub fn word_at(t: &[u8], i: usize) -> Place
    ensures { WordAt t.now i result.from result.to }
{
    let mut at: usize = 0;
    for _ in 0..i {
        let w = next_word(t, at);
        if w.from == w.to {
            return w;
        }
        at = w.to;
    }
    next_word(t, at)
}
