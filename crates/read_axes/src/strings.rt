// Labels and units: a string in double quotes for each axis.
ghost use Rattle.std.specs.Prelude.{◌≡◌, false, ◌+◌, ◌≤◌, ◌<◌, length, slice_index, drop};
ghost use Rattle.format.specs.Bytes.{space_or_tab};
ghost use Rattle.format.specs.Limits.{max_axes, max_file};
ghost use Rattle.format.specs.Strings.{strings_said};
ghost use Rattle.read_axes.specs.Strings.{text_from, blank_or_end, StringIs, no_strings, spans_from, strings_answer};

// Where the text of a string lies; both are 0 where there is none.
#[derive(Clone, Copy)]
pub struct Span {
    pub start: u32,
    pub length: u32,
}

// Where the strings lie, and whether there is one for each axis; if not, all are 0.
#[derive(Clone, Copy)]
pub struct Strings {
    pub fine: bool,
    pub spans: [Span; format::AXES],
}

const NOWHERE: Span = Span {
    start: 0,
    length: 0,
};

// What is answered where there is not one string for each axis.
fn no_strings() -> Strings
    ensures { result ≡ no_strings }
{
    let spans = [NOWHERE; format::AXES];
    Strings { fine: false, spans }
}

// How many bytes stand before the quote that closes the string that s begins inside of; all where it stays open.
fn text_length(s: &[u8]) -> usize
    ensures { (result ≡ length (text_from false s.now)) × (result ≤ length s.now) }
{
    let mut escaped = false;
    for (i, b) in s.iter().enumerate() {
        if (*b == b'"') & !escaped {
            return i;
        }
        escaped = *b == b'\\';
    }
    s.len()
}

// Whether a space or a tab stands at a place, or the text ends there.
fn is_blank_or_end(t: &[u8], at: usize) -> bool
    ensures { result ≡ blank_or_end (drop at t.now) }
{
    if at < t.len() {
        let b = t[at];
        return (b == b' ') | (b == b'\t');
    }
    true
}

// The string that begins at a place: a quote, its text, a quote, and then a blank or the end. Its length is that of the text.
fn string_at(t: &[u8], at: usize) -> Option<usize>
    requires { (at < length t.now) × (space_or_tab (slice_index t.now at) ≡ false) }
    ensures { StringIs t.now at result }
{
    if t[at] != b'"' {
        return None;
    }
    let from = at + 1;
    let n = text_length(&t[from..]);
    let end = from + n;
    if end == t.len() {
        return None;
    }
    if !is_blank_or_end(t, end + 1) {
        return None;
    }
    Some(n)
}

// As many strings as axes, parted by spaces and tabs: their places in a file in which the descriptor starts at `base`.
pub fn strings_in(t: &[u8], axes: usize, base: u32) -> Option<[Span; format::AXES]>
    requires { (axes ≤ max_axes) × (base + length t.now ≤ max_file) }
    ensures { result ≡ spans_from base (strings_said axes t.now) }
{
    let mut at: usize = 0;
    let mut n: usize = 0;
    let mut v = [NOWHERE; format::AXES];
    // a `while`, since it goes on by a blank or by a string
    while at < t.len() {
        let b = t[at];
        if (b == b' ') | (b == b'\t') {
            at += 1;
        } else {
            let long = string_at(t, at)?;
            if n == axes {
                return None;
            }
            let from = at + 1;
            let place = from as u32;
            let start = base + place;
            let length = long as u32;
            v[n] = Span { start, length };
            n += 1;
            at = from + long + 1;
        }
    }
    if n == axes { Some(v) } else { None }
}

// The same with a flag.
pub fn read_strings(t: &[u8], axes: usize, base: u32) -> Strings
    requires { (axes ≤ max_axes) × (base + length t.now ≤ max_file) }
    ensures { result ≡ strings_answer base (strings_said axes t.now) }
{
    match strings_in(t, axes, base) {
        Some(spans) => Strings { fine: true, spans },
        None => no_strings(),
    }
}
