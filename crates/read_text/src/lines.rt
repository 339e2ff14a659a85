// What a line is, and its parts: its text, its mark, its descriptor.
ghost use Rattle.std.specs.Prelude.{◌≡◌, ◌≤◌, ◌-◌, length};
ghost use Rattle.format.specs.Bytes.{space_or_tab};
ghost use Rattle.format.specs.Pairs.{mark, kind_of};
ghost use Rattle.format.specs.Words.{trim_front, trim_end};
ghost use Rattle.read_text.specs.Places.{without_cr, mark_place, kind_place};

// How long the bytes before an LF are without one CR at their end.
pub fn without_cr(s: &[u8]) -> usize
    ensures { (result ≡ length (without_cr s.now)) × (result ≤ length s.now) }
{
    match s.split_last() {
        Some((last, front)) => { if *last == b'\r' { front.len() } else { s.len() } }
        None => 0,
    }
}

// What a line is by its text. Of a field and a pair the place of their mark is told; a line with no mark is neither.
#[derive(Clone, Copy)]
pub enum Kind {
    Empty,
    Comment,
    Field(usize),
    Pair(usize),
    Neither,
}

// In a line that is neither empty nor a comment the first place of `: ` or `:=` decides.
fn find_mark(s: &[u8]) -> Kind
    ensures { result ≡ mark_place (mark s.now) }
{
    let mut i: usize = 1;
    // The form asked for here is a loop that yields place and kind by `break`; a `for` loop yields nothing.
    loop {
        if s.len() <= i {
            break Kind::Neither;
        }
        if s[i - 1] == b':' {
            if s[i] == b' ' {
                break Kind::Field(i - 1);
            }
            if s[i] == b'=' {
                break Kind::Pair(i - 1);
            }
        }
        i += 1;
    }
}

// What a line with the text t is, where no names follow the fields before it.
pub fn kind_of(t: &[u8]) -> Kind
    ensures { result ≡ kind_place (kind_of t.now) }
{
    match t.first() {
        None => Kind::Empty,
        Some(b'#') => Kind::Comment,
        Some(_) => find_mark(t),
    }
}

// Whether a byte is a space or a tab.
pub fn is_blank(b: u8) -> bool
    ensures { result ≡ space_or_tab b }
{
    matches!(b, b' ' | b'\t')
}

// How many spaces and tabs stand at the front.
pub fn leading(s: &[u8]) -> usize
    ensures { (result ≡ length s.now - length (trim_front s.now)) × (result ≤ length s.now) }
{
    s.iter().position(|b| !is_blank(*b)).unwrap_or(s.len())
}

// How long s is without the spaces and tabs at its end.
pub fn without_trailing(s: &[u8]) -> usize
    ensures { (result ≡ length (trim_end s.now)) × (result ≤ length s.now) }
{
    let mut rest = s;
    while let Some((last, front)) = rest.split_last() {
        if !is_blank(*last) {
            return rest.len();
        }
        rest = front;
    }
    0
}
