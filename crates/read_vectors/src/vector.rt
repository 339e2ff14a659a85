// One vector in round brackets, or `none` for an axis without a direction.
ghost use Rattle.std.specs.Prelude.{◌≡◌, [], ◌∷◌, ◌≤◌, length};
ghost use Rattle.std.proofs.Math.Option.{none};
ghost use Rattle.format.specs.Bytes.{is_some};
ghost use Rattle.format.specs.Limits.{max_header};
ghost use Rattle.format.specs.Decimals.{marked, no_direction};
ghost use Rattle.format.specs.Vectors.{enclosed, comma_parts, said_by, component_in, vector_said, direction_said};
ghost use Rattle.read_decimals.specs.Components.{component_told};
ghost use Rattle.format.specs.Columns.{column};
ghost use Rattle.read_vectors.specs.Answers.{vector_answer, direction_answer, vector_column, direction_column};

use format::Decimal;

// A vector, and whether there is one: its components, and zeros after them.
#[derive(Clone, Copy)]
pub struct Vector {
    pub fine: bool,
    pub parts: [Decimal; 8],
}

// A component that is zero.
const NOUGHT: Decimal = Decimal {
    number: 0,
    power: 0,
    kind: 0,
};

// The first component of an axis without a direction.
const WITHOUT: Decimal = Decimal {
    number: 0,
    power: 0,
    kind: 4,
};

// Eight zeros.
pub fn blank_column() -> [Decimal; 8]
    ensures { result ≡ column [] }
{
    [NOUGHT; 8]
}

// What is answered where there is no vector.
fn no_vector() -> Vector
    ensures { result ≡ vector_answer none }
{
    let parts = blank_column();
    Vector { fine: false, parts }
}

// What is answered for an axis without a direction: a mark, and zeros.
fn without_direction() -> [Decimal; 8]
    ensures { result ≡ column (marked no_direction ∷ []) }
{
    let mut parts = blank_column();
    parts[0] = WITHOUT;
    parts
}

// A component with the blanks beside it.
fn read_part(p: &[u8]) -> Option<Decimal>
    requires { length p.now ≤ max_header }
    ensures { result ≡ component_told (component_in p.now) }
{
    let from = read_text::lines::leading(p);
    let to = from + read_text::lines::without_trailing(&p[from..]);
    read_decimals::read_component(&p[from..to])
}

// The n components that commas part.
fn read_parts(s: &[u8], n: usize) -> Option<[Decimal; 8]>
    requires { (length s.now ≤ max_header) × (n ≤ 8) }
    ensures { result ≡ vector_column (said_by n component_in (comma_parts s.now)) }
{
    let mut parts = blank_column();
    // where the next component starts; past the end where there is none
    let mut at: usize = 0;
    for i in 0..n {
        if s.len() < at {
            return None;
        }
        let to = at + read_text::bytes::find_byte(&s[at..], b',');
        parts[i] = read_part(&s[at..to])?;
        at = to + 1;
    }
    if at <= s.len() {
        return None;
    }
    Some(parts)
}

// Whether an opening bracket stands at the front and a closing one at the end.
fn is_enclosed(w: &[u8]) -> bool
    ensures { result ≡ is_some (enclosed w.now) }
{
    if w.len() < 2 {
        false
    } else {
        (w[0] == b'(') & (w[w.len() - 1] == b')')
    }
}

// The vector of n components that a word is, zeros after them.
pub fn vector_of(w: &[u8], n: usize) -> Option<[Decimal; 8]>
    requires { (length w.now ≤ max_header) × (n ≤ 8) }
    ensures { result ≡ vector_column (vector_said n w.now) }
{
    if !is_enclosed(w) {
        return None;
    }
    let to = w.len() - 1;
    read_parts(&w[1..to], n)
}

// The direction of an axis that a word is: a vector of n components, or a mark where the axis has none.
pub fn direction_of(w: &[u8], n: usize) -> Option<[Decimal; 8]>
    requires { (length w.now ≤ max_header) × (n ≤ 8) }
    ensures { result ≡ direction_column (direction_said n w.now) }
{
    if read_text::words::is_alike(w, b"none") {
        return Some(without_direction());
    }
    vector_of(w, n)
}

// The vector with a flag.
pub fn read_vector(w: &[u8], n: usize) -> Vector
    requires { (length w.now ≤ max_header) × (n ≤ 8) }
    ensures { result ≡ vector_answer (vector_said n w.now) }
{
    match vector_of(w, n) {
        Some(parts) => Vector { fine: true, parts },
        None => no_vector(),
    }
}

// The direction with a flag.
pub fn read_direction(w: &[u8], n: usize) -> Vector
    requires { (length w.now ≤ max_header) × (n ≤ 8) }
    ensures { result ≡ direction_answer (direction_said n w.now) }
{
    match direction_of(w, n) {
        Some(parts) => Vector { fine: true, parts },
        None => no_vector(),
    }
}
