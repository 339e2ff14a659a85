// Keys and values as the text of a line: whether a line can hold them, how long the text is, and the text written.
#![tactic(auto)]

ghost use Rattle.std.specs.Prelude.{◌≡◌, [], ◌∷◌, ◌+◌, ◌≤◌, min, length};
ghost use Rattle.std.proofs.lemmas.List.Edits.{sets};
ghost use Rattle.format.specs.Limits.{max_header};
ghost use Rattle.format.specs.Pairs.{escape};
ghost use Rattle.format.specs.Settings.{settable, key_fine, value_fine, pair_text};

use read_text::lines::Kind;

// A key and the value that it is set to.
#[derive(Clone, Copy)]
pub struct Pair<'a> {
    pub key: &'a [u8],
    pub value: &'a [u8],
}

impl Pair<'_> {
    // How many bytes the text of the line has, or one more than a header may have where it is longer.
    #[tactic(auto, using(format::proofs::Pairs::length_pair))]
    pub fn length(&self) -> usize
        ensures { result ≡ min (length (pair_text self.now.key.now self.now.value.now)) (max_header + 1) }
    {
        (escaped_length(self.key) + 2 + escaped_length(self.value)).min(format::MAX_HEADER + 1)
    }

    // Writes the text of the line at `at`.
    #[tactic(auto, using(format::proofs::Pairs::length_pair))]
    pub fn put(&self, buf: &mut [u8], at: usize)
        requires { at + length (pair_text self.now.key.now self.now.value.now) ≤ length buf.old }
        ensures { buf.new ≡ sets buf.old at (pair_text self.now.key.now self.now.value.now) }
    {
        let mark = escape_into(buf, at, self.key);
        buf[mark] = b':';
        buf[mark + 1] = b'=';
        escape_into(buf, mark + 2, self.value);
    }
}

// Whether a key or a value may hold the byte.
fn is_settable(b: u8) -> bool
    ensures { result ≡ settable b }
{
    b == b'\n' || read_text::bytes::is_plain_byte(b)
}

// Whether a line can hold the value.
pub fn value_fine(value: &[u8]) -> bool
    ensures { result ≡ value_fine value.now }
{
    let mut fine = true;
    for &b in value {
        fine &= is_settable(b);
    }
    fine
}

// Whether a line can hold the key.
pub fn key_fine(key: &[u8]) -> bool
    ensures { result ≡ key_fine key.now }
{
    match read_text::lines::kind_of(key) {
        Kind::Neither => value_fine(key),
        _ => false,
    }
}

// How many bytes a line takes for the byte.
#[tactic(auto, unfolding(format::specs::Pairs::escape))]
fn byte_length(c: u8) -> usize
    ensures { result ≡ length (escape (c ∷ [])) }
{
    match c {
        b'\n' | b'\\' => 2,
        _ => 1,
    }
}

// How many bytes a line takes for the text, or one more than a header may have where it takes more.
#[tactic(auto, using(crate::proofs::Escapes::escape_steps))]
pub fn escaped_length(s: &[u8]) -> usize
    ensures { result ≡ min (length (escape s.now)) (max_header + 1) }
{
    let mut n = 0;
    for &c in s {
        n += byte_length(c);
    }
    n.min(format::MAX_HEADER + 1)
}

// Writes a byte at o as a line holds it, and returns the place after it.
#[tactic(auto, unfolding(format::specs::Pairs::escape))]
fn put_escaped(d: &mut [u8], o: usize, c: u8) -> usize
    requires { o + length (escape (c ∷ [])) ≤ length d.old }
    ensures place { result ≡ o + length (escape (c ∷ [])) }
    ensures stored { d.new ≡ sets d.old o (escape (c ∷ [])) }
{
    match c {
        b'\n' => {
            d[o] = b'\\';
            d[o + 1] = b'n';
            o + 2
        }
        b'\\' => {
            d[o] = b'\\';
            d[o + 1] = b'\\';
            o + 2
        }
        _ => {
            d[o] = c;
            o + 1
        }
    }
}

// Writes a text at `at` as a line holds it, and returns the place after it.
#[tactic(auto, using(crate::proofs::Escapes::escape_steps))]
fn escape_into(buf: &mut [u8], at: usize, s: &[u8]) -> usize
    requires { at + length (escape s.now) ≤ length buf.old }
    ensures place { result ≡ at + length (escape s.now) }
    ensures stored { buf.new ≡ sets buf.old at (escape s.now) }
{
    let mut o = at;
    for &c in s {
        o = put_escaped(buf, o, c);
    }
    o
}
