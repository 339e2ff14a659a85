// Escapes of keys and values.
ghost use Rattle.std.specs.Prelude.{◌≡◌, ◌≤◌, ◌<◌, length};
ghost use Rattle.std.proofs.lemmas.List.Edits.{sets};
ghost use Rattle.format.specs.Bytes.{is_some};
ghost use Rattle.format.specs.Pairs.{unescape};
ghost use Rattle.read_text.specs.Meanings.{means_key, meant, FirstIs};

// The byte that a text means first, and how many of its bytes write it.
#[derive(Clone, Copy)]
struct Meant {
    byte: u8,
    width: usize,
}

// What the text means first, from `at` on; none where a backslash is not allowed.
fn first_meant(s: &[u8], at: usize) -> Option<Meant>
    requires { at < length s.now }
    ensures { FirstIs s.now at result }
{
    let b = s[at];
    if b != b'\\' {
        return Some(Meant { byte: b, width: 1 });
    }
    if s.len() - at < 2 {
        return None;
    }
    let e = s[at + 1];
    match e {
        b'n' => Some(Meant {
            byte: b'\n',
            width: 2,
        }),
        b'\\' => Some(Meant {
            byte: b'\\',
            width: 2,
        }),
        _ => None,
    }
}

// The loops below are `while`: they go on by 1 byte or by 2.

// Whether every backslash stands before an `n` or a backslash.
pub fn unescapes(s: &[u8]) -> bool
    ensures { result ≡ is_some (unescape s.now) }
{
    let mut i: usize = 0;
    while i < s.len() {
        let Some(m) = first_meant(s, i) else {
            return false;
        };
        i += m.width;
    }
    true
}

// Whether the escaped text s means the bytes of `key`.
pub fn means(s: &[u8], key: &[u8]) -> bool
    ensures { result ≡ means_key key.now (unescape s.now) }
{
    let mut i: usize = 0;
    let mut k: usize = 0;
    while i < s.len() {
        let Some(m) = first_meant(s, i) else {
            return false;
        };
        if key.len() <= k {
            return false;
        }
        if key[k] != m.byte {
            return false;
        }
        k += 1;
        i += m.width;
    }
    k == key.len()
}

// How long what s means is, up to the first backslash that is not allowed.
pub fn unescaped_length(s: &[u8]) -> usize
    ensures length { result ≡ length (meant s.now) }
    ensures within { result ≤ length s.now }
{
    let mut n: usize = 0;
    let mut i: usize = 0;
    while i < s.len() {
        let Some(m) = first_meant(s, i) else {
            return n;
        };
        n += 1;
        i += m.width;
    }
    n
}

// Writes what s means, up to the first backslash that is not allowed, to the front of `out`, and of that as much as has room: `sets` changes nothing past the end.
pub fn unescape_into(s: &[u8], out: &mut [u8])
    ensures { out.new ≡ sets out.old 0 (meant s.now) }
{
    let mut n: usize = 0;
    let mut i: usize = 0;
    while i < s.len() {
        if out.len() <= n {
            return;
        }
        let Some(m) = first_meant(s, i) else {
            return;
        };
        out[n] = m.byte;
        n += 1;
        i += m.width;
    }
}
