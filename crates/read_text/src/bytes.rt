// Searches and tests over bytes.
ghost use Rattle.std.specs.Prelude.{◌≡◌, false, ◌&&◌, ◌+◌, ◌≤◌, length, drop};
ghost use Rattle.format.specs.Bytes.{every, same, begins_with};
ghost use Rattle.format.specs.Pairs.{plain};
ghost use Rattle.read_text.specs.Places.{before};

// Whether one of the 32 bytes from `at` on is b. The compiler makes vector code of the loop.
fn hit(s: &[u8], at: usize, b: u8) -> bool
    requires { at + 32 ≤ length s.now }
    ensures { result ≡ false → before b (drop at s.now) ≡ 32 + before b (drop (at + 32) s.now) }
{
    let mut found = false;
    for j in 0..32 {
        found |= s[at + j] == b;
    }
    found
}

// How many bytes stand before the first b, or all of them where there is none.
pub fn find_byte(s: &[u8], b: u8) -> usize
    ensures { (result ≡ before b s.now) × (result ≤ length s.now) }
{
    let mut i: usize = 0;
    // a `while`, since it goes on by 32 bytes: `position` alone takes 12 times as long on 4,096 bytes
    while 32 <= s.len() - i {
        if hit(s, i, b) {
            break;
        }
        i += 32;
    }
    let rest = &s[i..];
    i + rest.iter().position(|c| *c == b).unwrap_or(rest.len())
}

// Whether a byte is one that a field or a pair may hold: tab, or 32 to 126.
pub fn is_plain_byte(b: u8) -> bool
    ensures { result ≡ plain b }
{
    matches!(b, b'\t' | 32..=126)
}

// Whether the 8 bytes from `at` on are plain. The compiler makes vector code of the loop.
fn plain_block(s: &[u8], at: usize) -> bool
    requires { at + 8 ≤ length s.now }
    ensures { every plain (drop at s.now) ≡ (result && every plain (drop (at + 8) s.now)) }
{
    let mut fine = true;
    for j in 0..8 {
        fine &= is_plain_byte(s[at + j]);
    }
    fine
}

// The same of 16 bytes: both halves are tested, with no branch between them.
fn plain_pair(s: &[u8], at: usize) -> bool
    requires { at + 16 ≤ length s.now }
    ensures { every plain (drop at s.now) ≡ (result && every plain (drop (at + 16) s.now)) }
{
    plain_block(s, at) & plain_block(s, at + 8)
}

// Whether all bytes are plain where those before i are and at most 16 are left. The last block ends with the last byte and may overlap the one before it, so that no bytes are left for a
// slower loop.
fn plain_end(s: &[u8], i: usize) -> bool
    requires { (8 ≤ length s.now) × (i ≤ length s.now) × (length s.now ≤ i + 16) }
    ensures { every plain s.now ≡ every plain (drop i s.now) → result ≡ every plain s.now }
{
    let last = s.len() - 8;
    if last <= i {
        plain_block(s, last)
    } else {
        plain_block(s, i) & plain_block(s, last)
    }
}

// Whether all bytes are plain, one by one, for a text too short for a block.
fn plain_short(s: &[u8]) -> bool
    ensures { result ≡ every plain s.now }
{
    s.iter().all(|b| is_plain_byte(*b))
}

// Whether all bytes are plain.
pub fn is_plain(s: &[u8]) -> bool
    ensures { result ≡ every plain s.now }
{
    let n = s.len();
    if n < 8 {
        return plain_short(s);
    }
    let mut i: usize = 0;
    // a `while`, since it goes on by 16 bytes, as long as more are left: the last block may overlap the one before it
    while 16 < n - i {
        if !plain_pair(s, i) {
            return false;
        }
        i += 16;
    }
    plain_end(s, i)
}

// Whether the two hold the same bytes.
pub fn is_same(a: &[u8], b: &[u8]) -> bool
    ensures { result ≡ same a.now b.now }
{
    a == b
}

// Whether s begins with the bytes of `front`.
pub fn begins_with(front: &[u8], s: &[u8]) -> bool
    ensures { result ≡ begins_with front.now s.now }
{
    s.starts_with(front)
}
