// The bytes that digits write, by blocks of 128: first the digits without blanks, then their values, then the bytes of two.
// Loops over a fixed count have no branches, so that the compiler makes vector code of them.
ghost use Rattle.std.specs.Prelude.{◌≡◌, true, ◌++◌, map, ◌+◌, ◌*◌, ◌-◌, ◌/◌, ◌%◌, ◌≤◌, ◌<◌, min, length, take, drop, slice_index, set};
ghost use Rattle.format.specs.Samples.{blank};
ghost use Rattle.data_hex.specs.Forms.{digits_at, digits_refusal, digit_value, pairs_of, Run, Spaced, Moved, Pair, Enough, Taken};

use crate::blanks;

// Whether the 32 bytes from a place on are above the blanks.
fn no_blanks(s: &[u8], at: usize) -> bool
    requires { at + 32 ≤ length s.now }
    ensures { result ≡ true → Run s.now at 32 }
{
    let mut fine = true;
    for j in 0..32 {
        fine = fine & (32 < s[at + j]);
    }
    fine
}

// Whether 32 bytes with no blank are next, and as many may be stored.
fn is_run(s: &[u8], at: usize, room: usize) -> bool
    requires { at ≤ length s.now }
    ensures { result ≡ true → (at + 32 ≤ length s.now) × ((32 ≤ room) × Run s.now at 32) }
{
    32 <= s.len() - at && 32 <= room && no_blanks(s, at)
}

// 32 digits with no blank between them.
fn copy(s: &[u8], at: usize, d: &mut [u8], o: usize)
    requires bytes_there { at + 32 ≤ length s.now }
    requires room { o + 32 ≤ length d.old }
    requires run { Run s.now at 32 }
    ensures { Moved s.now at (at + 32) d.old o d.new (o + 32) }
{
    d[o..o + 32].copy_from_slice(&s[at..at + 32]);
}

// Whether the 48 bytes from a place on are two above 32 and one of at most 32, 16 times.
// That is enough where all digits that are wanted are there: a byte of at most 32 before one of them is a blank.
fn blanks_third(s: &[u8], at: usize) -> bool
    requires { at + 48 ≤ length s.now }
    ensures { result ≡ true → Spaced s.now at 48 }
{
    let mut fine = true;
    for j in 0..48 {
        fine = fine & ((s[at + j] <= 32) == (j % 3 == 2));
    }
    fine
}

// Whether 16 pairs of bytes above the blanks, with a blank after each, are next, and as many digits may be stored.
// The byte after the last pair is tested exactly, since no wanted digit needs to follow it.
fn is_spaced(s: &[u8], at: usize, room: usize) -> bool
    requires { at ≤ length s.now }
    ensures { result ≡ true → (at + 48 ≤ length s.now) × ((32 ≤ room) × (Spaced s.now at 48 × (blank (slice_index s.now (at + 47)) ≡ true))) }
{
    // other shapes of data mostly end at the test of the last byte
    48 <= s.len() - at && 32 <= room && blanks::is_blank(s[at + 47]) && blanks_third(s, at)
}

// Two digits that one number holds. The compiler makes one store of it.
fn store_pair(d: &mut [u8], o: usize, x: u16)
    requires { o + 2 ≤ length d.old }
    ensures { d.new ≡ set (set d.old o (x % 256)) (o + 1) (x / 256) }
{
    d[o] = (x % 256) as u8;
    d[o + 1] = (x / 256) as u8;
}

// 16 pairs of digits with a blank after each.
fn copy_pairs(s: &[u8], at: usize, d: &mut [u8], o: usize)
    requires bytes_there { at + 48 ≤ length s.now }
    requires room { o + 32 ≤ length d.old }
    requires spaced { Spaced s.now at 48 }
    requires ends_blank { blank (slice_index s.now (at + 47)) ≡ true }
    ensures { digits_refusal 32 (digits_at s.now at) ≡ 0 → Moved s.now at (at + 48) d.old o d.new (o + 32) }
{
    for j in 0..16 {
        let x = load_pair(s, at + 3 * j);
        store_pair(d, o + 2 * j, x);
    }
}

// The digits of c bytes: each byte is stored, and the next one over it where it is a blank.
fn squeeze(s: &[u8], at: usize, c: usize, d: &mut [u8], o: usize) -> usize
    requires bytes_there { at + c ≤ length s.now }
    requires room { o + c ≤ length d.old }
    ensures between { (o ≤ result) × (result ≤ o + c) }
    ensures moved { digits_refusal c (digits_at s.now at) ≡ 0 → Moved s.now at (at + c) d.old o d.new result }
{
    let mut e = o;
    for j in 0..c {
        let b = s[at + j];
        d[e] = b;
        e += blanks::one_if(32 < b) as usize;
    }
    e
}

// A place in the data, and the end of what is stored.
#[derive(Clone, Copy)]
struct Place {
    at: usize,
    end: usize,
}

// Some of the m digits that are wanted: 16 pairs, a run of 32, none for a blank, or those of up to 25 bytes.
// Where pairs start one or two bytes later, 25 bytes more lead to a blank or to the start of a pair, since 25 is no multiple of 3.
fn put_some(s: &[u8], at: usize, m: usize, d: &mut [u8], o: usize) -> Place
    requires at_inside { at < length s.now }
    requires o_below_m { o < m }
    requires room { m ≤ length d.old }
    ensures ahead { (at < result.at) × ((result.at ≤ length s.now) × ((o ≤ result.end) × (result.end ≤ m))) }
    ensures moved { digits_refusal (m - o) (digits_at s.now at) ≡ 0 → Moved s.now at result.at d.old o d.new result.end }
{
    if is_spaced(s, at, m - o) {
        copy_pairs(s, at, d, o);
        return Place {
            at: at + 48,
            end: o + 32,
        };
    }
    if is_run(s, at, m - o) {
        copy(s, at, d, o);
        return Place {
            at: at + 32,
            end: o + 32,
        };
    }
    if s[at] <= 32 {
        return Place { at: at + 1, end: o };
    }
    let c = (s.len() - at).min(m - o).min(25);
    let end = squeeze(s, at, c, d, o);
    Place { at: at + c, end }
}

// The next m digits, and the place after them.
fn gather(s: &[u8], at: usize, m: usize, d: &mut [u8]) -> usize
    requires at_within { at ≤ length s.now }
    requires room { m ≤ length d.old }
    ensures within { result ≤ length s.now }
    ensures moved { digits_refusal m (digits_at s.now at) ≡ 0 → Moved s.now at result d.old 0 d.new m }
{
    let mut i = at;
    let mut o: usize = 0;
    while o < m {
        if s.len() <= i {
            return i;
        }
        let p = put_some(s, i, m, d, o);
        i = p.at;
        o = p.end;
    }
    i
}

// Each of the first 32 * k digits becomes its value. The count is a multiple of 32 that is not known when compiling: the compiler then makes a short loop over vectors, with nothing left over.
fn make_values(d: &mut [u8], k: usize)
    requires buffer_of_256 { length d.old ≡ 256 }
    requires k_up_to_8 { k ≤ 8 }
    ensures { d.new ≡ take (32 * k) (map digit_value d.old) ++ drop (32 * k) d.old }
{
    for j in 0..32 * k {
        d[j] = data_hex_digits::value(d[j]);
    }
}

// The byte as a wider number.
fn wide(b: u8) -> u16
    ensures { (result ≡ b) × (result < 256) }
{
    b as u16
}

// Two values as one number, the first one below. The compiler makes one load of it.
fn load_pair(d: &[u8], at: usize) -> u16
    requires { at + 2 ≤ length d.now }
    ensures { Pair (slice_index d.now at) (slice_index d.now (at + 1)) result }
{
    let high = wide(d[at]);
    let low = wide(d[at + 1]);
    high + 256 * low
}

// The byte of two values.
fn byte_of(x: u16) -> u8
    ensures { result ≡ (x % 256 * 16 + x / 256) % 256 }
{
    (((x % 256) * 16 + x / 256) % 256) as u8
}

// The bytes that the first 32 * k values write.
fn make_bytes(d: &[u8], bytes: &mut [u8], k: usize)
    requires buffer_of_256 { length d.now ≡ 256 }
    requires block_of_128 { length bytes.old ≡ 128 }
    requires k_up_to_8 { k ≤ 8 }
    ensures { bytes.new ≡ take (16 * k) (pairs_of d.now) ++ drop (16 * k) bytes.old }
{
    for j in 0..16 * k {
        bytes[j] = byte_of(load_pair(d, 2 * j));
    }
}

// The next j bytes to the front of a block, and the place after their digits, which go to d. Both arrays are the caller's, so that they are not
// set to 0 for each block.
pub(crate) fn next_bytes(s: &[u8], at: usize, j: usize, d: &mut [u8], bytes: &mut [u8]) -> usize
    requires at_within { at ≤ length s.now }
    requires j_up_to_128 { j ≤ 128 }
    requires buffer_of_256 { length d.old ≡ 256 }
    requires block_of_128 { length bytes.old ≡ 128 }
    ensures within { result ≤ length s.now }
    ensures taken { Enough s.now at j → Taken s.now at j bytes.new result }
{
    let next = gather(s, at, 2 * j, d);
    // how many blocks of 16 bytes hold these j
    let k = (j + 15) / 16;
    make_values(d, k);
    make_bytes(d, bytes, k);
    next
}
