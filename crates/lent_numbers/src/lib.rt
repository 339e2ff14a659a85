// Numbers in lent bytes, the low byte first: table entries of 4 bytes; samples, sizes and coordinates of 8.
#![tactic(auto)]

ghost use Rattle.std.specs.Prelude.{◌≡◌, ◌+◌, ◌*◌, ◌/◌, ◌≤◌, ◌<◌, min, length, take, drop};
ghost use Rattle.std.proofs.lemmas.List.Edits.{sets};
ghost use Rattle.format.specs.Bytes.{over};
ghost use Rattle.format.specs.Descriptors.{little};
ghost use Rattle.format.specs.Samples.{from_bytes, to_bytes, to_signed, from_signed, value_bytes};
ghost use Rattle.format.specs.Boundary.{numbers_of};
ghost use Rattle.lent_numbers.specs.Bits.{Bits};
ghost use Rattle.lent_numbers.specs.Widths.{Width, is_width};

pub mod cell;

// W bytes at a place.
fn chunk<const W: usize>(s: &[u8], at: usize) -> [u8; W]
    requires { at + W ≤ length s.now }
    ensures { result ≡ take W (drop at s.now) }
{
    s[at..at + W].try_into().unwrap()
}

// The number of W bytes at a place. The compiler makes one load of it.
pub fn load<const W: usize>(s: &[u8], at: usize) -> u64
    requires width { Width W }
    requires bytes_there { at + W ≤ length s.now }
    ensures { Bits W (from_bytes (take W (drop at s.now))) result }
{
    match W {
        8 => u64::from_le_bytes(chunk(s, at)),
        4 => u32::from_le_bytes(chunk(s, at)) as u64,
        2 => u16::from_le_bytes(chunk(s, at)) as u64,
        _ => s[at] as u64,
    }
}

// The low W bytes of a number, stored at a place. The compiler makes one store of it.
pub fn store<const W: usize>(d: &mut [u8], at: usize, x: u64)
    requires width { W ≤ 8 }
    requires room { at + W ≤ length d.old }
    ensures { d.new ≡ sets d.old at (to_bytes W x) }
{
    d[at..at + W].copy_from_slice(&x.to_le_bytes()[..W]);
}

// The sample whose bits are x: two's complement.
pub fn signed_of(x: u64) -> i64
    ensures { result ≡ to_signed 8 x }
{
    x.cast_signed()
}

// The bits of a sample.
pub fn bits_of(z: i64) -> u64
    ensures { result ≡ from_signed 8 z }
{
    z.cast_unsigned()
}

// Table entry k.
pub fn entry_at(s: &[u8], k: usize) -> u32
    requires { 4 * k + 4 ≤ length s.now }
    ensures { result ≡ from_bytes (take 4 (drop (4 * k) s.now)) }
{
    load::<4>(s, 4 * k) as u32
}

pub fn put_entry(d: &mut [u8], k: usize, x: u32)
    requires { 4 * k + 4 ≤ length d.old }
    ensures { d.new ≡ sets d.old (4 * k) (to_bytes 4 x) }
{
    store::<4>(d, 4 * k, x as u64)
}

// Size or coordinate k.
pub fn word_at(s: &[u8], k: usize) -> u64
    requires { 8 * k + 8 ≤ length s.now }
    ensures { result ≡ from_bytes (take 8 (drop (8 * k) s.now)) }
{
    load::<8>(s, 8 * k)
}

// Sample k.
pub fn put_sample(d: &mut [u8], k: usize, z: i64)
    requires { 8 * k + 8 ≤ length d.old }
    ensures { d.new ≡ sets d.old (8 * k) (value_bytes 8 little z) }
{
    store::<8>(d, 8 * k, bits_of(z))
}

// The sizes or coordinates of lent bytes to the front of t: as many as are there and have room.
pub fn numbers(s: &[u8], t: &mut [u64]) -> usize
    ensures { (result ≡ min (length s.now / 8) (length t.old)) × (t.new ≡ over (take result (numbers_of 8 s.now)) t.old) }
{
    let n = (s.len() / 8).min(t.len());
    for i in 0..n {
        t[i] = word_at(s, i);
    }
    n
}

// Whether samples have so many bytes.
pub fn is_width(w: usize) -> bool
    ensures { result ≡ is_width w }
{
    matches!(w, 1 | 2 | 4 | 8)
}
