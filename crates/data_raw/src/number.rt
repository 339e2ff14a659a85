// The number that is at a place in raw data, and the sample that it is.
ghost use Rattle.std.specs.Prelude.{◌≡◌, ◌+◌, ◌*◌, ◌%◌, ◌^◌, ◌<◌, ◌≤◌, min, true, length, take, drop};
ghost use Rattle.format.specs.Samples.{from_bytes, in_type, value_of_bits, to_signed};
ghost use Rattle.data_raw.specs.Bits.{Bits, turned, bits_at, sample_at, folded, range, lifts, low, Shifts};
ghost use Rattle.lent_numbers.specs.Widths.{Width, kind_by};

// The number at a place, the least byte first.
fn load(s: &[u8], at: usize, w: usize) -> u64
    requires width { Width w }
    requires bytes_there { at + w ≤ length s.now }
    ensures { Bits w (from_bytes (take w (drop at s.now))) result }
{
    match w {
        8 => lent_numbers::load::<8>(s, at),
        4 => lent_numbers::load::<4>(s, at),
        2 => lent_numbers::load::<2>(s, at),
        _ => lent_numbers::load::<1>(s, at),
    }
}

// Its bytes in the other order.
fn turn(x: u64, w: usize) -> u64
    requires width { Width w }
    requires x_of_w_bytes { x < 256 ^ w }
    ensures { Bits w (turned w x) result }
{
    match w {
        8 => x.swap_bytes(),
        4 => (x as u32).swap_bytes() as u64,
        2 => (x as u16).swap_bytes() as u64,
        _ => x,
    }
}

// The number at a place, by its endian.
pub(crate) fn word(s: &[u8], at: usize, w: usize, big: bool) -> u64
    requires width { Width w }
    requires bytes_there { at + w ≤ length s.now }
    ensures { Bits w (bits_at big w s.now at) result }
{
    let x = load(s, at, w);
    if big { turn(x, w) } else { x }
}

// Two's complement.
fn signed_value(x: u64, w: usize) -> i64
    requires width { Width w }
    requires x_of_w_bytes { x < 256 ^ w }
    ensures { result ≡ to_signed w x }
{
    match w {
        8 => x.cast_signed(),
        4 => (x as u32).cast_signed() as i64,
        2 => (x as u16).cast_signed() as i64,
        _ => (x as u8).cast_signed() as i64,
    }
}

// The value of a sample's bits, where the type has it.
fn value(x: u64, w: usize, signed: bool) -> i64
    requires width { Width w }
    requires x_of_w_bytes { x < 256 ^ w }
    ensures { in_type (kind_by signed) w (value_of_bits (kind_by signed) w x) ≡ true → result ≡ value_of_bits (kind_by signed) w x }
{
    if signed {
        signed_value(x, w)
    } else {
        (x % 9223372036854775808) as i64
    }
}

// The sample at a place, where the type has it.
pub(crate) fn sample_at(s: &[u8], at: usize, w: usize, signed: bool, big: bool) -> i64
    requires width { Width w }
    requires bytes_there { at + w ≤ length s.now }
    ensures { in_type (kind_by signed) w (sample_at signed big w s.now at) ≡ true → result ≡ sample_at signed big w s.now at }
{
    let x = word(s, at, w, big);
    value(x, w, signed)
}

// Samples of 1 or 2 bytes go by way of 64 numbers of 16 bits: the compiler then unpacks eight of them at once. Each is lifted, `up` added modulo the range of its type, and
// then lowered: of a signed type `up` is taken off, of an unsigned one it is added again, modulo 65536. Little-endian uint16 needs no `up`, but without one the compiler sees
// through the copy and takes two samples at once.

// The shift of a type.
pub(crate) fn shift(w: usize, signed: bool, big: bool) -> u16
    requires width { Width w }
    requires narrow { w ≤ 2 }
    ensures { Shifts w signed result }
{
    match w {
        1 => if signed { 128 } else { 0 },
        _ => if signed || !big { 32768 } else { 0 },
    }
}

// A number, up added, modulo the range.
fn lifted(x: u64, w: usize, up: u16) -> u16
    requires { (x < range w) × (up < range w) }
    ensures { result ≡ (x + up) % range w }
{
    if w == 2 {
        std::num::wrapping_add_u16(x as u16, up)
    } else {
        std::num::wrapping_add_u8(x as u8, up as u8) as u16
    }
}

// The 64 numbers from a place on, lifted.
pub(crate) fn lift(s: &[u8], at: usize, w: usize, up: u16, big: bool) -> [u16; 64]
    requires width { Width w }
    requires narrow_shift { (w ≤ 2) × (up < range w) }
    requires bytes_there { at + 64 * w ≤ length s.now }
    ensures { result ≡ lifts big w up 64 (drop at s.now) }
{
    let mut a = [0u16; 64];
    for i in 0..64 {
        a[i] = lifted(word(s, at + w * i, w, big), w, up);
    }
    a
}

// The sample of a lifted number.
pub(crate) fn lowered(y: u16, signed: bool, up: u16) -> i64
    ensures { result ≡ low signed up y }
{
    if signed {
        (y as i64) - (up as i64)
    } else {
        std::num::wrapping_add_u16(y, up) as i64
    }
}
