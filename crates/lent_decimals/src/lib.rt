// Decimals in lent bytes, 16 bytes each: number, power and kind, the low byte first.
#![tactic(auto)]

ghost use Rattle.std.specs.Prelude.{◌≡◌, ◌+◌, ◌*◌, ◌≤◌, ◌<◌, length, take, drop};
ghost use Rattle.std.proofs.lemmas.List.Edits.{sets};
ghost use Rattle.format.specs.Samples.{to_signed, from_signed};
ghost use Rattle.format.specs.Boundary.{decimal_bytes, decimal_of, decimals_bytes, decimals_lent};

use format::Decimal;

// How many decimals a column has: as many as a space may have dimensions.
pub const COLUMN: usize = 8;

// What stands in a column before its decimals are read.
const NOUGHT: Decimal = Decimal {
    number: 0,
    power: 0,
    kind: 0,
};

// The power whose bits are x: two's complement.
fn power_of(x: u64) -> i32
    requires { x < 4294967296 }
    ensures { result ≡ to_signed 4 x }
{
    (x as u32).cast_signed()
}

// The bits of a power.
fn bits_of_power(z: i32) -> u64
    ensures { result ≡ from_signed 4 z }
{
    z.cast_unsigned() as u64
}

// The decimal at a place.
pub fn decimal_at(s: &[u8], at: usize) -> Decimal
    requires { at + 16 ≤ length s.now }
    ensures { result ≡ decimal_of (take 16 (drop at s.now)) }
{
    let number = lent_numbers::signed_of(lent_numbers::load::<8>(s, at));
    let power = power_of(lent_numbers::load::<4>(s, at + 8));
    let kind = lent_numbers::load::<4>(s, at + 12) as u32;
    Decimal {
        number,
        power,
        kind,
    }
}

// A decimal stored at a place.
pub fn put_decimal(d: &mut [u8], at: usize, x: Decimal)
    requires { at + 16 ≤ length d.old }
    ensures { d.new ≡ sets d.old at (decimal_bytes x) }
{
    lent_numbers::store::<8>(d, at, lent_numbers::bits_of(x.number));
    lent_numbers::store::<4>(d, at + 8, bits_of_power(x.power));
    lent_numbers::store::<4>(d, at + 12, x.kind as u64);
}

// The column at a place: eight decimals, one after the other.
pub fn column_at(s: &[u8], at: usize) -> [Decimal; COLUMN]
    requires { at + 128 ≤ length s.now }
    ensures { result ≡ decimals_lent (take 128 (drop at s.now)) }
{
    let mut v = [NOUGHT; COLUMN];
    for i in 0..COLUMN {
        v[i] = decimal_at(s, at + 16 * i);
    }
    v
}

// The first n decimals of a column, stored one after the other from a place on.
pub fn put_column(d: &mut [u8], at: usize, v: [Decimal; COLUMN], n: usize)
    requires { (n ≤ 8) × (at + 16 * n ≤ length d.old) }
    ensures { d.new ≡ sets d.old at (decimals_bytes (take n v)) }
{
    for i in 0..n {
        put_decimal(d, at + 16 * i, v[i]);
    }
}
