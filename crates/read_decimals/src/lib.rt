// Exact decimals: the value that the text of a component says.
#![tactic(auto)]

ghost use Rattle.std.specs.Prelude.{◌≡◌, ◌+◌, ◌≤◌, ◌<◌, ◌^◌, length, if◌then◌else◌};
ghost use Rattle.format.specs.Limits.{max_header};
ghost use Rattle.format.specs.Decimals.{past_number, max_power, inf, minus_inf, marked, signed_of, point_folded, numeral_of, numeral_value, unsigned_value, component};
ghost use Rattle.read_decimals.specs.Components.{component_told, power_of, valued_number};

use crate::parts::Exponent;
use format::Decimal;

pub mod parts;

// The limits and kinds of decimals.
const MAX_POWER: u64 = 400;

const NUMERIC: u32 = 0;

const NAN: u32 = 1;

const INF: u32 = 2;

const MINUS_INF: u32 = 3;

const NOUGHT: Decimal = Decimal {
    number: 0,
    power: 0,
    kind: NUMERIC,
};

// The power of ten: an exponent, less the digits after the point that are folded into it.
fn power_of(e: Exponent, folded: u64) -> Exponent
    requires { e.size + folded < 2 ^ 64 }
    ensures { result ≡ power_of (point_folded (e.minus, e.size) folded) }
{
    let minus = e.minus;
    let size = e.size;
    if minus {
        Exponent {
            minus: true,
            size: size + folded,
        }
    } else if size < folded {
        Exponent {
            minus: true,
            size: folded - size,
        }
    } else {
        Exponent {
            minus: false,
            size: size - folded,
        }
    }
}

// A number of the size n.
fn signed_64(minus: bool, n: u64) -> i64
    requires { n < past_number }
    ensures { result ≡ signed_of minus n }
{
    if minus { 0 - (n as i64) } else { n as i64 }
}

// The same in 32 bits: not one generic function, since neither width has a conversion to the other that is known to fit.
fn signed_32(minus: bool, n: u64) -> i32
    requires { n ≤ max_power }
    ensures { result ≡ signed_of minus n }
{
    if minus { 0 - (n as i32) } else { n as i32 }
}

// The number n with a sign, times ten to a power.
fn valued(minus: bool, n: u64, p: Exponent) -> Option<Decimal>
    ensures { result ≡ component_told (valued_number minus n (p.minus, p.size)) }
{
    let below = p.minus;
    let size = p.size;
    if (n < parts::PAST_NUMBER) & (size <= MAX_POWER) {
        let number = signed_64(minus, n);
        let power = signed_32(below, size);
        return Some(Decimal {
            number,
            power,
            kind: NUMERIC,
        });
    }
    None
}

// The numeral that is the whole text t.
fn read_numeral(t: &[u8], minus: bool) -> Option<Decimal>
    requires { length t.now ≤ max_header }
    ensures { result ≡ component_told (numeral_value minus (numeral_of t.now)) }
{
    let whole = parts::read_digits(t, 0);
    let count = whole.count;
    let rest = &t[count..];
    let fraction = parts::read_fraction(rest, whole.number);
    let places = fraction.count;
    let end = fraction.length;
    if count + places == 0 {
        return None;
    }
    let exponent = parts::read_exponent(&rest[end..])?;
    let folded = places as u64;
    let power = power_of(exponent, folded);
    valued(minus, fraction.number, power)
}

// What is no number.
fn marked(kind: u32) -> Decimal
    ensures { result ≡ marked kind }
{
    Decimal { kind, ..NOUGHT }
}

// One of the two infinities.
fn infinity(minus: bool) -> Decimal
    ensures { result ≡ marked (if minus then minus_inf else inf) }
{
    marked(if minus { MINUS_INF } else { INF })
}

// The component whose text after the sign is t.
fn read_unsigned(t: &[u8], minus: bool) -> Option<Decimal>
    requires { length t.now ≤ max_header }
    ensures { result ≡ component_told (unsigned_value minus t.now) }
{
    if read_text::words::is_alike(t, b"nan") {
        Some(marked(NAN))
    } else if read_text::words::is_alike(t, b"inf") {
        Some(infinity(minus))
    } else if read_text::words::is_alike(t, b"infinity") {
        Some(infinity(minus))
    } else {
        read_numeral(t, minus)
    }
}

// The component that is the whole text t. No line of a header is longer than what is asked.
pub fn read_component(t: &[u8]) -> Option<Decimal>
    requires { length t.now ≤ max_header }
    ensures { result ≡ component_told (component t.now) }
{
    let sign = parts::read_sign(t);
    let from = sign.length;
    read_unsigned(&t[from..], sign.minus)
}
