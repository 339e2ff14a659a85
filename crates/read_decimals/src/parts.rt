// The parts of a component's text: a sign, digits, a fraction, an exponent. Each function reads what stands at the front.
ghost use Rattle.std.specs.Prelude.{◌≡◌, true, ◌*◌, ◌+◌, ◌-◌, ◌≤◌, min};
ghost use Rattle.format.specs.Bytes.{is_digit};
ghost use Rattle.format.specs.Words.{number};
ghost use Rattle.format.specs.Decimals.{past_number, is_minus, after_sign, signed_size, exponent_of};
ghost use Rattle.read_decimals.specs.Parts.{SignRead, digits_answer, FractionRead, exponent_answer};

// The least number of nineteen digits. Larger ones are cut to it: none of them may be used, and no run of digits overflows.
pub const PAST_NUMBER: u64 = 1000000000000000000;

// Whether there is a minus, and how many bytes the sign takes: 0 or 1.
#[derive(Clone, Copy)]
pub struct Sign {
    pub minus: bool,
    pub length: usize,
}

// The sign at the front of t.
pub fn read_sign(t: &[u8]) -> Sign
    ensures { SignRead t.now result }
{
    match t.first() {
        Some(b'-') => Sign {
            minus: true,
            length: 1,
        },
        Some(b'+') => Sign {
            minus: false,
            length: 1,
        },
        _ => Sign {
            minus: false,
            length: 0,
        },
    }
}

// Digits: the number that they write, cut to `PAST_NUMBER`, and how many they are.
#[derive(Clone, Copy)]
pub struct Digits {
    pub number: u64,
    pub count: usize,
}

// The number m with one digit more.
fn with_digit(m: u64, b: u8) -> u64
    requires { is_digit b ≡ true }
    ensures { result ≡ min (m * 10 + (b - 48)) past_number }
{
    if m < PAST_NUMBER / 10 {
        m * 10 + (b - b'0') as u64
    } else {
        PAST_NUMBER
    }
}

// The digits at the front of s, written after those of the number `before`.
pub fn read_digits(s: &[u8], before: u64) -> Digits
    requires { before ≤ past_number }
    ensures { result ≡ digits_answer before s.now }
{
    let mut m = before;
    for (i, b) in s.iter().enumerate() {
        if !b.is_ascii_digit() {
            return Digits {
                number: m,
                count: i,
            };
        }
        m = with_digit(m, *b);
    }
    Digits {
        number: m,
        count: s.len(),
    }
}

// The digits after a point, and how many bytes they take with it; where no point stands at the front, there are none.
#[derive(Clone, Copy)]
pub struct Fraction {
    pub number: u64,
    pub count: usize,
    pub length: usize,
}

// The fraction at the front of s, its digits written after those of the number `before`.
pub fn read_fraction(s: &[u8], before: u64) -> Fraction
    requires { before ≤ past_number }
    ensures { FractionRead before s.now result }
{
    let missing = Fraction {
        number: before,
        count: 0,
        length: 0,
    };
    if s.is_empty() {
        return missing;
    }
    if s[0] != b'.' {
        return missing;
    }
    let d = read_digits(&s[1..], before);
    let count = d.count;
    Fraction {
        number: d.number,
        count,
        length: 1 + count,
    }
}

// An exponent: its sign, and its size, cut to `PAST_NUMBER`.
#[derive(Clone, Copy)]
pub struct Exponent {
    pub minus: bool,
    pub size: u64,
}

// The exponent whose text after the `e` is s.
fn read_signed(s: &[u8]) -> Option<Exponent>
    ensures { result ≡ exponent_answer (signed_size (is_minus s.now) (number (after_sign s.now))) }
{
    let sign = read_sign(s);
    let minus = sign.minus;
    let from = sign.length;
    let t = &s[from..];
    let d = read_digits(t, 0);
    if d.count == 0 {
        return None;
    }
    if d.count != t.len() {
        return None;
    }
    Some(Exponent {
        minus,
        size: d.number,
    })
}

// What ends a numeral: nothing, or an exponent.
pub fn read_exponent(s: &[u8]) -> Option<Exponent>
    ensures { result ≡ exponent_answer (exponent_of s.now) }
{
    if s.is_empty() {
        return Some(Exponent {
            minus: false,
            size: 0,
        });
    }
    let b = s[0];
    if (b == b'e') | (b == b'E') {
        return read_signed(&s[1..]);
    }
    None
}
