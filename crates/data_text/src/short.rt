// Tokens of few digits, read with no branch for a digit: how many there are is what a processor cannot predict.
ghost use Rattle.std.specs.Prelude.{◌≡◌, true, ◌+◌, ◌*◌, ◌-◌, ◌^◌, ◌≤◌, ◌<◌, length, slice_index, if◌then◌else◌};
ghost use mir.Val.{bool_byte};
ghost use Rattle.format.specs.Bytes.{is_digit};
ghost use Rattle.format.specs.Samples.{blank};
ghost use Rattle.data_text.specs.Tokens.{is_sign, Front, ShortNumber};

use crate::reader;

// Whether to try: no sample of the type has more than 5 digits, and 6 bytes are there.
pub(crate) fn has_room(s: &[u8], at: usize, high: u64) -> bool
    requires { at ≤ length s.now }
    ensures { result ≡ true → at + 6 ≤ length s.now }
{
    (high < 65536) & (6 <= s.len() - at)
}

// How many of the 5 bytes from `at` on are a sign or a digit, and then digits.
pub(crate) fn front(s: &[u8], at: usize) -> usize
    requires { at + 5 ≤ length s.now }
    ensures { Front s.now at result }
{
    let b = s[at];
    let mut more = reader::is_sign(b) | reader::is_digit(b);
    let mut n = more as usize;
    for j in 1..5 {
        more = more & reader::is_digit(s[at + j]);
        n += more as usize;
    }
    n
}

// Whether these n bytes are a token of digits: one at least is a digit, and a blank follows.
pub(crate) fn is_token(s: &[u8], at: usize, n: usize) -> bool
    requires { at + n < length s.now }
    ensures { result ≡ true → (bool_byte (is_sign (slice_index s.now at)) < n) × (blank (slice_index s.now (at + n)) ≡ true) }
{
    ((reader::is_sign(s[at]) as usize) < n) & reader::is_blank(s[at + n])
}

// One digit more, where there is one.
fn with_digit(m: u64, b: u8, more: bool) -> u64
    requires { (m < 10 ^ 5) × (more ≡ true → is_digit b ≡ true) }
    ensures { result ≡ (if more then m * 10 + (b - 48) else m) }
{
    if more { m * 10 + (b as u64) - 48 } else { m }
}

// The number of the digits among the n bytes from `at` on.
pub(crate) fn number(s: &[u8], at: usize, n: usize) -> u64
    requires { (at + 5 ≤ length s.now) × (Front s.now at n × (bool_byte (is_sign (slice_index s.now at)) < n)) }
    ensures { ShortNumber s.now at n result }
{
    let b = s[at];
    let mut m = with_digit(0, b, reader::is_digit(b));
    for j in 1..5 {
        m = with_digit(m, s[at + j], j < n);
    }
    m
}
