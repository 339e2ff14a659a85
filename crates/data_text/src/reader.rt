// Text samples: blanks are skipped and a token is read, in turn, as often as samples are wanted.
ghost use Rattle.std.specs.Prelude.{◌≡◌, true, false, ◌+◌, ◌*◌, ◌-◌, ◌^◌, ◌≤◌, ◌<◌, min, length, drop, Some, if◌then◌else◌};
ghost use Rattle.format.specs.Bytes.{is_digit};
ghost use Rattle.format.specs.Samples.{blank, skip_blanks};
ghost use Rattle.data_text.specs.Tokens.{cap, is_sign, by_sign, Skipped, digits_at, bound_token, token_at, ended_number, Walked};

use crate::bounds::Bounds;
use crate::short;
use format::reason::Reason;

// The digits up to the end of a token: their number, 2^63 + 1 where it is larger, and where the token ends.
#[derive(Clone, Copy)]
pub(crate) struct Run {
    pub number: u64,
    pub end: usize,
}

// The value of a token that is a sample, and where the token ends.
#[derive(Clone, Copy)]
pub(crate) struct Sample {
    pub value: i64,
    pub end: usize,
}

// How the reading of tokens ends. It has no fields, so that it is answered in a register: with a Result `token` and `blanks` would not be jumps.
#[derive(Clone, Copy, PartialEq, Eq)]
pub(crate) enum Ended {
    AllRead,
    NoSample,
    NoToken,
}

impl Ended {
    ghost use Rattle.std.specs.Prelude.{◌≡◌};
    ghost use Rattle.format.specs.Reasons.{refusal_number};
    ghost use Rattle.data_text.specs.Tokens.{ended_number};

    // The refusal, if there is one.
    pub(crate) fn result(self) -> Result<(), Reason>
        ensures { refusal_number result ≡ ended_number self }
    {
        match self {
            Ended::AllRead => Ok(()),
            Ended::NoSample => Err(Reason::BadSample),
            Ended::NoToken => Err(Reason::DataEndsEarly),
        }
    }
}

pub(crate) fn is_blank(b: u8) -> bool
    ensures { result ≡ blank b }
{
    matches!(b, b' ' | 9..=13)
}

pub(crate) fn is_digit(b: u8) -> bool
    ensures { result ≡ is_digit b }
{
    matches!(b, b'0'..=b'9')
}

pub(crate) fn is_sign(b: u8) -> bool
    ensures { result ≡ is_sign b }
{
    (b == b'+') | (b == b'-')
}

// One digit more, of a number that stays at 2^63 + 1 once it is there: no run of digits overflows.
fn with_digit(m: u64, b: u8) -> u64
    requires { is_digit b ≡ true }
    ensures { result ≡ min (m * 10 + (b - 48)) cap }
{
    if m < 922337203685477581 {
        m * 10 + (b - 48) as u64
    } else {
        9223372036854775809
    }
}

// Where the blanks from `at` on end. By hand: the answer is a place in the whole text, and a search in the rest of it would answer none at the end.
pub(crate) fn skip(s: &[u8], at: usize) -> usize
    requires { at ≤ length s.now }
    ensures { Skipped s.now at result }
{
    let mut i = at;
    while i < s.len() && is_blank(s[i]) {
        i += 1;
    }
    i
}

// The digits from `at` to the end of the token. By hand: the loop gives both the number and where it ends.
fn digits_at(s: &[u8], at: usize) -> Option<Run>
    requires { at ≤ length s.now }
    ensures { result ≡ digits_at s.now at }
{
    let mut m: u64 = 0;
    let mut i = at;
    while i < s.len() && is_digit(s[i]) {
        m = with_digit(m, s[i]);
        i += 1;
    }
    if i < s.len() && !is_blank(s[i]) {
        return None;
    }
    if i == at {
        None
    } else {
        Some(Run { number: m, end: i })
    }
}

// The sample of a number after a minus, or without one.
fn with_sign(minus: bool, m: u64) -> i64
    requires { (minus ≡ true → m ≤ 2 ^ 63) × (minus ≡ false → m < 2 ^ 63) }
    ensures { result ≡ by_sign minus m }
{
    if minus {
        if m == 0 { 0 } else { -1 - ((m - 1) as i64) }
    } else {
        m as i64
    }
}

// The sample of a number after a minus, or without one, if it is within its bound: no branch for its sign.
fn bounded(run: Run, minus: bool, bounds: &Bounds) -> Option<Sample>
    ensures { result ≡ bound_token (by_sign minus) (if minus then bounds.now.low else bounds.now.high) (Some run) }
{
    if run.number <= bounds.after(minus) {
        Some(Sample {
            value: with_sign(minus, run.number),
            end: run.end,
        })
    } else {
        None
    }
}

// The sample of the token at `at`, of any length.
fn long_token(s: &[u8], at: usize, bounds: &Bounds) -> Option<Sample>
    requires { at < length s.now }
    ensures { result ≡ token_at bounds.now.low bounds.now.high s.now at }
{
    let b = s[at];
    let run = digits_at(s, at + is_sign(b) as usize)?;
    bounded(run, b == b'-', bounds)
}

// The sample of the token at `at`. It has one caller, so that it is inlined there: a call that answers an Option would keep `token` from being a jump.
fn token_at(s: &[u8], at: usize, bounds: &Bounds) -> Option<Sample>
    requires { at < length s.now }
    ensures { result ≡ token_at bounds.now.low bounds.now.high s.now at }
{
    if short::has_room(s, at, bounds.high) {
        let n = short::front(s, at);
        if short::is_token(s, at, n) {
            let run = Run {
                number: short::number(s, at, n),
                end: at + n,
            };
            return bounded(run, s[at] == b'-', bounds);
        }
    }
    long_token(s, at, bounds)
}

// Reads n tokens, the first of them at *at, and passes the blanks after each.
// *at is left at the first token that was not read, and the last value in *v. Each call of `blanks` and `token` is the last thing done, so that both compile to jumps.
#[cycle(blanks_token)]
pub(crate) fn token(s: &&[u8], at: &mut usize, n: usize, bounds: &Bounds, v: &mut i64) -> Ended
    requires { at.old ≤ length s.now.now }
    ensures { Walked bounds.now.low bounds.now.high n (drop at.old s.now.now) v.old s.now.now (ended_number result) at.new v.new }
{
    if n == 0 {
        return Ended::AllRead;
    }
    let i = *at;
    if i == s.len() {
        return Ended::NoToken;
    }
    match token_at(*s, i, bounds) {
        None => Ended::NoSample,
        Some(sample) => {
            *v = sample.value;
            *at = sample.end;
            blanks(s, at, n - 1, bounds, v)
        }
    }
}

// The same from the blanks before a token on.
#[cycle(blanks_token)]
fn blanks(s: &&[u8], at: &mut usize, n: usize, bounds: &Bounds, v: &mut i64) -> Ended
    requires { at.old ≤ length s.now.now }
    ensures { Walked bounds.now.low bounds.now.high n (skip_blanks (drop at.old s.now.now)) v.old s.now.now (ended_number result) at.new v.new }
{
    let i = skip(*s, *at);
    *at = i;
    token(s, at, n, bounds, v)
}
