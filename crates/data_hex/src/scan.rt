// The check of digits: they are counted, 64 bytes at once. Loops over a fixed count have no branches, so that the compiler makes vector code of them.
ghost use Rattle.std.specs.Prelude.{◌≡◌, ◌+◌, ◌*◌, ◌≤◌, ◌<◌, length};
ghost use Rattle.data_hex.specs.Forms.{Passed, Reached, Scanned};
ghost use Rattle.lent_numbers.specs.Widths.{Width};

use crate::blanks;
use format::reason::Reason;

// How many of the 64 bytes from a place on are digits, or 255 where one is neither a digit nor a blank.
fn block_digits(s: &[u8], at: usize) -> u8
    requires { at + 64 ≤ length s.now }
    ensures { (result ≡ 255 → ⊥) → (result ≤ 64) × Passed s.now at result (at + 64) }
{
    let mut digits: u8 = 0;
    let mut fine = true;
    for j in 0..64 {
        let b = s[at + j];
        let d = data_hex_digits::is_digit(b);
        digits += blanks::one_if(d);
        fine = fine & (d | blanks::is_blank(b));
    }
    if fine { digits } else { 255 }
}

// A place in the data, and the digits before it.
#[derive(Clone, Copy)]
struct Reach {
    at: usize,
    digits: usize,
}

// What a scan comes to: how many digits were counted, and why no more were, where fewer than wanted.
#[derive(Clone, Copy)]
pub(crate) struct Counted {
    pub(crate) digits: usize,
    pub(crate) outcome: Result<(), Reason>,
}

// Blocks of digits and blanks, as far as they go.
fn scan_blocks(s: &[u8], need: usize) -> Reach
    ensures { Reached s.now need result.at result.digits }
{
    let mut at: usize = 0;
    let mut digits: usize = 0;
    // a step of 64 bytes, and of as many digits as are among them
    while (64 <= s.len() - at) & (64 <= need - digits) {
        let d = block_digits(s, at);
        if d == 255 {
            return Reach { at, digits };
        }
        digits += d as usize;
        at += 64;
    }
    Reach { at, digits }
}

// Whether so many digits are there: the first byte that is none of them, nor a blank, is refused, and so is the end of the data.
pub(crate) fn scan(s: &[u8], need: usize) -> Counted
    ensures { Scanned s.now need result }
{
    let Reach { mut at, mut digits } = scan_blocks(s, need);
    while digits < need {
        if s.len() <= at {
            return Counted {
                digits,
                outcome: Err(Reason::DataEndsEarly),
            };
        }
        let b = s[at];
        let d = data_hex_digits::is_digit(b);
        if !(d | blanks::is_blank(b)) {
            return Counted {
                digits,
                outcome: Err(Reason::BadSample),
            };
        }
        digits += blanks::one_if(d) as usize;
        at += 1;
    }
    Counted {
        digits,
        outcome: Ok(()),
    }
}

// How many digits n samples of w bytes have; or fewer, but more than there are bytes.
pub(crate) fn wanted(len: usize, n: usize, w: usize) -> usize
    requires width { Width w }
    requires len_below_2_63 { len < 9223372036854775808 }
    ensures { (result ≤ 2 * (n * w)) × (result < 2 * (n * w) → len < result) }
{
    if n <= len / (2 * w) {
        return 2 * (n * w);
    }
    len + 1
}
