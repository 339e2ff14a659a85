// Raw samples: checked, and decoded into a lent list or lent bytes.
#![tactic(auto)]

ghost use Rattle.std.specs.Prelude.{◌≡◌, ◌*◌, ◌≤◌, false, ◌&&◌, nat_le, length, if◌then◌else◌};
ghost use Rattle.format.specs.Bytes.{over};
ghost use Rattle.format.specs.Descriptors.{unsigned};
ghost use Rattle.format.specs.Limits.{max_sample};
ghost use Rattle.format.specs.Reasons.{refusal_number};
ghost use Rattle.format.specs.Samples.{raw_samples};
ghost use Rattle.lent_numbers.specs.Widths.{Width, kind_by, endian_by, enough};

use format::reason::Reason;
use lent_numbers::cell::Cell;

mod cells;
mod number;

// 1 for a number above the largest sample, or 0.
fn is_above(x: u64) -> u64
    ensures { result ≡ (if nat_le x max_sample then 0 else 1) }
{
    x / 9223372036854775808
}

// The refusal of unsigned samples of 8 bytes. All are counted, with no early exit: the compiler makes a vector loop of it.
fn check_words(s: &[u8], n: usize, big: bool) -> Result<(), Reason>
    requires { n * 8 ≤ length s.now }
    ensures { refusal_number result ≡ (raw_samples unsigned 8 (endian_by big) n s.now).number }
{
    let mut count: u64 = 0;
    for k in 0..n {
        count += is_above(number::word(s, k * 8, 8, big));
    }
    if count == 0 {
        Ok(())
    } else {
        Err(Reason::BadSample)
    }
}

// Whether n samples of w bytes are samples: refused where one is above the largest. Nothing is refused where s does not hold n samples, or w is no width.
pub fn check(s: &[u8], n: usize, w: usize, signed: bool, big: bool) -> Result<(), Reason>
    ensures { refusal_number result ≡ (if enough w n (length s.now) then (raw_samples (kind_by signed) w (endian_by big) n s.now).number else 0) }
{
    if signed || w != 8 || s.len() / 8 < n {
        return Ok(());
    }
    check_words(s, n, big)
}

// The samples to the front of dst, where none is refused. dst stays as it was where it is too short, s does not hold n samples, or w is no width.
pub fn fill<C: Cell>(s: &[u8], n: usize, w: usize, signed: bool, big: bool, dst: &mut [C])
    ensures kept { (enough w n (length s.now) && nat_le n (C.room (length dst.old))) ≡ false → dst.new ≡ dst.old }
    ensures fills { Width w → n * w ≤ length s.now → n ≤ C.room (length dst.old) → (raw_samples (kind_by signed) w (endian_by big) n s.now).number ≡ 0 → dst.new ≡ over (C.store (raw_samples (kind_by signed) w (endian_by big) n s.now).seen) dst.old }
{
    if C::room(dst) < n || !lent_numbers::is_width(w) || s.len() / w < n {
        return;
    }
    cells::put_all(s, n, w, signed, big, dst);
}
