// Hex samples: checked, and decoded into a lent list or lent bytes.
#![tactic(auto)]

ghost use Rattle.std.specs.Prelude.{◌≡◌, false, ◌&&◌, ◌≤◌, nat_le, length, if◌then◌else◌};
ghost use Rattle.format.specs.Bytes.{over};
ghost use Rattle.format.specs.Reasons.{refusal_number};
ghost use Rattle.format.specs.Samples.{hex_samples, without_blanks};
ghost use Rattle.lent_numbers.specs.Widths.{Width, is_width, kind_by, endian_by};

use format::reason::Reason;
use lent_numbers::cell::Cell;

mod blanks;
mod blocks;
mod bytes;
mod scan;
mod values;

// Whether the digits of n samples of w bytes are there, and each is a sample: what comes first in the data is told. Nothing is refused where w is no width.
pub fn check(s: &[u8], n: usize, w: usize, signed: bool, big: bool) -> Result<(), Reason>
    ensures { refusal_number result ≡ (if is_width w then (hex_samples (kind_by signed) w (endian_by big) n (without_blanks s.now)).number else 0) }
{
    if !lent_numbers::is_width(w) {
        return Ok(());
    }
    let scan = scan::scan(s, scan::wanted(s.len(), n, w));
    if !signed && w == 8 {
        values::check_values(s, scan.digits / 16, big)?;
    }
    scan.outcome
}

// The samples to the front of dst, where none is refused. dst stays as it was where it is too short or w is no width.
pub fn fill<C: Cell>(s: &[u8], n: usize, w: usize, signed: bool, big: bool, dst: &mut [C])
    ensures kept { (is_width w && nat_le n (C.room (length dst.old))) ≡ false → dst.new ≡ dst.old }
    ensures fills { Width w → n ≤ C.room (length dst.old) → (hex_samples (kind_by signed) w (endian_by big) n (without_blanks s.now)).number ≡ 0 → dst.new ≡ over (C.store (hex_samples (kind_by signed) w (endian_by big) n (without_blanks s.now)).seen) dst.old }
{
    if !lent_numbers::is_width(w) || C::room(dst) < n {
        return;
    }
    blocks::fill_blocks(s, n, w, signed, big, dst);
}
