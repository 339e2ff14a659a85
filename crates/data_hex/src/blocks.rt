// Hex samples into cells, block by block: the bytes that the digits write, and these as raw samples.
ghost use Rattle.std.specs.Prelude.{◌≡◌, ◌*◌, ◌≤◌, length};
ghost use Rattle.format.specs.Bytes.{over};
ghost use Rattle.format.specs.Samples.{hex_samples, without_blanks};
ghost use Rattle.lent_numbers.specs.Widths.{Width, kind_by, endian_by};

use crate::bytes;
use lent_numbers::cell::Cell;

// The samples to the front of dst, block by block.
pub(crate) fn fill_blocks<C: Cell>(
    s: &[u8],
    n: usize,
    w: usize,
    signed: bool,
    big: bool,
    dst: &mut [C],
)
    requires width { Width w }
    requires room { C.place n ≤ length dst.old }
    ensures { (hex_samples (kind_by signed) w (endian_by big) n (without_blanks s.now)).number ≡ 0 → dst.new ≡ over (C.store (hex_samples (kind_by signed) w (endian_by big) n (without_blanks s.now)).seen) dst.old }
{
    let most = 128 / w;
    let mut d = [0u8; 256];
    let mut bytes = [0u8; 128];
    let mut at: usize = 0;
    let mut k: usize = 0;
    // a step of as many samples as a block holds
    while k < n {
        let m = most.min(n - k);
        let from = C::place(dst, k);
        at = bytes::next_bytes(s, at, m * w, &mut d, &mut bytes);
        data_raw::fill(&bytes, m, w, signed, big, &mut dst[from..]);
        k += m;
    }
}
