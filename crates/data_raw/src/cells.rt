// Raw samples into cells: a list, or lent bytes.
ghost use Rattle.std.specs.Prelude.{◌≡◌, ◌+◌, ◌*◌, ◌≤◌, true, false, ◌&&◌, length, ◌≢◌, nat_le};
ghost use Rattle.std.proofs.lemmas.List.Edits.{sets};
ghost use Rattle.format.specs.Bytes.{over};
ghost use Rattle.format.specs.Samples.{raw_samples};
ghost use Rattle.data_raw.specs.Bits.{Shifts, lows};
ghost use Rattle.lent_numbers.specs.Widths.{Width, kind_by, endian_by, enough};

use crate::number;
use lent_numbers::cell::Cell;

// The samples to the front of dst, with no place tested.
fn put<C: Cell>(s: &[u8], n: usize, w: usize, signed: bool, big: bool, dst: &mut [C])
    requires width { Width w }
    requires bytes_there { n * w ≤ length s.now }
    requires room { C.place n ≤ length dst.old }
    ensures { (raw_samples (kind_by signed) w (endian_by big) n s.now).number ≡ 0 → dst.new ≡ over (C.store (raw_samples (kind_by signed) w (endian_by big) n s.now).seen) dst.old }
{
    for k in 0..n {
        C::put(dst, k, number::sample_at(s, k * w, w, signed, big));
    }
}

// The samples of 64 lifted numbers, from place k on.
fn put_lifted<C: Cell>(a: [u16; 64], signed: bool, up: u16, dst: &mut [C], k: usize)
    requires { C.place (k + 64) ≤ length dst.old }
    ensures { dst.new ≡ sets dst.old (C.place k) (C.store (lows signed up a)) }
{
    let _room = dst.len();
    for j in 0..64 {
        C::put(dst, k + j, number::lowered(a[j], signed, up));
    }
}

// Samples of 1 or 2 bytes, by blocks of 64. The last block ends with the last sample and may overlap the one before it, so that no samples are left over.
fn put_narrow<C: Cell>(s: &[u8], n: usize, w: usize, signed: bool, big: bool, dst: &mut [C])
    requires width { Width w }
    requires narrow { w ≤ 2 }
    requires bytes_there { n * w ≤ length s.now }
    requires room { C.place n ≤ length dst.old }
    ensures { (raw_samples (kind_by signed) w (endian_by big) n s.now).number ≡ 0 → dst.new ≡ over (C.store (raw_samples (kind_by signed) w (endian_by big) n s.now).seen) dst.old }
{
    if n < 64 {
        return put(s, n, w, signed, big, dst);
    }
    let up = number::shift(w, signed, big);
    let last = n - 64;
    let mut k: usize = 0;
    // a step of up to 64 samples
    loop {
        put_lifted(number::lift(s, k * w, w, up, big), signed, up, dst, k);
        if k == last {
            return;
        }
        k = (k + 64).min(last);
    }
}

// The same by the sign. The callers give literals for width and endian, and so does this one for the sign: the compiler makes a loop of its own of each.
fn put_by_sign<C: Cell>(s: &[u8], n: usize, w: usize, signed: bool, big: bool, dst: &mut [C])
    requires width { Width w }
    requires narrow { w ≤ 2 }
    requires bytes_there { n * w ≤ length s.now }
    requires room { C.place n ≤ length dst.old }
    ensures { (raw_samples (kind_by signed) w (endian_by big) n s.now).number ≡ 0 → dst.new ≡ over (C.store (raw_samples (kind_by signed) w (endian_by big) n s.now).seen) dst.old }
{
    if signed {
        put_narrow(s, n, w, true, big, dst)
    } else {
        put_narrow(s, n, w, false, big, dst)
    }
}

// Samples of more than a byte, with a literal for each width. The endian is a parameter of the type, so that no loop tests it.
fn put_wide<const BIG: bool, C: Cell>(s: &[u8], n: usize, w: usize, signed: bool, dst: &mut [C])
    requires width { Width w }
    requires not_one_byte { w ≢ 1 }
    requires bytes_there { n * w ≤ length s.now }
    requires room { C.place n ≤ length dst.old }
    ensures { (raw_samples (kind_by signed) w (endian_by BIG) n s.now).number ≡ 0 → dst.new ≡ over (C.store (raw_samples (kind_by signed) w (endian_by BIG) n s.now).seen) dst.old }
{
    match w {
        8 => put(s, n, 8, signed, BIG, dst),
        4 => put(s, n, 4, signed, BIG, dst),
        _ => put_by_sign(s, n, 2, signed, BIG, dst),
    }
}

// The samples to the front of dst, by the endian; a byte has none.
pub(crate) fn put_all<C: Cell>(s: &[u8], n: usize, w: usize, signed: bool, big: bool, dst: &mut [C])
    requires width { Width w }
    requires bytes_there { n * w ≤ length s.now }
    requires room { C.place n ≤ length dst.old }
    ensures { (raw_samples (kind_by signed) w (endian_by big) n s.now).number ≡ 0 → dst.new ≡ over (C.store (raw_samples (kind_by signed) w (endian_by big) n s.now).seen) dst.old }
{
    if w == 1 {
        put_by_sign(s, n, 1, signed, big, dst)
    } else if big {
        put_wide::<true, C>(s, n, w, signed, dst)
    } else {
        put_wide::<false, C>(s, n, w, signed, dst)
    }
}
