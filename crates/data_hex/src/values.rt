// The values of unsigned samples of 8 bytes: whether each is at most the largest sample.
ghost use Rattle.std.specs.Prelude.{◌≡◌, ◌*◌, ◌≤◌, ◌<◌, MatchResult, length};
ghost use Rattle.format.specs.Descriptors.{unsigned};
ghost use Rattle.format.specs.Reasons.{refusal_number};
ghost use Rattle.format.specs.Samples.{raw_samples};
ghost use Rattle.lent_numbers.specs.Widths.{endian_by};
ghost use Rattle.data_hex.specs.Forms.{Enough, Past, samples_at, top_place, has_high};

use crate::bytes;
use format::reason::Reason;

// The place of the highest byte of a sample of 8 bytes.
fn top_place(big: bool) -> usize
    ensures { (result ≡ top_place big) × (result < 8) }
{
    if big { 0 } else { 7 }
}

// Whether one of m samples of 8 bytes has its highest byte, the one at `top`, from 128 on. As an unsigned number it is then past the largest sample.
fn has_high(bytes: &[u8], m: usize, top: usize) -> bool
    requires bytes_there { 8 * m ≤ length bytes.now }
    requires top_below_8 { top < 8 }
    ensures { result ≡ has_high m top bytes.now }
{
    let mut high = false;
    for i in 0..m {
        high = high | (128 <= bytes[8 * i + top]);
    }
    high
}

// Whether m unsigned samples of 8 bytes are samples. One byte of each tells it.
fn check_bytes(bytes: &[u8], m: usize, big: bool) -> Result<(), Reason>
    requires { 8 * m ≤ length bytes.now }
    ensures { refusal_number result ≡ (raw_samples unsigned 8 (endian_by big) m bytes.now).number }
{
    if has_high(bytes, m, top_place(big)) {
        Err(Reason::BadSample)
    } else {
        Ok(())
    }
}

// The place after the digits of the next m unsigned samples of 8 bytes, where each is a sample. Their digits go to d, and what these write to bytes.
fn check_block(
    s: &[u8],
    at: usize,
    m: usize,
    big: bool,
    d: &mut [u8],
    bytes: &mut [u8],
) -> Result<usize, Reason>
    requires at_within { at ≤ length s.now }
    requires m_up_to_16 { m ≤ 16 }
    requires buffer_of_256 { length d.old ≡ 256 }
    requires block_of_128 { length bytes.old ≡ 128 }
    ensures checked { Enough s.now at (m * 8) → refusal_number result ≡ (samples_at unsigned 8 (endian_by big) m s.now at).number }
    ensures passed { MatchResult result (λ next. (next ≤ length s.now) × (Enough s.now at (m * 8) → Past s.now at (m * 8) next)) (λ _. Unit) }
{
    let next = bytes::next_bytes(s, at, m * 8, d, bytes);
    check_bytes(bytes, m, big)?;
    Ok(next)
}

// Whether n unsigned samples of 8 bytes are samples, where their digits are there.
pub(crate) fn check_values(s: &[u8], n: usize, big: bool) -> Result<(), Reason>
    ensures { Enough s.now 0 (n * 8) → refusal_number result ≡ (samples_at unsigned 8 (endian_by big) n s.now 0).number }
{
    let mut d = [0u8; 256];
    let mut bytes = [0u8; 128];
    let mut at: usize = 0;
    let mut k: usize = 0;
    // a step of up to 16 samples
    while k < n {
        let m = (n - k).min(16);
        at = check_block(s, at, m, big, &mut d, &mut bytes)?;
        k += m;
    }
    Ok(())
}
