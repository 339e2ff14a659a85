// Samples as text, from their bits.
ghost use Rattle.std.specs.Prelude.{◌≡◌, ◌+◌, ◌≤◌, length};
ghost use Rattle.std.proofs.lemmas.List.Edits.{sets};
ghost use Rattle.format.specs.Samples.{to_signed};
ghost use Rattle.format.specs.Writer.{signed_decimal};
ghost use Rattle.write_parts.specs.Stored.{sign_length, absolute, text_line};

use crate::decimals;

// How many bytes the sign of a sample takes as text: x is the sample's bits, here and below.
fn sign_length(x: u64) -> usize
    ensures { result ≡ sign_length x }
{
    (x.cast_signed() < 0) as usize
}

// A sample without its sign.
fn absolute(x: u64) -> u64
    ensures { result ≡ absolute x }
{
    x.cast_signed().unsigned_abs()
}

// How many bytes a sample takes as text.
pub fn signed_length(x: u64) -> usize
    ensures { (result ≡ length (signed_decimal (to_signed 8 x))) × (result ≤ 21) }
{
    sign_length(x) + decimals::decimal_length(absolute(x))
}

// A sample as text. Where it has no sign, its first digit takes the place of the `-`.
fn put_signed(out: &mut [u8], at: usize, x: u64) -> usize
    requires { at + length (signed_decimal (to_signed 8 x)) ≤ length out.old }
    ensures place { result ≡ at + length (signed_decimal (to_signed 8 x)) }
    ensures stored { out.new ≡ sets out.old at (signed_decimal (to_signed 8 x)) }
{
    out[at] = b'-';
    decimals::put_decimal(out, at + sign_length(x), absolute(x))
}

// A sample on a line.
pub fn put_text_line(out: &mut [u8], at: usize, x: u64) -> usize
    requires { at + length (text_line (to_signed 8 x)) ≤ length out.old }
    ensures place { result ≡ at + length (text_line (to_signed 8 x)) }
    ensures stored { out.new ≡ sets out.old at (text_line (to_signed 8 x)) }
{
    let end = put_signed(out, at, x);
    out[end] = b'\n';
    end + 1
}
