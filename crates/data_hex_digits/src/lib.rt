// Hex digits, one byte at a time: told, and valued, by the three ranges `0` to `9`, `a` to `f` and `A` to `F`, without a table. Both functions are
// written so that the compiler needs no branch, and the loops over blocks can take many bytes at once.
// The contracts of `is_digit` and `value` say what the ranges give (`hex_digit`), and the same by the digits as text (`digit_named`), at every byte.
#![tactic(auto)]

ghost use Rattle.std.specs.Prelude.{◌≡◌};
ghost use Rattle.format.specs.Bytes.{bytes, is_in, is_some, or_default};
ghost use Rattle.format.specs.Samples.{hex_digit};
ghost use Rattle.format.specs.HexDigits.{digit_named};

// Whether the byte is `0` to `9`.
fn is_decimal(b: u8) -> bool
    ensures { result ≡ is_in b (bytes "0123456789") }
{
    (48 <= b) & (b <= 57)
}

// Whether the byte is `a` to `f` or `A` to `F`.
fn is_letter(b: u8) -> bool
    ensures { result ≡ is_in b (bytes "abcdefABCDEF") }
{
    ((97 <= b) & (b <= 102)) | ((65 <= b) & (b <= 70))
}

// Whether the byte is a hex digit.
pub fn is_digit(b: u8) -> bool
    ensures ranges { result ≡ is_some (hex_digit b) }
    ensures named { result ≡ is_some (digit_named b) }
{
    is_decimal(b) | is_letter(b)
}

// The value of a hex digit, or 255 where the byte is none. The low five bits of a letter of either case are its place in the alphabet, from 1.
pub fn value(b: u8) -> u8
    ensures ranges { result ≡ or_default 255 (hex_digit b) }
    ensures named { result ≡ or_default 255 (digit_named b) }
{
    if is_decimal(b) {
        return b - 48;
    }
    if is_letter(b) {
        return b % 32 + 9;
    }
    255
}
