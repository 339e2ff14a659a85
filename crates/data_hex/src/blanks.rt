// Blanks in hex data, and a test as a number. Digits are in `data_hex_digits`.
ghost use Rattle.std.specs.Prelude.{◌≡◌, ◌≤◌};
ghost use Rattle.format.specs.Samples.{blank};
ghost use Rattle.data_hex.specs.Forms.{one_if};

// Whether the byte is a blank.
pub(crate) fn is_blank(b: u8) -> bool
    ensures { result ≡ blank b }
{
    ((9 <= b) & (b <= 13)) | (b == 32)
}

// 1 where the test holds, or 0.
pub(crate) fn one_if(t: bool) -> u8
    ensures { (result ≡ one_if t) × (result ≤ 1) }
{
    if t { 1 } else { 0 }
}
