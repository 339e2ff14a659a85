// A pattern: a word with one `%`, which a number takes the place of.
ghost use Rattle.std.specs.Prelude.{◌≡◌};
ghost use Rattle.read_files.specs.Parts.{WidthRead, is_rest, ConversionRead, WordRead};

use crate::bytes;

// Whether a width is right, its value, 0 where it is left out or not right, and how many digits it has.
#[derive(Clone, Copy)]
struct Width {
    fine: bool,
    value: u32,
    length: usize,
}

// The width at the front of s; the flag: a zero stands before it, so that it may not be left out.
fn read_width(s: &[u8], zeros: bool) -> Width
    ensures { WidthRead zeros s.now result }
{
    let d = read_decimals::parts::read_digits(s, 0);
    let length = d.count;
    let n = d.number;
    if length == 0 {
        return Width {
            fine: !zeros,
            value: 0,
            length,
        };
    }
    if (s[0] != b'0') & (1 <= n) & (n <= format::MAX_WIDTH) {
        return Width {
            fine: true,
            value: n as u32,
            length,
        };
    }
    Width {
        fine: false,
        value: 0,
        length,
    }
}

// What stands after a `%`: whether it is right, how a number is padded, and how many bytes belong to it, up to and with the `d`.
#[derive(Clone, Copy)]
struct Conversion {
    fine: bool,
    zeros: bool,
    width: u32,
    length: usize,
}

const NO_CONVERSION: Conversion = Conversion {
    fine: false,
    zeros: false,
    width: 0,
    length: 0,
};

// Whether s may follow the width: `d`, and a rest without a `%`.
fn is_rest(s: &[u8]) -> bool
    ensures { result ≡ is_rest s.now }
{
    if !bytes::begins(s, b'd') {
        return false;
    }
    !bytes::has_percent(&s[1..])
}

// The bytes s after a `%`: `d`, `Nd` or `0Nd`, and the rest.
fn read_conversion(s: &[u8]) -> Conversion
    ensures { ConversionRead s.now result }
{
    let zeros = bytes::begins(s, b'0');
    let from = zeros as usize;
    let w = read_width(&s[from..], zeros);
    let end = from + w.length;
    if w.fine & is_rest(&s[end..]) {
        return Conversion {
            fine: true,
            zeros,
            width: w.value,
            length: end + 1,
        };
    }
    NO_CONVERSION
}

// Whether a word is a pattern; where its `%` stands; how a number is padded; where the rest starts.
#[derive(Clone, Copy)]
pub struct Pattern {
    pub fine: bool,
    pub percent: usize,
    pub zeros: bool,
    pub width: u32,
    pub after: usize,
}

// The word w as a pattern.
pub fn read_pattern(w: &[u8]) -> Pattern
    ensures { WordRead w.now result }
{
    let percent = read_text::bytes::find_byte(w, b'%');
    if percent == w.len() {
        return Pattern {
            fine: false,
            percent: 0,
            zeros: false,
            width: 0,
            after: 0,
        };
    }
    let from = percent + 1;
    let c = read_conversion(&w[from..]);
    Pattern {
        fine: c.fine,
        percent,
        zeros: c.zeros,
        width: c.width,
        after: from + c.length,
    }
}
