// A pattern: a word with one `%`, which a number takes the place of.
ghost use Rattle.std.specs.Prelude.{◌≡◌};
ghost use Rattle.read_files.specs.Parts.{is_rest};
ghost use Rattle.read_files.specs.Files.{WidthIs, ConversionIs, PatternIs};

use crate::bytes;

// A width, 0 where it is left out, and how many digits it has.
#[derive(Clone, Copy)]
struct Width {
    value: u32,
    length: usize,
}

// The width at the front of s; the flag: a zero stands before it, so that it may not be left out.
fn read_width(s: &[u8], zeros: bool) -> Option<Width>
    ensures { WidthIs zeros s.now result }
{
    let digits = read_decimals::parts::read_digits(s, 0);
    let length = digits.count;
    let n = digits.number;
    if length == 0 {
        return if zeros {
            None
        } else {
            Some(Width { value: 0, length })
        };
    }
    if (s[0] != b'0') & (1 <= n) & (n <= format::MAX_WIDTH) {
        return Some(Width {
            value: n as u32,
            length,
        });
    }
    None
}

// What stands after a `%`: how a number is padded, and how many bytes belong to it, up to and with the `d`.
#[derive(Clone, Copy)]
struct Conversion {
    zeros: bool,
    width: u32,
    length: usize,
}

// Whether s may follow the width: `d`, and a rest without a `%`.
fn is_rest(s: &[u8]) -> bool
    ensures { result ≡ is_rest s.now }
{
    bytes::begins(s, b'd') && !bytes::has_percent(&s[1..])
}

// The bytes s after a `%`: `d`, `Nd` or `0Nd`, and the rest.
fn read_conversion(s: &[u8]) -> Option<Conversion>
    ensures { ConversionIs s.now result }
{
    let zeros = bytes::begins(s, b'0');
    let from = zeros as usize;
    let width = read_width(&s[from..], zeros)?;
    let end = from + width.length;
    if !is_rest(&s[end..]) {
        return None;
    }
    Some(Conversion {
        zeros,
        width: width.value,
        length: end + 1,
    })
}

// Where the `%` of a pattern stands; how a number is padded; where the rest starts.
#[derive(Clone, Copy)]
pub struct Pattern {
    pub percent: usize,
    pub zeros: bool,
    pub width: u32,
    pub after: usize,
}

// The word w as a pattern.
pub fn read_pattern(w: &[u8]) -> Option<Pattern>
    ensures { PatternIs w.now result }
{
    let percent = read_text::bytes::find_byte(w, b'%');
    if percent == w.len() {
        return None;
    }
    let from = percent + 1;
    let c = read_conversion(&w[from..])?;
    Some(Pattern {
        percent,
        zeros: c.zeros,
        width: c.width,
        after: from + c.length,
    })
}
