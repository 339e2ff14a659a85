// Texts printed to a lent buffer. Each function stores what fits of its text from a place on, and returns the place after all of it, so
// that a length is told also where nothing fits.
ghost use Rattle.std.specs.Prelude.{◌∷◌, [], ◌++◌, ◌+◌, ◌≤◌, length};
ghost use Rattle.format.specs.Bytes.{LF};
ghost use Rattle.format.specs.Limits.{max_listing};
ghost use Rattle.format.specs.Writer.{decimal};
ghost use Rattle.listing_print.specs.Printed.{Printed};

// A byte.
fn put_byte(out: &mut [u8], at: usize, b: u8) -> usize
    requires { at + 1 ≤ max_listing }
    ensures { Printed 1 out.old at (b ∷ []) out.new result }
{
    if at < out.len() {
        out[at] = b;
    }
    at + 1
}

// The bytes s.
pub fn put_bytes(out: &mut [u8], at: usize, s: &[u8]) -> usize
    requires { at + length s.now ≤ max_listing }
    ensures { Printed (length s.now) out.old at s.now out.new result }
{
    let mut o = at;
    for &b in s {
        o = put_byte(out, o, b);
    }
    o
}

// The digits of a number.
pub fn put_decimal(out: &mut [u8], at: usize, n: u64) -> usize
    requires { at + 20 ≤ max_listing }
    ensures { Printed 20 out.old at (decimal n) out.new result }
{
    if n < 10 {
        return put_byte(out, at, b'0' + n as u8);
    }
    let o = put_decimal(out, at, n / 10);
    put_byte(out, o, b'0' + (n % 10) as u8)
}

// A word, a text, and LF.
pub fn put_line(out: &mut [u8], at: usize, word: &[u8], s: &[u8]) -> usize
    requires { at + (length word.now + (length s.now + 1)) ≤ max_listing }
    ensures { Printed (length word.now + (length s.now + 1)) out.old at (word.now ++ (s.now ++ LF ∷ [])) out.new result }
{
    let a = put_bytes(out, at, word);
    let e = put_bytes(out, a, s);
    put_byte(out, e, b'\n')
}

// A word, a number, and LF.
pub fn put_number(out: &mut [u8], at: usize, word: &[u8], n: u64) -> usize
    requires { at + (length word.now + 21) ≤ max_listing }
    ensures { Printed (length word.now + 21) out.old at (word.now ++ (decimal n ++ LF ∷ [])) out.new result }
{
    let a = put_bytes(out, at, word);
    let e = put_decimal(out, a, n);
    put_byte(out, e, b'\n')
}
