// Bytes, the bytes of a sample, and bytes in hex.
ghost use Rattle.std.specs.Prelude.{◌≡◌, ◌+◌, ◌*◌, ◌≤◌, ◌<◌, length};
ghost use Rattle.std.proofs.lemmas.List.Edits.{sets};
ghost use Rattle.format.specs.Samples.{to_bytes, ordered};
ghost use Rattle.format.specs.Writer.{hex_letter, hex_text};

use format::wide;

// The bytes s.
pub fn put_bytes(out: &mut [u8], at: usize, s: &[u8]) -> usize
    requires { at + length s.now ≤ length out.old }
    ensures place { result ≡ at + length s.now }
    ensures stored { out.new ≡ sets out.old at s.now }
{
    let end = at + s.len();
    out[at..end].copy_from_slice(s);
    end
}

// The low w bytes of x: those past its 8 are 0. Where w is a constant, the compiler leaves out what it does not need.
pub fn put_word(out: &mut [u8], at: usize, x: u64, w: usize, endian: u64) -> usize
    requires { at + w ≤ length out.old }
    ensures place { result ≡ at + w }
    ensures stored { out.new ≡ sets out.old at (ordered endian (to_bytes w x)) }
{
    let n = w.min(8);
    let end = at + w;
    if endian == wide::BIG {
        let from = end - n;
        out[at..from].fill(0);
        put_bytes(out, from, &x.to_be_bytes()[8 - n..])
    } else {
        let to = put_bytes(out, at, &x.to_le_bytes()[..n]);
        out[to..end].fill(0);
        end
    }
}

// A hex digit, lower case. There is no branch, so that the compiler makes many digits at once.
fn hex_letter(n: u8) -> u8
    requires { n < 16 }
    ensures { result ≡ hex_letter n }
{
    48 + n + 39 * ((n + 6) / 16)
}

// The bytes s in hex.
pub fn put_hex_bytes(out: &mut [u8], at: usize, s: &[u8]) -> usize
    requires { at + 2 * length s.now ≤ length out.old }
    ensures place { result ≡ at + 2 * length s.now }
    ensures stored { out.new ≡ sets out.old at (hex_text s.now) }
{
    for i in 0..s.len() {
        let b = s[i];
        let o = at + 2 * i;
        out[o] = hex_letter(b / 16);
        out[o + 1] = hex_letter(b % 16);
    }
    at + 2 * s.len()
}
