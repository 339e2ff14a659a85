// Centrings and kinds: a word for each axis, and the number that it has in a record.
ghost use Rattle.std.specs.Prelude.{◌≡◌, ◌≤◌};
ghost use Rattle.format.specs.Limits.{max_axes};
ghost use Rattle.format.specs.Kinds.{centring_named, kind_named};
ghost use Rattle.read_text.specs.Rows.{row_answer};
ghost use Rattle.read_axes.specs.Codes.{code_named, codes_said, codes_padded, codes_answer};

// The names of the centrings.
const CENTRINGS: [u8; 17] = *b"\x03\x00???\x04\x01cell\x04\x02node";

// The names of the kinds, of up to 6 bytes, 7 to 9, 10 to 16, and more.
const KINDS_6: [u8; 75] =
    *b"\x03\x00???\x04\x00none\x06\x01domain\x05\x02space\x04\x03time\x04\x04list\x05\x05point\x06\x06vector\x06\x08normal\x04\x09stub\x06\x0ascalar";

const KINDS_9: [u8; 122] =
    *b"\x07\x0bcomplex\x08\x0c2-vector\x07\x0d3-color\x09\x0eRGB-color\x09\x0fHSV-color\x09\x10XYZ-color\x07\x114-color\x08\x133-vector\x08\x153-normal\x08\x164-vector\x09\x1a2D-matrix\x09\x1e3D-matrix";

const KINDS_16: [u8; 90] =
    *b"\x10\x07covariant-vector\x0a\x12RGBA-color\x0a\x143-gradient\x0a\x17quaternion\x10\x1b2D-masked-matrix\x10\x1f3D-masked-matrix";

const KINDS_LONG: [u8; 98] =
    *b"\x13\x182D-symmetric-matrix\x1a\x192D-masked-symmetric-matrix\x13\x1c3D-symmetric-matrix\x1a\x1d3D-masked-symmetric-matrix";

// The numbers of the words, and whether there is one for each axis; if not, all are 0.
#[derive(Clone, Copy)]
pub struct Codes {
    pub fine: bool,
    pub codes: [u32; format::AXES],
}

// The centring of a name.
fn centring_named(w: &[u8]) -> Option<u32>
    ensures { result ≡ row_answer (centring_named w.now) }
{
    read_text::words::row_among(&CENTRINGS, w)
}

// The kind of a name.
fn kind_named(w: &[u8]) -> Option<u32>
    ensures { result ≡ row_answer (kind_named w.now) }
{
    match w.len() {
        0..=6 => read_text::words::row_among(&KINDS_6, w),
        7..=9 => read_text::words::row_among(&KINDS_9, w),
        10..=16 => read_text::words::row_among(&KINDS_16, w),
        _ => read_text::words::row_among(&KINDS_LONG, w),
    }
}

// The number of a word among the kinds, or else among the centrings.
fn code_named(w: &[u8], kinds: bool) -> Option<u32>
    ensures { result ≡ row_answer (code_named kinds w.now) }
{
    if kinds {
        kind_named(w)
    } else {
        centring_named(w)
    }
}

// As many words as axes, parted by spaces and tabs, each a kind, or else each a centring: their numbers, 0 past them.
pub fn codes_in(t: &[u8], axes: usize, kinds: bool) -> Option<[u32; format::AXES]>
    requires { axes ≤ max_axes }
    ensures { result ≡ codes_padded (codes_said kinds axes t.now) }
{
    let mut at: usize = 0;
    let mut n: usize = 0;
    let mut v = [0u32; format::AXES];
    // a `while`, since it goes on by a blank or by a word
    while at < t.len() {
        let size = read_text::numbers::word_length(&t[at..]);
        if size == 0 {
            at += 1;
        } else {
            let e = at + size;
            if n == axes {
                return None;
            }
            v[n] = code_named(&t[at..e], kinds)?;
            n += 1;
            at = e;
        }
    }
    if n == axes { Some(v) } else { None }
}

// The same with a flag.
pub fn read_codes(t: &[u8], axes: usize, kinds: bool) -> Codes
    requires { axes ≤ max_axes }
    ensures { result ≡ codes_answer (codes_said kinds axes t.now) }
{
    match codes_in(t, axes, kinds) {
        Some(codes) => Codes { fine: true, codes },
        None => Codes {
            fine: false,
            codes: [0u32; format::AXES],
        },
    }
}
