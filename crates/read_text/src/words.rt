// The rows that names stand in, ignoring case.
ghost use Rattle.std.specs.Prelude.{◌≡◌, List, ◌==◌};
ghost use Rattle.format.specs.Bytes.{small, alike};
ghost use Rattle.format.specs.Fields.{field_named};
ghost use Rattle.format.specs.Descriptors.{type_named, encoding_named, endian_named};
ghost use Rattle.format.specs.Spaces.{space_named};
ghost use Rattle.read_text.specs.Rows.{Name, packed, row_among, row_answer};

// A table holds for each name its length, the number of its row, and its bytes as the definitions spell them.
// A function that names a table builds it on the stack at each call: small tables, by the lengths of the names, cost the least.

// The names of the fields in both spellings, of up to 6 bytes, 7 to 8, 9 to 10, and more.
const FIELDS_6: [u8; 84] =
    *b"\x04\x01type\x06\x03endian\x05\x04sizes\x03\x0amin\x03\x0bmax\x06\x0coldmin\x06\x0doldmax\x06\x0enumber\x05\x10space\x06\x1blabels\x05\x1cunits\x05\x1dkinds";

const FIELDS_8: [u8; 106] =
    *b"\x08\x02encoding\x08\x05lineskip\x08\x06byteskip\x08\x07datafile\x07\x09content\x07\x0cold min\x07\x0dold max\x08\x16spacings\x08\x18axismins\x08\x19axismaxs\x07\x1acenters";

const FIELDS_10: [u8; 101] =
    *b"\x09\x00dimension\x09\x05line skip\x09\x06byte skip\x09\x07data file\x0a\x08block size\x09\x08blocksize\x09\x18axis mins\x09\x19axis maxs\x0a\x1acenterings";

const FIELDS_LONG: [u8; 121] =
    *b"\x0c\x0fsample units\x0b\x0fsampleunits\x0f\x11space dimension\x0b\x12space units\x0c\x13space origin\x10\x14space directions\x11\x15measurement frame\x0b\x17thicknesses";

// The names of the types, of up to 5 bytes, 6 to 8, 9 to 12, and more.
const TYPES_5: [u8; 66] =
    *b"\x04\x00int8\x05\x01uchar\x05\x01uint8\x05\x02short\x05\x02int16\x03\x04int\x05\x04int32\x04\x05uint\x05\x06int64\x05\x08float";

const TYPES_8: [u8; 124] =
    *b"\x06\x00int8_t\x07\x01uint8_t\x07\x02int16_t\x06\x03ushort\x06\x03uint16\x08\x03uint16_t\x07\x04int32_t\x06\x05uint32\x08\x05uint32_t\x08\x06longlong\x07\x06int64_t\x06\x07uint64\x08\x07uint64_t\x06\x09double";

const TYPES_12: [u8; 86] =
    *b"\x0b\x00signed char\x09\x02short int\x0c\x02signed short\x0a\x04signed int\x0c\x05unsigned int\x09\x06long long\x09\x07ulonglong";

const TYPES_LONG: [u8; 168] =
    *b"\x0d\x01unsigned char\x10\x02signed short int\x0e\x03unsigned short\x12\x03unsigned short int\x0d\x06long long int\x10\x06signed long long\x14\x06signed long long int\x12\x07unsigned long long\x16\x07unsigned long long int";

// The names of the spaces, of up to 4 bytes, 5 to 20, 21 to 23, and more.
const SPACES_4: [u8; 33] =
    *b"\x03\x00RAS\x03\x01LAS\x03\x02LPS\x04\x03RAST\x04\x04LAST\x04\x05LPST";

const SPACES_20: [u8; 107] =
    *b"\x0b\x06scanner-xyz\x10\x07scanner-xyz-time\x0f\x083D-right-handed\x0e\x093D-left-handed\x14\x0a3D-right-handed-time\x13\x0b3D-left-handed-time";

const SPACES_23: [u8; 74] =
    *b"\x17\x00right-anterior-superior\x16\x01left-anterior-superior\x17\x02left-posterior-superior";

const SPACES_LONG: [u8; 89] =
    *b"\x1c\x03right-anterior-superior-time\x1b\x04left-anterior-superior-time\x1c\x05left-posterior-superior-time";

// The names of the encodings.
const ENCODINGS: [u8; 28] = *b"\x03\x00raw\x03\x01txt\x04\x01text\x05\x01ascii\x03\x02hex";

// The names of the endians.
const ENDIANS: [u8; 13] = *b"\x06\x00little\x03\x01big";

// A byte as a small letter, where it is a letter.
pub fn lower(b: u8) -> u8
    ensures { result ≡ small b }
{
    b.to_ascii_lowercase()
}

// Whether two bytes are the same but for the case of a letter. Mostly they are the same, which one test tells.
fn is_alike_byte(a: u8, b: u8) -> bool
    ensures { result ≡ (small a == small b) }
{
    a == b || lower(a) == lower(b)
}

// Whether a and b are the same but for the case of letters.
pub fn is_alike(a: &[u8], b: &[u8]) -> bool
    ensures { result ≡ alike a.now b.now }
{
    a.len() == b.len() && a.iter().zip(b).all(|(x, y)| is_alike_byte(*x, *y))
}

// The row of the name that s is, in a table of names.
pub fn row_among(names: &[u8], s: &[u8]) -> Option<u32>
    requires { (ns : List Name) × (names.now ≡ packed ns) }
    ensures { (ns : List Name) → names.now ≡ packed ns → result ≡ row_answer (row_among s.now ns) }
{
    let mut at: usize = 0;
    // a `while`, since it goes on by the length that it reads
    while at < names.len() {
        let from = at + 2;
        let to = from + names[at] as usize;
        if is_alike(s, &names[from..to]) {
            return Some(names[at + 1] as u32);
        }
        at = to;
    }
    None
}

// The field of a name.
pub fn field_named(s: &[u8]) -> Option<u32>
    ensures { result ≡ row_answer (field_named s.now) }
{
    match s.len() {
        0..=6 => row_among(&FIELDS_6, s),
        7..=8 => row_among(&FIELDS_8, s),
        9..=10 => row_among(&FIELDS_10, s),
        _ => row_among(&FIELDS_LONG, s),
    }
}

// The type of a name.
pub fn type_named(s: &[u8]) -> Option<u32>
    ensures { result ≡ row_answer (type_named s.now) }
{
    match s.len() {
        0..=5 => row_among(&TYPES_5, s),
        6..=8 => row_among(&TYPES_8, s),
        9..=12 => row_among(&TYPES_12, s),
        _ => row_among(&TYPES_LONG, s),
    }
}

// The space of a name.
pub fn space_named(s: &[u8]) -> Option<u32>
    ensures { result ≡ row_answer (space_named s.now) }
{
    match s.len() {
        0..=4 => row_among(&SPACES_4, s),
        5..=20 => row_among(&SPACES_20, s),
        21..=23 => row_among(&SPACES_23, s),
        _ => row_among(&SPACES_LONG, s),
    }
}

// The encoding of a name.
pub fn encoding_named(s: &[u8]) -> Option<u32>
    ensures { result ≡ row_answer (encoding_named s.now) }
{
    row_among(&ENCODINGS, s)
}

// The endian of a name.
pub fn endian_named(s: &[u8]) -> Option<u32>
    ensures { result ≡ row_answer (endian_named s.now) }
{
    row_among(&ENDIANS, s)
}
