// What the table of fields says of each field (`field_table` of the definitions), for every number of a field. A number past the table
// stands for a field that is in version 1, comes anywhere and is carried.
// The tables are numbers and not arrays: a constant array is built anew on the stack at each call that looks up one of its items.
ghost use Rattle.std.specs.Prelude.{◌≡◌, Bool, false, ◌*◌, ◌/◌, ◌%◌, ◌^◌, ◌<◌};
ghost use Rattle.format.specs.Fields.{FieldRow, no_field, field_at, field_since, needs_dimension, needs_space, is_understood};
ghost use Rattle.format_values.specs.Packed.{field_set};

use format::field;

// The first versions: a digit of 4 bits for each field, from the last digit on. First the 16 fields from dimension to sample units, then the
// others, from space to kinds.
const SINCE: u64 = 0x4111_1111_1111_1111;

const SINCE_LATER: u64 = 0x31_1111_4154_4444;

// Sets of fields: a bit for each field, from the last bit on.
const AFTER_DIMENSION: u64 = 0b11_1111_1101_0000_0000_0000_0001_0000;

const AFTER_SPACE: u64 = 0b00_0000_0011_1100_0000_0000_0000_0000;

const UNDERSTOOD: u64 = 0b11_1100_0011_1011_0000_0000_1111_1111;

// The digit of the row k.
pub fn digit(digits: u64, k: usize) -> u32
    requires { k < 16 }
    ensures { result ≡ digits / 2 ^ (4 * k) % 16 }
{
    ((digits >> (4 * k)) % 16) as u32
}

// The first version that has the field.
pub fn since(f: usize) -> u32
    ensures { result ≡ field_since f }
{
    if f < 16 {
        digit(SINCE, f)
    } else if f < field::COUNT {
        digit(SINCE_LATER, f - 16)
    } else {
        1
    }
}

// Whether the field is in the set.
fn is_in(set: u64, f: usize) -> bool
    ensures { (p : FieldRow → Bool) → set ≡ field_set p → p no_field ≡ false → result ≡ p (field_at f) }
{
    if f < field::COUNT {
        (set >> f) % 2 == 1
    } else {
        false
    }
}

// Whether the field comes after dimension.
pub fn needs_dimension(f: usize) -> bool
    ensures { result ≡ needs_dimension f }
{
    is_in(AFTER_DIMENSION, f)
}

// Whether the field comes after space or space dimension.
pub fn needs_space(f: usize) -> bool
    ensures { result ≡ needs_space f }
{
    is_in(AFTER_SPACE, f)
}

// Whether the field is understood.
pub fn is_understood(f: usize) -> bool
    ensures { result ≡ is_understood f }
{
    is_in(UNDERSTOOD, f)
}
