// A component: a number and its power, or a mark.
ghost use Rattle.std.specs.Prelude.{◌≡◌, ◌+◌, ◌≤◌, length};
ghost use Rattle.std.proofs.lemmas.List.Edits.{sets};
ghost use Rattle.format.specs.Writer.{decimal};
ghost use Rattle.format.specs.HeaderWriter.{number_text, component_text};
ghost use Rattle.write_vectors.specs.Stored.{sized_text, mark_text, component_room};

use format::Decimal;

// The kinds of a decimal: numbers, since callers in C may give any in the struct that they lend. A component of any other kind than the first four is
// written as one of the last.
const NUMERIC: u32 = 0;

const NAN: u32 = 1;

const INF: u32 = 2;

const MINUS_INF: u32 = 3;

pub(crate) const NO_DIRECTION: u32 = 4;

// A number of a size, with a minus or without. There is room for the minus in any case.
fn put_sized(out: &mut [u8], at: usize, minus: bool, size: u64) -> usize
    requires { at + 1 + length (decimal size) ≤ length out.old }
    ensures place { result ≡ at + length (sized_text minus size) }
    ensures stored { out.new ≡ sets out.old at (sized_text minus size) }
    ensures long { result ≤ at + 1 + length (decimal size) }
{
    if minus {
        out[at] = b'-';
        write_parts::decimals::put_decimal(out, at + 1, size)
    } else {
        write_parts::decimals::put_decimal(out, at, size)
    }
}

// A number, `e`, and a power.
fn put_number(out: &mut [u8], at: usize, number: i64, power: i32) -> usize
    requires { at + component_room ≤ length out.old }
    ensures place { result ≡ at + length (number_text number power) }
    ensures stored { out.new ≡ sets out.old at (number_text number power) }
    ensures long { result ≤ at + component_room }
{
    let a = put_sized(out, at, number < 0, number.unsigned_abs());
    out[a] = b'e';
    put_sized(out, a + 1, power < 0, power.unsigned_abs() as u64)
}

// A component that is no number, by its kind.
fn mark(kind: u32) -> &'static [u8]
    ensures is { result.now ≡ mark_text kind }
    ensures short { length result.now ≤ 4 }
{
    match kind {
        NAN => b"nan",
        INF => b"inf",
        MINUS_INF => b"-inf",
        _ => b"none",
    }
}

// A component.
pub fn put_component(out: &mut [u8], at: usize, d: Decimal) -> usize
    requires { at + component_room ≤ length out.old }
    ensures place { result ≡ at + length (component_text d) }
    ensures stored { out.new ≡ sets out.old at (component_text d) }
    ensures long { result ≤ at + component_room }
{
    if d.kind == NUMERIC {
        put_number(out, at, d.number, d.power)
    } else {
        write_parts::bytes::put_bytes(out, at, mark(d.kind))
    }
}
