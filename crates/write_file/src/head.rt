// The header, line by line. Each function returns the place after its line.
ghost use Rattle.std.specs.Prelude.{◌≡◌, ◌+◌, ◌*◌, ◌≤◌, length};
ghost use mathlib.Core.List.{flat_map};
ghost use Rattle.std.proofs.lemmas.List.Edits.{sets};
ghost use Rattle.format.specs.Bytes.{bytes};
ghost use Rattle.format.specs.Codes.{type_code, encoding_code};
ghost use Rattle.format.specs.Descriptors.{endian_needed};
ghost use Rattle.format.specs.Writer.{decimal, header_bytes};
ghost use Rattle.format.specs.Room.{header_room};
ghost use Rattle.write_checks.specs.Checked.{on_array};
ghost use Rattle.write_file.specs.Stored.{value_line, after_space};
ghost use Rattle.write_file.specs.Arrays.{endian_text_of, top_of, rest_of};

use format::codes::{Encoding, SampleType};
use write_checks::asked::{Array, Coding};
use write_parts::names;

// A name with its mark, a value, and LF.
fn put_line(out: &mut [u8], at: usize, name: &[u8], value: &[u8]) -> usize
    requires { at + length name.now + length value.now + 1 ≤ length out.old }
    ensures place { result ≡ at + length (value_line name.now value.now) }
    ensures stored { out.new ≡ sets out.old at (value_line name.now value.now) }
    ensures long { result ≡ at + length name.now + length value.now + 1 }
{
    let a = write_parts::bytes::put_bytes(out, at, name);
    let e = write_parts::bytes::put_bytes(out, a, value);
    out[e] = b'\n';
    e + 1
}

// A name with its mark, a number, and LF.
fn put_number(out: &mut [u8], at: usize, name: &[u8], n: u64) -> usize
    requires { at + length name.now + 21 ≤ length out.old }
    ensures place { result ≡ at + length (value_line name.now (decimal n)) }
    ensures stored { out.new ≡ sets out.old at (value_line name.now (decimal n)) }
    ensures long { result ≤ at + length name.now + 21 }
{
    let a = write_parts::bytes::put_bytes(out, at, name);
    let e = write_parts::decimals::put_decimal(out, a, n);
    out[e] = b'\n';
    e + 1
}

// A space and a number for each.
fn put_spaced(out: &mut [u8], at: usize, ns: &[u64]) -> usize
    requires { at + 21 * length ns.now ≤ length out.old }
    ensures place { result ≡ at + length (flat_map after_space ns.now) }
    ensures stored { out.new ≡ sets out.old at (flat_map after_space ns.now) }
    ensures long { result ≤ at + 21 * length ns.now }
{
    let mut o = at;
    for &n in ns {
        out[o] = b' ';
        o = write_parts::decimals::put_decimal(out, o + 1, n);
    }
    o
}

// Whether the order of a sample's bytes matters.
fn needs_endian(sample_type: SampleType, encoding: Encoding) -> bool
    ensures { result ≡ endian_needed (type_code sample_type) (encoding_code encoding) }
{
    match encoding {
        Encoding::Text => false,
        _ => 1 < sample_type.bytes(),
    }
}

// The line of the endian, where it is needed.
fn put_endian(out: &mut [u8], at: usize, coding: Coding) -> usize
    requires { at + 15 ≤ length out.old }
    ensures place { result ≡ at + length (endian_text_of coding) }
    ensures stored { out.new ≡ sets out.old at (endian_text_of coding) }
    ensures long { result ≤ at + 15 }
{
    if needs_endian(coding.sample_type, coding.encoding) {
        put_line(out, at, b"endian: ", names::endian_name(coding.endian))
    } else {
        at
    }
}

// The line of the sizes.
fn put_sizes(out: &mut [u8], at: usize, sizes: &[u64]) -> usize
    requires { at + 7 + 21 * length sizes.now ≤ length out.old }
    ensures place { result ≡ at + length (value_line (bytes "sizes:") (flat_map after_space sizes.now)) }
    ensures stored { out.new ≡ sets out.old at (value_line (bytes "sizes:") (flat_map after_space sizes.now)) }
    ensures long { result ≤ at + 7 + 21 * length sizes.now }
{
    let a = write_parts::bytes::put_bytes(out, at, b"sizes:");
    let e = put_spaced(out, a, sizes);
    out[e] = b'\n';
    e + 1
}

// The lines of the magic, the type and the dimension.
fn put_top(out: &mut [u8], array: &Array) -> usize
    requires { 73 ≤ length out.old }
    ensures place { result ≡ length (top_of array.now) }
    ensures stored { out.new ≡ sets out.old 0 (top_of array.now) }
    ensures long { result ≤ 73 }
{
    let a = put_number(out, 0, b"NRRD000", array.version);
    let b = put_line(
        out,
        a,
        b"type: ",
        names::type_name(array.coding.sample_type),
    );
    put_number(out, b, b"dimension: ", array.sizes.len() as u64)
}

// The lines of the sizes, the encoding and the endian, and the empty line.
fn put_rest(out: &mut [u8], at: usize, array: &Array) -> usize
    requires { at + 37 + 21 * length array.now.sizes.now ≤ length out.old }
    ensures place { result ≡ at + length (rest_of array.now) }
    ensures stored { out.new ≡ sets out.old at (rest_of array.now) }
    ensures long { result ≤ at + 37 + 21 * length array.now.sizes.now }
{
    let a = put_sizes(out, at, array.sizes);
    let b = put_line(
        out,
        a,
        b"encoding: ",
        names::encoding_name(array.coding.encoding),
    );
    let e = put_endian(out, b, array.coding);
    out[e] = b'\n';
    e + 1
}

// The whole header.
pub fn put_header(out: &mut [u8], array: &Array) -> usize
    requires { header_room ≤ length out.old }
    ensures place { result ≡ length (on_array header_bytes array.now) }
    ensures stored { out.new ≡ sets out.old 0 (on_array header_bytes array.now) }
    ensures long { result ≤ header_room }
{
    let at = put_top(out, array);
    put_rest(out, at, array)
}
