// Vectors, directions, and the columns of a frame.
ghost use Rattle.std.specs.Prelude.{◌≡◌, map, ◌+◌, ◌≤◌, min, length, take};
ghost use Rattle.std.proofs.lemmas.List.Edits.{sets};
ghost use Rattle.format.specs.Bytes.{COMMA};
ghost use Rattle.format.specs.HeaderWriter.{component_text, joined, vector_text, direction_text, directions_text, frame_text};
ghost use Rattle.format.specs.HeaderWriter.{until_none, vector_of, direction_of};
ghost use Rattle.write_vectors.specs.Stored.{gap_text, components_room, vector_room, directions_room, frame_room};

use crate::components;
use format::Decimal;

// How many components stand before the first that is none.
fn count_components(v: &[Decimal]) -> usize
    ensures counted { until_none v.now ≡ take result v.now }
    ensures few { result ≤ length v.now }
{
    for i in 0..v.len() {
        let kind = v[i].kind;
        if kind == components::NO_DIRECTION {
            return i;
        }
    }
    v.len()
}

// Components, directions and columns have a loop each: what is stored of an entry has its own type and its own bound in the contract.

// The byte b, but not before entry 0.
fn put_gap(out: &mut [u8], at: usize, i: usize, b: u8) -> usize
    requires { at + min i 1 ≤ length out.old }
    ensures place { result ≡ at + length (gap_text b i) }
    ensures stored { out.new ≡ sets out.old at (gap_text b i) }
    ensures long { result ≡ at + min i 1 }
{
    if i == 0 {
        at
    } else {
        out[at] = b;
        at + 1
    }
}

// The components of a vector.
fn put_components(out: &mut [u8], at: usize, v: &[Decimal]) -> usize
    requires { (length v.now ≤ 8) × (at + components_room ≤ length out.old) }
    ensures place { result ≡ at + length (joined COMMA (map component_text v.now)) }
    ensures stored { out.new ≡ sets out.old at (joined COMMA (map component_text v.now)) }
    ensures long { result ≤ at + components_room }
{
    let mut o = at;
    for i in 0..v.len() {
        let from = put_gap(out, o, i, b',');
        o = components::put_component(out, from, v[i]);
    }
    o
}

// A vector: the components before the first that is none.
pub fn put_vector(out: &mut [u8], at: usize, v: &[Decimal]) -> usize
    requires { (length v.now ≤ 8) × (at + vector_room ≤ length out.old) }
    ensures place { result ≡ at + length (vector_text (until_none v.now)) }
    ensures stored { out.new ≡ sets out.old at (vector_text (until_none v.now)) }
    ensures long { result ≤ at + vector_room }
{
    out[at] = b'(';
    let n = count_components(v);
    let end = put_components(out, at + 1, &v[..n]);
    out[end] = b')';
    end + 1
}

// The direction of an axis in a space of n dimensions.
pub fn put_direction(out: &mut [u8], at: usize, v: &[Decimal; 8], n: usize) -> usize
    requires { (n ≤ 8) × (at + vector_room ≤ length out.old) }
    ensures place { result ≡ at + length (direction_text (direction_of n v.now)) }
    ensures stored { out.new ≡ sets out.old at (direction_text (direction_of n v.now)) }
    ensures long { result ≤ at + vector_room }
{
    let kind = v[0].kind;
    if kind == components::NO_DIRECTION {
        write_parts::bytes::put_bytes(out, at, b"none")
    } else {
        put_vector(out, at, &v[..n])
    }
}

// The directions of axes.
pub fn put_directions(out: &mut [u8], at: usize, rows: &[[Decimal; 8]], n: usize) -> usize
    requires { (length rows.now ≤ 16) × (n ≤ 8) × (at + directions_room ≤ length out.old) }
    ensures place { result ≡ at + length (directions_text (map (direction_of n) rows.now)) }
    ensures stored { out.new ≡ sets out.old at (directions_text (map (direction_of n) rows.now)) }
    ensures long { result ≤ at + directions_room }
{
    let mut o = at;
    for i in 0..rows.len() {
        let from = put_gap(out, o, i, b' ');
        o = put_direction(out, from, &rows[i], n);
    }
    o
}

// The columns of a frame.
pub fn put_frame(out: &mut [u8], at: usize, columns: &[[Decimal; 8]], n: usize) -> usize
    requires { (length columns.now ≤ 8) × (n ≤ 8) × (at + frame_room ≤ length out.old) }
    ensures place { result ≡ at + length (frame_text (map (vector_of n) columns.now)) }
    ensures stored { out.new ≡ sets out.old at (frame_text (map (vector_of n) columns.now)) }
    ensures long { result ≤ at + frame_room }
{
    let mut o = at;
    for i in 0..columns.len() {
        let column = columns[i];
        let from = put_gap(out, o, i, b' ');
        o = put_vector(out, from, &column[..n]);
    }
    o
}
