// The text of a header with its orientation. The functions of lines store one where it is given; each returns the place after what it stored.
ghost use Rattle.std.specs.Prelude.{◌≡◌, ◌+◌, ◌≤◌, length};
ghost use Rattle.std.proofs.lemmas.List.Edits.{sets};
ghost use Rattle.write_header.specs.Stored.{text_room};
ghost use Rattle.write_header.specs.Headers.{space_of, size_of, origin_of, directions_of, frame_of, lines_of, text_of};

use crate::checks::{self, Header, has};

// These five stay apart: a line's text is of its own type and has its own bound, and a closure that stores it would be as long as the line is here.

// The line of the space.
fn put_space_line(text: &mut [u8], at: usize, header: &Header) -> usize
    requires { at + 36 ≤ length text.old }
    ensures place { result ≡ at + length (space_of header.now.given.now) }
    ensures stored { text.new ≡ sets text.old at (space_of header.now.given.now) }
    ensures long { result ≤ at + 36 }
{
    let given = header.given;
    let shape = given.shape;
    if has(shape.given, checks::SPACE) {
        let a = write_parts::bytes::put_bytes(text, at, b"space: ");
        let e = write_vectors::spaces::put_space(text, a, shape.space as usize);
        text[e] = b'\n';
        e + 1
    } else {
        at
    }
}

// The line of the space's dimension.
fn put_size_line(text: &mut [u8], at: usize, header: &Header) -> usize
    requires { at + 38 ≤ length text.old }
    ensures place { result ≡ at + length (size_of header.now.given.now) }
    ensures stored { text.new ≡ sets text.old at (size_of header.now.given.now) }
    ensures long { result ≤ at + 38 }
{
    let given = header.given;
    let shape = given.shape;
    if has(shape.given, checks::SIZE) {
        let a = write_parts::bytes::put_bytes(text, at, b"space dimension: ");
        let e = write_parts::decimals::put_decimal(text, a, given.size());
        text[e] = b'\n';
        e + 1
    } else {
        at
    }
}

// The line of the origin.
fn put_origin_line(text: &mut [u8], at: usize, header: &Header) -> usize
    requires { at + 280 ≤ length text.old }
    ensures place { result ≡ at + length (origin_of header.now.given.now) }
    ensures stored { text.new ≡ sets text.old at (origin_of header.now.given.now) }
    ensures long { result ≤ at + 280 }
{
    let given = header.given;
    let shape = given.shape;
    if has(shape.given, checks::ORIGIN) {
        let a = write_parts::bytes::put_bytes(text, at, b"space origin: ");
        let e = write_vectors::vectors::put_vector(
            text,
            a,
            &given.origin[..shape.components as usize],
        );
        text[e] = b'\n';
        e + 1
    } else {
        at
    }
}

// The line of the directions.
fn put_directions_line(text: &mut [u8], at: usize, header: &Header) -> usize
    requires { at + 4274 ≤ length text.old }
    ensures place { result ≡ at + length (directions_of header.now.given.now) }
    ensures stored { text.new ≡ sets text.old at (directions_of header.now.given.now) }
    ensures long { result ≤ at + 4274 }
{
    let given = header.given;
    let shape = given.shape;
    if has(shape.given, checks::DIRECTIONS) {
        let a = write_parts::bytes::put_bytes(text, at, b"space directions: ");
        let e = write_vectors::vectors::put_directions(
            text,
            a,
            &given.directions[..shape.axes as usize],
            shape.components as usize,
        );
        text[e] = b'\n';
        e + 1
    } else {
        at
    }
}

// The line of the frame.
fn put_frame_line(text: &mut [u8], at: usize, header: &Header) -> usize
    requires { at + 2147 ≤ length text.old }
    ensures place { result ≡ at + length (frame_of header.now.given.now) }
    ensures stored { text.new ≡ sets text.old at (frame_of header.now.given.now) }
    ensures long { result ≤ at + 2147 }
{
    let given = header.given;
    let shape = given.shape;
    if has(shape.given, checks::FRAME) {
        let a = write_parts::bytes::put_bytes(text, at, b"measurement frame: ");
        let e = write_vectors::vectors::put_frame(
            text,
            a,
            &given.frame[..shape.columns as usize],
            shape.components as usize,
        );
        text[e] = b'\n';
        e + 1
    } else {
        at
    }
}

// The lines of the orientation.
fn put_lines(text: &mut [u8], at: usize, header: &Header) -> usize
    requires { at + 6775 ≤ length text.old }
    ensures place { result ≡ at + length (lines_of header.now.given.now) }
    ensures stored { text.new ≡ sets text.old at (lines_of header.now.given.now) }
    ensures long { result ≤ at + 6775 }
{
    let a = put_space_line(text, at, header);
    let b = put_size_line(text, a, header);
    let c = put_origin_line(text, b, header);
    let d = put_directions_line(text, c, header);
    put_frame_line(text, d, header)
}

// The whole text, from the front of the buffer on: the writer's header, then from its empty line on the lines of the orientation and another empty line.
pub(crate) fn put_text(text: &mut [u8], header: &Header) -> usize
    requires { text_room ≤ length text.old }
    ensures place { result ≡ length (text_of header.now) }
    ensures stored { text.new ≡ sets text.old 0 (text_of header.now) }
    ensures long { result ≤ text_room }
{
    let n = write_file::head::put_header(text, &header.array);
    let e = put_lines(text, n - 1, header);
    text[e] = b'\n';
    e + 1
}
