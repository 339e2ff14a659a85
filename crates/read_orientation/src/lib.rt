// The orientation that a header says: the origin, the direction of each axis and the measurement frame, by value and in lent bytes.
#![tactic(auto)]

ghost use Rattle.std.specs.Prelude.{◌≡◌, List, [], ℕ, ◌≤◌, length, slice_index_or};
ghost use Rattle.format.specs.declared.CountAnswer.{CountAnswer};
ghost use Rattle.format.specs.Answers.{count_answered};
ghost use Rattle.format.specs.Limits.{max_header};
ghost use Rattle.format.specs.Vectors.{vector_words};
ghost use Rattle.format.specs.Columns.{matrix};
ghost use Rattle.format.specs.Orientation.{no_vector, origin_call, direction_call, frame_call, origin_entry, directions_entry, frame_entry};
ghost use Rattle.read_orientation.specs.Told.{components_in, direction_told, vector_answered};

use format::reason::{Reason, Refused};
use format::{CountAnswer, Decimal, Refusal, VectorAnswer, field};
use format_values::refusals;

mod place;
mod store;

// The fields by number, as the look-up asks for them.
const ORIGIN: u32 = field::SPACE_ORIGIN as u32;

const DIRECTIONS: u32 = field::SPACE_DIRECTIONS as u32;

const FRAME: u32 = field::MEASUREMENT_FRAME as u32;

// ---- by value

// How many components a vector has, and these, zeros after them.
#[derive(Clone, Copy)]
struct Column {
    count: u32,
    parts: [Decimal; 8],
}

// No vector is given, or the call is refused.
fn no_vector(refusal: Refusal) -> VectorAnswer
    ensures { result ≡ no_vector refusal }
{
    VectorAnswer {
        refusal,
        given: false,
        count: 0,
        parts: read_vectors::vector::blank_column(),
    }
}

// A vector as callers in C have it. No `From`: Rust refuses one between types of other crates.
fn answer(vector: Result<Option<Column>, Refused>) -> VectorAnswer
    ensures { result ≡ vector_answered vector }
{
    match vector {
        Ok(Some(vector)) => {
            let parts = vector.parts;
            VectorAnswer {
                refusal: refusals::FINE,
                given: true,
                count: vector.count,
                parts,
            }
        }
        Ok(None) => no_vector(refusals::FINE),
        Err(refused) => no_vector(refused.into()),
    }
}

// The origin, if it is given.
fn find_origin(file: &[u8]) -> Result<Option<Column>, Refused>
    ensures { vector_answered result ≡ origin_call file.now }
{
    let said = place::said_of(file, ORIGIN)?;
    let Some(f) = said.field else {
        return Ok(None);
    };
    let parts = read_vectors::list::nth_vector(&file[f.from..f.to], 0, f.size).unwrap_or(
        read_vectors::vector::blank_column(),
    );
    Ok(Some(Column {
        count: f.size as u32,
        parts,
    }))
}

// The origin.
pub fn origin(file: &[u8]) -> VectorAnswer
    ensures { result ≡ origin_call file.now }
{
    answer(find_origin(file))
}

// How many components the direction has that a word is, in a space of n dimensions.
fn components(w: &[u8], n: usize) -> u32
    requires { n ≤ 8 }
    ensures { result ≡ components_in n w.now }
{
    if read_text::words::is_alike(w, b"none") {
        0
    } else {
        n as u32
    }
}

// The direction of axis i, in a space of n dimensions.
fn direction_in(t: &[u8], i: usize, n: usize) -> Column
    requires { (length t.now ≤ max_header) × (n ≤ 8) }
    ensures { result ≡ direction_told n (slice_index_or (vector_words t.now) i []) }
{
    let w = read_vectors::words::word_at(t, i);
    let word = &t[w.from..w.to];
    let parts = read_vectors::vector::direction_of(word, n).unwrap_or(
        read_vectors::vector::blank_column(),
    );
    Column {
        count: components(word, n),
        parts,
    }
}

// The direction of an axis, from 0 for the first, if directions are given.
fn find_direction(file: &[u8], axis: u32) -> Result<Option<Column>, Refused>
    ensures { vector_answered result ≡ direction_call file.now axis }
{
    let said = place::said_of(file, DIRECTIONS)?;
    if said.axes <= axis {
        return Err(Reason::BadCoordinates.into());
    }
    let Some(f) = said.field else {
        return Ok(None);
    };
    Ok(Some(direction_in(&file[f.from..f.to], axis as usize, f.size)))
}

// The direction of an axis, from 0 for the first.
pub fn direction(file: &[u8], axis: u32) -> VectorAnswer
    ensures { result ≡ direction_call file.now axis }
{
    answer(find_direction(file, axis))
}

// The frame of a header that gives none.
fn no_frame() -> [[Decimal; 8]; 8]
    ensures { result ≡ matrix [] }
{
    let column = read_vectors::vector::blank_column();
    [column; 8]
}

// The measurement frame: a column for each of its vectors.
pub fn frame(file: &[u8]) -> [[Decimal; 8]; 8]
    ensures { result ≡ frame_call file.now }
{
    let Ok(said) = place::said_of(file, FRAME) else {
        return no_frame();
    };
    let Some(f) = said.field else {
        return no_frame();
    };
    read_vectors::list::read_frame(&file[f.from..f.to], f.size)
}

// ---- in lent bytes
// Each call differs in its field, in how many decimals that has and in how they are stored; one function for the three would take all of that, and be no plainer.

// The components of the origin, stored: how many there are.
fn store_origin(file: &[u8], list: &mut [u8]) -> Result<u64, Refused>
    ensures { ◌≡◌ {A = CountAnswer × List ℕ} (count_answered result, list.new) (origin_entry file.now list.old) }
{
    let Some(v) = find_origin(file)? else {
        return Ok(0);
    };
    let n = v.count as usize;
    if list.len() / store::DECIMAL < n {
        return Err(Reason::LentTooShort.into());
    }
    lent_decimals::put_column(list, 0, v.parts, n);
    Ok(n as u64)
}

// The components of the origin.
pub fn origin_to_bytes(file: &[u8], list: &mut [u8]) -> CountAnswer
    ensures { ◌≡◌ {A = CountAnswer × List ℕ} (result, list.new) (origin_entry file.now list.old) }
{
    store_origin(file, list).into()
}

// The directions, stored: how many decimals there are.
fn store_directions(file: &[u8], list: &mut [u8]) -> Result<u64, Refused>
    ensures { ◌≡◌ {A = CountAnswer × List ℕ} (count_answered result, list.new) (directions_entry file.now list.old) }
{
    let said = place::said_of(file, DIRECTIONS)?;
    let Some(f) = said.field else {
        return Ok(0);
    };
    let axes = said.axes as usize;
    let count = f.size * axes;
    if list.len() / store::DECIMAL < count {
        return Err(Reason::LentTooShort.into());
    }
    store::put_directions(list, &file[f.from..f.to], axes, f.size);
    Ok(count as u64)
}

// The directions, axis after axis: a mark and zeros for an axis without one.
pub fn directions_to_bytes(file: &[u8], list: &mut [u8]) -> CountAnswer
    ensures { ◌≡◌ {A = CountAnswer × List ℕ} (result, list.new) (directions_entry file.now list.old) }
{
    store_directions(file, list).into()
}

// The measurement frame, stored: how many decimals there are.
fn store_frame(file: &[u8], list: &mut [u8]) -> Result<u64, Refused>
    ensures { ◌≡◌ {A = CountAnswer × List ℕ} (count_answered result, list.new) (frame_entry file.now list.old) }
{
    let said = place::said_of(file, FRAME)?;
    let Some(f) = said.field else {
        return Ok(0);
    };
    let count = f.size * f.size;
    if list.len() / store::DECIMAL < count {
        return Err(Reason::LentTooShort.into());
    }
    let m = read_vectors::list::read_frame(&file[f.from..f.to], f.size);
    store::put_columns(list, m, f.size);
    Ok(count as u64)
}

// The measurement frame, column after column.
pub fn frame_to_bytes(file: &[u8], list: &mut [u8]) -> CountAnswer
    ensures { ◌≡◌ {A = CountAnswer × List ℕ} (result, list.new) (frame_entry file.now list.old) }
{
    store_frame(file, list).into()
}
