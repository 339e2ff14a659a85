// Vectors parted by blanks, as a descriptor has them.
ghost use Rattle.std.specs.Prelude.{◌≡◌, [], ◌≤◌, length, slice_index_or};
ghost use Rattle.format.specs.Bytes.{is_some};
ghost use Rattle.format.specs.Limits.{max_header};
ghost use Rattle.format.specs.Vectors.{said_by, vector_words, vector_said, direction_said, vectors_said, directions_said};
ghost use Rattle.format.specs.Columns.{matrix};
ghost use Rattle.read_vectors.specs.Answers.{vector_answer, direction_answer, vector_column, direction_column, word_said, frame_said};

use crate::vector::Vector;
use crate::{vector, words};
use format::Decimal;

// ---- whether the vectors are there

// Whether a word is a vector of n components, or `none` where that is taken.
fn word_fine(w: &[u8], n: usize, none: bool) -> bool
    requires { (length w.now ≤ max_header) × (n ≤ 8) }
    ensures { result ≡ is_some (word_said none n w.now) }
{
    if none {
        vector::direction_of(w, n).is_some()
    } else {
        vector::vector_of(w, n).is_some()
    }
}

// Whether the words are so many, each a vector of n components, or `none` where that is taken.
fn words_fine(t: &[u8], count: usize, n: usize, none: bool) -> bool
    requires { (length t.now ≤ max_header) × (n ≤ 8) }
    ensures { result ≡ is_some (said_by count (word_said none n) (vector_words t.now)) }
{
    let mut at: usize = 0;
    for _ in 0..count {
        let w = words::next_word(t, at);
        if w.from == w.to {
            return false;
        }
        if !word_fine(&t[w.from..w.to], n, none) {
            return false;
        }
        at = w.to;
    }
    let w = words::next_word(t, at);
    w.from == w.to
}

// Whether the text has so many vectors of n components.
pub fn are_vectors(t: &[u8], count: usize, n: usize) -> bool
    requires { (length t.now ≤ max_header) × (n ≤ 8) }
    ensures { result ≡ is_some (vectors_said count n t.now) }
{
    words_fine(t, count, n, false)
}

// Whether the text has so many directions of n components.
pub fn are_directions(t: &[u8], count: usize, n: usize) -> bool
    requires { (length t.now ≤ max_header) × (n ≤ 8) }
    ensures { result ≡ is_some (directions_said count n t.now) }
{
    words_fine(t, count, n, true)
}

// ---- one of them

// The vector number i, from 0 for the first.
pub fn nth_vector(t: &[u8], i: usize, n: usize) -> Option<[Decimal; 8]>
    requires { (length t.now ≤ max_header) × (n ≤ 8) }
    ensures { result ≡ vector_column (vector_said n (slice_index_or (vector_words t.now) i [])) }
{
    let w = words::word_at(t, i);
    vector::vector_of(&t[w.from..w.to], n)
}

// The direction of axis i, from 0 for the first.
pub fn nth_direction(t: &[u8], i: usize, n: usize) -> Option<[Decimal; 8]>
    requires { (length t.now ≤ max_header) × (n ≤ 8) }
    ensures { result ≡ direction_column (direction_said n (slice_index_or (vector_words t.now) i [])) }
{
    let w = words::word_at(t, i);
    vector::direction_of(&t[w.from..w.to], n)
}

// The vector number i, from 0 for the first.
pub fn vector_at(t: &[u8], i: usize, n: usize) -> Vector
    requires { (length t.now ≤ max_header) × (n ≤ 8) }
    ensures { result ≡ vector_answer (vector_said n (slice_index_or (vector_words t.now) i [])) }
{
    let w = words::word_at(t, i);
    let from = w.from;
    let to = w.to;
    vector::read_vector(&t[from..to], n)
}

// The direction of axis i, from 0 for the first.
pub fn direction_at(t: &[u8], i: usize, n: usize) -> Vector
    requires { (length t.now ≤ max_header) × (n ≤ 8) }
    ensures { result ≡ direction_answer (direction_said n (slice_index_or (vector_words t.now) i [])) }
{
    let w = words::word_at(t, i);
    let from = w.from;
    let to = w.to;
    vector::read_direction(&t[from..to], n)
}

// ---- all of them as a matrix

// A matrix of zeros.
fn blank_matrix() -> [[Decimal; 8]; 8]
    ensures { result ≡ matrix [] }
{
    let column = vector::blank_column();
    [column; 8]
}

// The vectors of n components as columns, those past the eighth left out. A word that is no vector is a column of zeros.
pub fn read_frame(t: &[u8], n: usize) -> [[Decimal; 8]; 8]
    requires { (length t.now ≤ max_header) × (n ≤ 8) }
    ensures { result ≡ frame_said n t.now }
{
    let mut m = blank_matrix();
    let mut at: usize = 0;
    for c in 0..8 {
        let w = words::next_word(t, at);
        if w.from == w.to {
            return m;
        }
        m[c] = vector::vector_of(&t[w.from..w.to], n).unwrap_or(vector::blank_column());
        at = w.to;
    }
    m
}
