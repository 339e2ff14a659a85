// Whether a field may have a descriptor, and the number or the sizes that it says.
ghost use Rattle.std.specs.Prelude.{◌≡◌, false, ◌||◌, List, ℕ, ◌≤◌, length};
ghost use Rattle.std.specs.Prelude.{Option as Answer};
ghost use Rattle.std.proofs.Math.Option.{Option};
ghost use Rattle.format.specs.Bytes.{is_some, or_default};
ghost use Rattle.format.specs.Limits.{max_size, max_skip, max_header, max_axes};
ghost use Rattle.format.specs.Fields.{sizes, data_file};
ghost use Rattle.format.specs.Spaces.{max_space};
ghost use Rattle.format.specs.Vectors.{vectors_said, directions_said};
ghost use Rattle.format.specs.Strings.{strings_said};
ghost use Rattle.format.specs.Words.{number_in, value_of_number};
ghost use Rattle.format.specs.Descriptors.{may_describe, number_said, is_minus_one, byte_skip_said, bytes_forward, is_from_end};
ghost use Rattle.read_text.specs.Rows.{row_answer};
ghost use Rattle.read_axes.specs.Codes.{codes_said};
ghost use Rattle.read_descriptors.specs.declared.check.Said.{Said};
ghost use Rattle.read_descriptors.specs.Checked.{spoken, found, answered, checked, asked, oriented, NoneOf};

use format::field;
use read_files::Files;

// What a descriptor says: a number, 0 where it says none and of data files the number of the last one; whether the data is found from the end; and of data files the form.
#[derive(Clone, Copy)]
pub struct Said {
    pub number: u32,
    pub from_end: bool,
    pub files: Option<Files>,
}

// A number, and nothing else.
fn only(number: u32) -> Said
    ensures { result ≡ spoken number false }
{
    Said {
        number,
        from_end: false,
        files: None,
    }
}

// A descriptor that is fine or not, and says no number.
fn says_none(fine: bool) -> Option<Said>
    ensures { result ≡ found fine 0 false }
{
    fine.then_some(only(0))
}

// A number from the least to the most.
fn check_number(t: &[u8], least: u64, most: u64) -> Option<Said>
    requires { most ≤ max_size }
    ensures { result ≡ found (number_in least most t.now) (value_of_number t.now) false }
{
    match read_text::numbers::read_number(t) {
        Some(n) if least <= n && n <= most => Some(only(n as u32)),
        _ => None,
    }
}

// A number of bytes to skip, or -1.
fn check_byte_skip(t: &[u8]) -> Option<Said>
    ensures { result ≡ found (is_minus_one t.now || number_in 0 max_skip t.now) (bytes_forward (byte_skip_said t.now)) (is_from_end (byte_skip_said t.now)) }
{
    if read_text::bytes::is_same(t, b"-1") {
        return Some(Said {
            from_end: true,
            ..only(0)
        });
    }
    check_number(t, 0, format::MAX_SKIP)
}

// A name that has a row.
fn check_row(row: Option<u32>) -> Option<Said>
    ensures { (o : Option ℕ) (d : ℕ) → row ≡ row_answer o → result ≡ found (is_some o) (or_default d o) false }
{
    match row {
        Some(n) => Some(only(n)),
        None => None,
    }
}

// As many sizes as the dimension: they are kept.
fn check_sizes(t: &[u8], dimension: u32, kept: &mut [u64; format::AXES]) -> Option<Said>
    ensures { (m : ℕ) → ◌≡◌ {A = Answer Said × List ℕ} (result, kept.new) (checked dimension m sizes t.now kept.old) }
{
    let sizes = read_text::numbers::sizes_in(t, dimension as usize)?;
    *kept = sizes;
    Some(only(0))
}

// What a data file descriptor says: a name, a pattern with its numbers, or LIST.
fn check_files(t: &[u8]) -> Option<Said>
    ensures { (n m : ℕ) → result ≡ answered n m data_file t.now }
{
    let files = read_files::files_in(t)?;
    Some(Said {
        number: files.last(),
        from_end: false,
        files: Some(files),
    })
}

// So many vectors in a space of this dimension. No space has more dimensions, and no header is longer: both are told here once for all that follows.
fn check_vectors(t: &[u8], count: u32, space: u32) -> Option<Said>
    ensures { space ≤ max_space → length t.now ≤ max_header → result ≡ found (is_some (vectors_said count space t.now)) 0 false }
{
    let n = space as usize;
    if format::SPACE < n || format::MAX_HEADER < t.len() {
        return None;
    }
    says_none(read_vectors::list::are_vectors(t, count as usize, n))
}

// The same with a direction for each of so many axes. Each has the one call and definition of its own: a common function that takes the call would be no shorter.
fn check_directions(t: &[u8], count: u32, space: u32) -> Option<Said>
    ensures { space ≤ max_space → length t.now ≤ max_header → result ≡ found (is_some (directions_said count space t.now)) 0 false }
{
    let n = space as usize;
    if format::SPACE < n || format::MAX_HEADER < t.len() {
        return None;
    }
    says_none(read_vectors::list::are_directions(t, count as usize, n))
}

// A word for each axis: a kind, or else a centring. No header has more than 16 axes: that is tested here.
fn check_codes(t: &[u8], dimension: u32, kinds: bool) -> Option<Said>
    ensures { dimension ≤ max_axes → result ≡ found (is_some (codes_said kinds dimension t.now)) 0 false }
{
    let n = dimension as usize;
    if format::AXES < n {
        return None;
    }
    says_none(read_axes::codes::codes_in(t, n, kinds).is_some())
}

// A string in quotes for each axis. No header has more than 16 axes, and none is longer than the limit: both are tested here.
fn check_strings(t: &[u8], dimension: u32) -> Option<Said>
    ensures { dimension ≤ max_axes → length t.now ≤ max_header → result ≡ found (is_some (strings_said dimension t.now)) 0 false }
{
    let n = dimension as usize;
    if format::AXES < n || format::MAX_HEADER < t.len() {
        return None;
    }
    says_none(read_axes::strings::strings_in(t, n, 0).is_some())
}

// The descriptor t of the field f that is centers, labels, units or kinds, or a carried one, in a header of this dimension.
fn check_axes(f: usize, t: &[u8], dimension: u32) -> Option<Said>
    ensures { (m : ℕ) → NoneOf f asked → NoneOf f oriented → dimension ≤ max_axes → length t.now ≤ max_header → result ≡ found (may_describe dimension m f t.now) (number_said f t.now) false }
{
    match f {
        field::CENTERS => check_codes(t, dimension, false),
        field::LABELS => check_strings(t, dimension),
        field::UNITS => check_strings(t, dimension),
        field::KINDS => check_codes(t, dimension, true),
        _ => says_none(true),
    }
}

// The descriptor t of the field f that is one of the five of the orientation, or one that is handed to `check_axes`, in a header of this dimension and a space of this one.
fn check_orientation(f: usize, t: &[u8], dimension: u32, space: u32) -> Option<Said>
    ensures { NoneOf f asked → dimension ≤ max_axes → space ≤ max_space → length t.now ≤ max_header → result ≡ found (may_describe dimension space f t.now) (number_said f t.now) false }
{
    match f {
        field::SPACE => check_row(read_text::words::space_named(t)),
        field::SPACE_DIMENSION => check_number(t, 1, format::MAX_SPACE),
        field::SPACE_ORIGIN => check_vectors(t, 1, space),
        field::SPACE_DIRECTIONS => check_directions(t, dimension, space),
        field::MEASUREMENT_FRAME => check_vectors(t, space, space),
        _ => check_axes(f, t, dimension),
    }
}

// The descriptor t of the field f, in a header of this dimension and a space of this one. Right sizes are kept, 0 past them; otherwise what is kept stays.
pub fn check(
    f: usize,
    t: &[u8],
    dimension: u32,
    space: u32,
    kept: &mut [u64; format::AXES],
) -> Option<Said>
    ensures { dimension ≤ max_axes → space ≤ max_space → length t.now ≤ max_header → ◌≡◌ {A = Answer Said × List ℕ} (result, kept.new) (checked dimension space f t.now kept.old) }
{
    match f {
        field::DIMENSION => check_number(t, 1, format::MAX_AXES),
        field::TYPE => check_row(read_text::words::type_named(t)),
        field::ENCODING => check_row(read_text::words::encoding_named(t)),
        field::ENDIAN => check_row(read_text::words::endian_named(t)),
        field::SIZES => check_sizes(t, dimension, kept),
        field::LINE_SKIP => check_number(t, 0, format::MAX_SKIP),
        field::BYTE_SKIP => check_byte_skip(t),
        field::DATA_FILE => check_files(t),
        _ => check_orientation(f, t, dimension, space),
    }
}
