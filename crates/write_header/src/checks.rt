// What a call says of the orientation, and what is refused before a text is made: 11 for numbers that are out of their ranges, 8 for a field that the
// version does not have.
ghost use Rattle.std.specs.Prelude.{◌≡◌, ◌&&◌, ◌<◌, IfOk};
ghost use Rattle.format.specs.HeaderWriter.{has, shape_fine};
ghost use Rattle.format.specs.Reasons.{refusal_number};
ghost use Rattle.write_checks.specs.Checked.{on_asked, IsOf};
ghost use Rattle.write_header.specs.Stored.{space_fine, field_fine, version_fine, asked_refusal, Shaped};

use format::reason::Reason;
use format::{Decimal, Shape, field};
use write_checks::asked::{Array, Asked};

// What is given, as the members of `given` in a shape: a sum of these is below GIVEN.
pub(crate) const SPACE: u32 = 1;

pub(crate) const SIZE: u32 = 2;

pub(crate) const ORIGIN: u32 = 4;

pub(crate) const DIRECTIONS: u32 = 8;

pub(crate) const FRAME: u32 = 16;

const GIVEN: u32 = 32;

// The largest numbers of a shape.
const COMPONENTS: u32 = format::MAX_SPACE as u32;

const AXES: u32 = format::MAX_AXES as u32;

// How many spaces there are: the number that stands for none is the next one.
const SPACES: u64 = format::NO_SPACE as u64;

// The orientation of a call: any numbers that its caller may give.
#[derive(Clone, Copy)]
pub struct Given {
    pub shape: Shape,
    pub origin: [Decimal; 8],
    pub directions: [[Decimal; 8]; 16],
    pub frame: [[Decimal; 8]; 8],
}

impl Given {
    // The dimension of the space. A call has its range in the proof, a member of a lent struct has not.
    pub fn size(&self) -> u64
        ensures { result ≡ self.now.shape.spacedimension }
    {
        self.shape.spacedimension
    }
}

// A header that can be written: its array, and an orientation whose numbers are in their ranges.
#[derive(Clone, Copy)]
pub struct Header<'a> {
    pub array: Array<'a>,
    pub given: &'a Given,
    ghost shaped: { Shaped given.now.shape },
}

// Whether a member is given.
pub(crate) fn has(given: u32, member: u32) -> bool
    requires { 0 < member }
    ensures { result ≡ has given member }
{
    given / member % 2 == 1
}

// Whether the numbers of a shape are in their ranges, and a space that is given in the list.
fn is_shaped(shape: Shape) -> bool
    ensures { result ≡ (shape_fine shape && space_fine shape) }
{
    let fine = (shape.given < GIVEN)
        & ((shape.components <= COMPONENTS)
            & ((shape.axes <= AXES) & (shape.columns <= COMPONENTS)));
    fine & (!has(shape.given, SPACE) | (shape.space < SPACES))
}

// Whether the version has the field, where it is given.
fn has_field(version: u64, given: bool, f: usize) -> bool
    ensures { result ≡ field_fine version given f }
{
    !given | (format_values::fields::since(f) as u64 <= version)
}

// Whether the version has all fields that are given.
fn is_in_version(version: u64, given: u32) -> bool
    ensures { result ≡ version_fine version given }
{
    let a = has_field(version, has(given, SPACE), field::SPACE);
    let b = has_field(version, has(given, SIZE), field::SPACE_DIMENSION);
    let c = has_field(version, has(given, ORIGIN), field::SPACE_ORIGIN);
    let d = has_field(version, has(given, DIRECTIONS), field::SPACE_DIRECTIONS);
    let e = has_field(version, has(given, FRAME), field::MEASUREMENT_FRAME);
    a & (b & (c & (d & e)))
}

// The header that is asked for, or the first refusal.
pub(crate) fn check<'a>(asked: Asked<'a>, given: &'a Given) -> Result<Header<'a>, Reason>
    ensures is { refusal_number result ≡ on_asked asked_refusal asked.entry given.now.shape }
    ensures of { IfOk result (λ header. IsOf asked.entry header.array × (header.given.now ≡ given.now)) }
{
    let array = Array::try_from(asked)?;
    if !is_shaped(given.shape) {
        return Err(Reason::BadDescriptor);
    }
    if !is_in_version(asked.version, given.shape.given) {
        return Err(Reason::NotInVersion);
    }
    Ok(Header { array, given })
}
