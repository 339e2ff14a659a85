// Where the descriptors of centers, labels, units and kinds lie in a file, by one pass over its lines.
ghost use Rattle.std.specs.Prelude.{◌≡◌, ◌+◌, ◌≤◌, length};
ghost use Rattle.format.specs.Limits.{max_header};
ghost use Rattle.format.specs.Fields.{field_named};
ghost use Rattle.read_header.specs.Accepted.{Fielded};
ghost use Rattle.read_lookup.specs.Axes.{axis_row, kept_of, kept_places, no_places, Gives, AxesLeft, ArePlaces};

use format::answers::Place;
use format::field;
use read_lines::LineEnds;
use read_text::lines::Kind;

// The fields by number; no other field comes after the first of them.
const CENTERS: u32 = field::CENTERS as u32;

const LABELS: u32 = field::LABELS as u32;

const UNITS: u32 = field::UNITS as u32;

const KINDS: u32 = field::KINDS as u32;

// A field that a line gives, and the place of its descriptor.
#[derive(Clone, Copy)]
pub(crate) struct AxisField {
    field: u32,
    place: Place,
}

// The places of the four descriptors, of those that are given.
#[derive(Clone, Copy)]
pub struct AxisPlaces {
    pub centers: Option<Place>,
    pub labels: Option<Place>,
    pub units: Option<Place>,
    pub kinds: Option<Place>,
}

// What was found of the field before a line, or else what the line gives it: the first line with the field counts.
fn keep(before: Option<Place>, given: Option<AxisField>, field: u32) -> Option<Place>
    ensures { result ≡ kept_of field before given }
{
    match given {
        Some(given) if given.field == field => before.or(Some(given.place)),
        _ => before,
    }
}

impl AxisPlaces {
    // The places once a line is passed that gives this.
    fn keep(self, given: Option<AxisField>) -> AxisPlaces
        ensures { result ≡ kept_places self given }
    {
        // most lines give none of the four
        match given {
            None => self,
            Some(_) => AxisPlaces {
                centers: keep(self.centers, given, CENTERS),
                labels: keep(self.labels, given, LABELS),
                units: keep(self.units, given, UNITS),
                kinds: keep(self.kinds, given, KINDS),
            },
        }
    }
}

// The number of the field that a name means, if it is one of the four.
fn axis_row(name: &[u8]) -> Option<u32>
    ensures { result ≡ axis_row (field_named name.now) }
{
    match read_text::words::field_named(name) {
        Some(field) if CENTERS <= field => Some(field),
        _ => None,
    }
}

// What a line, which starts at `at`, gives of the four.
#[tactic(auto, using(crate::proofs::Finding::field_fits))]
fn field_given(t: &[u8], at: usize) -> Option<AxisField>
    requires { at + length t.now ≤ max_header }
    ensures { Gives t.now at result }
{
    match read_text::lines::kind_of(t) {
        Kind::Field(i) => {
            let field = axis_row(&t[..i])?;
            let place = crate::descriptors::descriptor_at(&t[i + 2..], field, at + (i + 2));
            Some(AxisField { field, place })
        }
        _ => None,
    }
}

// The places in the first lines with the fields, among `count` lines from `from` on.
fn first_fields(file: &[u8], from: usize, count: u32) -> AxisPlaces
    requires { AxesLeft file.now from count no_places }
    ensures { ArePlaces file.now result }
{
    let mut places = AxisPlaces {
        centers: None,
        labels: None,
        units: None,
        kinds: None,
    };
    let mut at = from;
    for _ in 0..count {
        let Some(LineEnds { text_end, next }) = read_lines::line_at(file, at) else {
            break;
        };
        places = places.keep(field_given(&file[at..text_end], at));
        at = next;
    }
    places
}

// Where the descriptors of the four fields lie in a file whose header has so many lines before the names under LIST, of those that are given.
pub fn find_axis_fields(file: &[u8], lines: u32) -> AxisPlaces
    requires { Fielded file.now lines }
    ensures { ArePlaces file.now result }
{
    first_fields(file, crate::places::second_line(file), lines - 1)
}
