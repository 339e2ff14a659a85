// Where a field's descriptor lies in a file.
ghost use Rattle.std.specs.Prelude.{◌≡◌, ◌+◌, ◌-◌, ◌≤◌, length, Some};
ghost use Rattle.format.specs.Answers.{place_found, place_answered};
ghost use Rattle.format.specs.Limits.{max_header};
ghost use Rattle.format.specs.Refusals.{fine};
ghost use Rattle.format.specs.Fields.{field_named};
ghost use Rattle.format.specs.Descriptors.{from_descriptor, descriptor};
ghost use Rattle.format.specs.Header.{Item, header};
ghost use Rattle.format.specs.Calls.{no_place, found_at, descriptor_place, find_field_call};
ghost use Rattle.format.specs.Found.{FindsField};
ghost use Rattle.read_header.specs.Accepted.{Fielded, IsItem};
ghost use Rattle.read_lookup.specs.Lookup.{is_field, FieldLeft};

use format::FindAnswer;
use format::answers::Place;
use format::reason::Refused;
use read_lines::LineEnds;
use read_text::lines::Kind;

// Whether a name means the field.
fn is_field(name: &[u8], field: u32) -> bool
    ensures { result ≡ is_field field (field_named name.now) }
{
    read_text::words::field_named(name) == Some(field)
}

// The place of a field's descriptor in what follows its mark, which starts at `at`.
pub(crate) fn descriptor_at(rest: &[u8], field: u32, at: usize) -> Place
    requires { at + length rest.now ≤ max_header }
    ensures { place_found (Some result) ≡ found_at (at + (length rest.now - length (from_descriptor field rest.now))) (length (descriptor field rest.now)) }
{
    let f = field as usize;
    let d = read_descriptors::place::descriptor_of(f, rest);
    crate::places::placed(at + read_descriptors::place::text_start(f, rest), d.len())
}

// The place of the descriptor that a line, which starts at `at`, gives the field.
#[tactic(auto, using(crate::proofs::Finding::field_fits))]
fn field_in(t: &[u8], field: u32, at: usize) -> Option<Place>
    requires { at + length t.now ≤ max_header }
    ensures { (i : Item) → IsItem t.now i → place_found result ≡ descriptor_place field at t.now i (no_place fine) }
{
    match read_text::lines::kind_of(t) {
        Kind::Field(i) => {
            if is_field(&t[..i], field) {
                Some(descriptor_at(&t[i + 2..], field, at + (i + 2)))
            } else {
                None
            }
        }
        _ => None,
    }
}

// The place of the descriptor in the first line with the field, among `count` lines from `from` on.
fn first_field(file: &[u8], field: u32, from: usize, count: u32) -> Option<Place>
    requires { FieldLeft file.now field from count }
    ensures { place_found result ≡ find_field_call file.now field }
{
    let mut at = from;
    for _ in 0..count {
        let Some(LineEnds { text_end, next }) = read_lines::line_at(file, at) else {
            return None;
        };
        let place = field_in(&file[at..text_end], field, at);
        if place.is_some() {
            return place;
        }
        at = next;
    }
    None
}

// Where the descriptor of a field lies in a file whose header has so many lines before the names under LIST, if the field is given.
// A name under LIST is no field, whatever it looks like.
pub fn find_descriptor_in(file: &[u8], field: u32, lines: u32) -> Option<Place>
    requires { Fielded file.now lines }
    ensures { place_found result ≡ find_field_call file.now field }
{
    first_field(file, field, crate::places::second_line(file), lines - 1)
}

// The same as callers in C have it.
pub fn find_field_in(file: &[u8], field: u32, lines: u32) -> FindAnswer
    requires { Fielded file.now lines }
    ensures { result ≡ find_field_call file.now field }
{
    Ok(find_descriptor_in(file, field, lines)).into()
}

// Where the descriptor of a field lies in the file, or nowhere if the field is not given.
pub fn find_field(file: &[u8], field: u32) -> FindAnswer
    ensures call { result ≡ find_field_call file.now field }
    ensures finds { FindsField file.now field (header file.now) result }
{
    find_descriptor(file, field).into()
}

// The same as a result.
pub fn find_descriptor(file: &[u8], field: u32) -> Result<Option<Place>, Refused>
    ensures call { place_answered result ≡ find_field_call file.now field }
    ensures finds { FindsField file.now field (header file.now) (place_answered result) }
{
    let reading = read_header::read::reading(file)?;
    // a field stands before the names under LIST
    Ok(find_descriptor_in(file, field, reading.fieldlines))
}
