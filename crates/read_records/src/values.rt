// The records by value.
ghost use Rattle.std.specs.Prelude.{◌≡◌, ℕ};
ghost use Rattle.format.specs.Answers.{place_found};
ghost use Rattle.format.specs.Bytes.{each};
ghost use Rattle.format.specs.Limits.{max_axes};
ghost use Rattle.format.specs.Header.{header};
ghost use Rattle.format.specs.Calls.{find_field_call};
ghost use Rattle.format.specs.AxisRecords.{no_axes, records_call};
ghost use Rattle.read_records.specs.Values.{LookedUp, Coded, Placed, axis_from, records_answered};

use format::answers::Place;
use format::reason::{Reason, Refused};
use format::{Axes, Axis, CountAnswer, Refusal};
use read_axes::strings::Span;

const NOWHERE: Span = Span {
    start: 0,
    length: 0,
};

const BLANK: Axis = Axis {
    size: 0,
    centring: 0,
    kind: 0,
    labelplace: 0,
    labellength: 0,
    unitplace: 0,
    unitlength: 0,
};

// The records of an accepted header: as many as it has axes, and zeros past them.
#[derive(Clone, Copy)]
struct AxisRecords {
    count: u64,
    all: [Axis; format::AXES],
}

// The words for each axis, kinds or else centrings, of a field that was looked up in an accepted header; 0 where the field is not given.
fn codes_of(file: &[u8], place: Option<Place>, kinds: bool, axes: usize) -> [u32; format::AXES]
    requires { LookedUp file.now axes (place_found place) }
    ensures { (f : ℕ) → place_found place ≡ find_field_call file.now f → Coded kinds f result (header file.now) }
{
    let Some(place) = place else {
        return [0u32; format::AXES];
    };
    let from = place.start as usize;
    let to = from + place.length as usize;
    read_axes::codes::codes_in(&file[from..to], axes, kinds).unwrap_or([0u32; format::AXES])
}

// The places in the file of the strings, one for each axis, of a field that was looked up; 0 where the field is not given.
fn spans_of(file: &[u8], place: Option<Place>, axes: usize) -> [Span; format::AXES]
    requires { LookedUp file.now axes (place_found place) }
    ensures { (f : ℕ) → place_found place ≡ find_field_call file.now f → Placed f result (header file.now) }
{
    let Some(place) = place else {
        return [NOWHERE; format::AXES];
    };
    let from = place.start as usize;
    let to = from + place.length as usize;
    read_axes::strings::strings_in(&file[from..to], axes, from as u32).unwrap_or(
        [NOWHERE; format::AXES],
    )
}

// The records of all axes, by what is said of each; zeros past them.
fn all_records(
    sizes: [u64; format::AXES],
    centrings: [u32; format::AXES],
    kinds: [u32; format::AXES],
    labels: [Span; format::AXES],
    units: [Span; format::AXES],
) -> [Axis; format::AXES]
    ensures { result ≡ each (axis_from sizes centrings kinds labels units) 0 max_axes }
{
    let mut all = [BLANK; format::AXES];
    for i in 0..format::AXES {
        all[i] = Axis {
            size: sizes[i],
            centring: centrings[i],
            kind: kinds[i],
            labelplace: labels[i].start,
            labellength: labels[i].length,
            unitplace: units[i].start,
            unitlength: units[i].length,
        };
    }
    all
}

// The records, for a list that has room for so many.
fn records_for(file: &[u8], room: usize) -> Result<AxisRecords, Refused>
    ensures { records_answered result ≡ records_call file.now room }
{
    let reading = read_header::read::reading(file)?;
    let axes = reading.dimension as usize;
    if room < axes {
        return Err(Reason::LentTooShort.into());
    }
    let places = read_lookup::axes::find_axis_fields(file, reading.fieldlines);
    let centrings = codes_of(file, places.centers, false, axes);
    let kinds = codes_of(file, places.kinds, true, axes);
    let labels = spans_of(file, places.labels, axes);
    let units = spans_of(file, places.units, axes);
    Ok(AxisRecords {
        count: axes as u64,
        all: all_records(reading.sizes, centrings, kinds, labels, units),
    })
}

// Nothing is handed over.
fn no_axes(refusal: Refusal) -> Axes
    ensures { result ≡ no_axes refusal }
{
    Axes {
        answer: CountAnswer { refusal, count: 0 },
        records: [BLANK; format::AXES],
    }
}

// The answer and the records, for a list that has room for so many.
pub fn records(file: &[u8], room: usize) -> Axes
    ensures { result ≡ records_call file.now room }
{
    match records_for(file, room) {
        Ok(found) => {
            let records = found.all;
            Axes {
                answer: Ok(found.count).into(),
                records,
            }
        }
        Err(refused) => no_axes(refused.into()),
    }
}
