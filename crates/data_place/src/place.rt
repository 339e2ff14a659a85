// Where the data lies.
ghost use Rattle.std.specs.Prelude.{◌≡◌, ◌&&◌, List, ◌≤◌, ◌==◌, nat_lt, Ok, min, length, drop};
ghost use Rattle.format.specs.Limits.{max_file};
ghost use Rattle.format.specs.Reasons.{refusal_number};
ghost use Rattle.format.specs.Fields.{Given};
ghost use Rattle.format.specs.Descriptors.{number_kind, is_floating};
ghost use Rattle.format.specs.Header.{Entry, header_length};
ghost use Rattle.format.specs.Data.{skip_lines, part, place_of};
ghost use Rattle.format.specs.Calls.{data_place_call, data_call, data_pointer};
ghost use Rattle.data_place.specs.Places.{IsReading, SkipIs, place_by, skipped_by, left_by, place_left, files_wrong, place_located, located_answered};

use format::answers::Place;
use format::reason::{Reason, Refused};
use format::{DataAnswer, Reading};
use format_values::refusals;

// Where what follows n lines that end in LF starts; none where the lines pass the end.
fn skip_lines(s: &[u8], n: u64) -> Option<usize>
    ensures { SkipIs s.now (skip_lines n s.now) result }
{
    let mut at: usize = 0;
    for _ in 0..n {
        let rest = &s[at..];
        let k = read_text::bytes::find_byte(rest, b'\n');
        if k == rest.len() {
            return None;
        }
        at += k + 1;
    }
    Some(at)
}

// The data in the second file or in the header's, and where it lies there.
#[derive(Clone, Copy)]
pub struct Located {
    pub second: bool,
    pub place: Place,
}

// So many bytes of the second file or of the header's.
fn lies(second: bool, start: usize, length: u64) -> Located
    ensures { place_located (Ok result) ≡ part second start length }
{
    Located {
        second,
        place: Place {
            start: start as u64,
            length,
        },
    }
}

// Whether samples are wanted of a type that is float or double.
fn is_unfit(wanted: bool, t: u32) -> bool
    ensures { result ≡ (wanted && is_floating (number_kind t)) }
{
    wanted && format_values::types::is_floating(t as u64)
}

// The data from `start` on, up to the end of a file, with `left` bytes there.
fn place_at(reading: &Reading, second: bool, start: usize, left: usize) -> Result<Located, Reason>
    ensures { place_located result ≡ place_by reading.now second start left }
{
    if reading.encoding != format::RAW {
        return Ok(lies(second, start, left as u64));
    }
    if (left as u64) < reading.extent {
        return Err(Reason::DataTooShort);
    }
    Ok(lies(second, start, reading.extent))
}

// How many of the bytes left after the lines are skipped: from the end all but the extent, none where there are fewer.
fn bytes_skipped(reading: &Reading, left: u64) -> u64
    ensures { result ≡ skipped_by reading.now left }
{
    if reading.fromend {
        left.saturating_sub(reading.extent)
    } else {
        reading.byteskip
    }
}

// The data in a file from `from` on: past the lines, then past the bytes.
fn place_in(reading: &Reading, file: &[u8], from: usize, second: bool) -> Result<Located, Reason>
    requires { from ≤ length file.now }
    ensures { place_located result ≡ place_left reading.now second (length file.now) (left_by reading.now (drop from file.now)) }
{
    let Some(skip) = skip_lines(&file[from..], reading.lineskip) else {
        return Err(Reason::SkipPastEnd);
    };
    let at = from + skip;
    let left = file.len() - at;
    let skipped = bytes_skipped(reading, left as u64);
    if (left as u64) < skipped {
        return Err(Reason::SkipPastEnd);
    }
    let n = skipped as usize;
    place_at(reading, second, at + n, left - n)
}

// Where the data area of an attached header starts, at most at the end of the file.
fn area_start(length: u64, whole: usize) -> usize
    ensures { result ≡ min length whole }
{
    length.min(whole as u64) as usize
}

// The refusal for the files: there are several, else the second one is too long.
fn check_files(reading: &Reading, second: &[u8]) -> Result<(), Reason>
    ensures { refusal_number result ≡ files_wrong (nat_lt 1 reading.now.files) ((reading.now.form == 1) && nat_lt max_file (length second.now)) }
{
    let several = 1 < reading.files;
    let long = reading.form == format::DETACHED && format::MAX_FILE < second.len();
    if several {
        Err(Reason::SeveralFiles)
    } else if long {
        Err(Reason::FileTooLong)
    } else {
        Ok(())
    }
}

// The place of the data by the reading of the file; `wanted`: its samples are wanted.
pub fn locate_data(
    reading: &Reading,
    file: &[u8],
    second: &[u8],
    wanted: bool,
) -> Result<Located, Reason>
    ensures { (es : List Entry) (gs : List Given) → IsReading file.now reading.now es gs → place_located result ≡ place_of wanted gs (header_length es) file.now second.now }
{
    check_files(reading, second)?;
    if is_unfit(wanted, reading.sampletype) {
        return Err(Reason::FloatSamples);
    }
    if reading.form == format::DETACHED {
        place_in(reading, second, 0, true)
    } else {
        place_in(reading, file, area_start(reading.length, file.len()), false)
    }
}

// A place as callers in C have it.
fn answer(located: Result<Located, Refused>) -> DataAnswer
    ensures { result ≡ located_answered located }
{
    match located {
        Ok(located) => DataAnswer {
            refusal: refusals::FINE,
            second: located.second,
            start: located.place.start,
            length: located.place.length,
        },
        Err(refused) => DataAnswer {
            refusal: refused.into(),
            second: false,
            start: 0,
            length: 0,
        },
    }
}

// Where the data lies by the header of the file, which tells whether it is in the second one.
fn find_data(file: &[u8], second: &[u8]) -> Result<Located, Refused>
    ensures { located_answered result ≡ data_place_call file.now second.now }
{
    let reading = read_header::read::reading(file)?;
    Ok(locate_data(&reading, file, second, false)?)
}

// The data call, by value: the refusal, or in which file, where and how long.
pub fn data_place(file: &[u8], second: &[u8]) -> DataAnswer
    ensures { result ≡ data_place_call file.now second.now }
{
    answer(find_data(file, second))
}

// The data as a slice of its file; a refusal gives an empty slice at byte 0 of the first file.
pub fn data<'a>(file: &'a [u8], second: &'a [u8]) -> &'a [u8]
    ensures list { result.now ≡ data_call file.now second.now }
    ensures itself { result.ref_ptr ≡ data_pointer file.entry.ref_ptr second.entry.ref_ptr (data_place_call file.now second.now) }
{
    match find_data(file, second) {
        Ok(located) => {
            let start = located.place.start as usize;
            let n = located.place.length as usize;
            if located.second {
                &second[start..start + n]
            } else {
                &file[start..start + n]
            }
        }
        Err(_) => &file[..0],
    }
}
