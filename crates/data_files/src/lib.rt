// Data in several files: how many there are, the name of one, and which of them a sample is in.
#![tactic(auto)]

ghost use Rattle.std.specs.Prelude.{◌≡◌, List, ℕ, ◌≤◌, length};
ghost use Rattle.format.specs.declared.WriteAnswer.{WriteAnswer};
ghost use Rattle.format.specs.Answers.{count_answered, length_answered};
ghost use Rattle.format.specs.Files.{file_count_call, file_name_call, sample_file_call};
ghost use Rattle.format.specs.Room.{Enough, name_room};
ghost use Rattle.data_files.specs.Asked.{Asked, share_answered};

use format::reason::{Reason, Refused};
use format::{CountAnswer, Reading, ShareAnswer, WriteAnswer, field};
use format_values::refusals;
use shares::{Share, Shares};

mod lines;
mod names;
mod patterns;
mod shares;

// How many files hold the data.
fn count_files(file: &[u8]) -> Result<u64, Refused>
    ensures { count_answered result ≡ file_count_call file.now }
{
    let reading = read_header::read::reading(file)?;
    Ok(reading.files as u64)
}

// How many files hold the data: 1 for an attached header and for one name.
pub fn file_count(file: &[u8]) -> CountAnswer
    ensures { result ≡ file_count_call file.now }
{
    count_files(file).into()
}

// The name of the n-th file, counted from 0, by the reading of the header.
fn name_in(file: &[u8], reading: &Reading, n: u64, out: &mut [u8]) -> Result<u64, Refused>
    requires { Asked file.now n reading.now.lines reading.now.fieldlines }
    ensures { ◌≡◌ {A = WriteAnswer × List ℕ} (length_answered result, out.new) (file_name_call file.now n out.old) }
{
    let before = reading.fieldlines;
    // the names under LIST are the lines after the fields
    if before != reading.lines {
        return names::put_name(lines::text_of(file, before as u64 + n), out);
    }
    // an attached header has one file, with the empty name
    let Some(place) = read_lookup::descriptors::find_descriptor_in(
        file,
        field::DATA_FILE as u32,
        before,
    ) else {
        return Ok(0);
    };
    let start = place.start as usize;
    let end = start + place.length as usize;
    patterns::put_said(&file[start..end], n, out)
}

// The length of the name of the n-th file, counted from 0, which is put at the front of `out`.
fn find_name(file: &[u8], n: u64, out: &mut [u8]) -> Result<u64, Refused>
    ensures { ◌≡◌ {A = WriteAnswer × List ℕ} (length_answered result, out.new) (file_name_call file.now n out.old) }
{
    let reading = read_header::read::reading(file)?;
    let files = reading.files as u64;
    if files <= n {
        return Err(Reason::NoSuchFile.into());
    }
    name_in(file, &reading, n, out)
}

// The name of the n-th file, counted from 0, at the front of `out`. Where `out` is too short nothing is written.
pub fn file_name(file: &[u8], n: u64, out: &mut [u8]) -> WriteAnswer
    ensures call { ◌≡◌ {A = WriteAnswer × List ℕ} (result, out.new) (file_name_call file.now n out.old) }
    ensures enough { name_room ≤ length out.old → Enough result.refusal }
{
    find_name(file, n, out).into()
}

// A share as callers in C have it. No `From`: Rust refuses one between types of other crates.
fn answer(share: Result<Share, Refused>) -> ShareAnswer
    ensures { result ≡ share_answered share }
{
    match share {
        Ok(share) => ShareAnswer {
            refusal: refusals::FINE,
            file: share.file,
            byte: share.byte,
        },
        Err(refused) => ShareAnswer {
            refusal: refused.into(),
            file: 0,
            byte: 0,
        },
    }
}

// Which file a sample is in, and where it starts there.
fn find_sample(file: &[u8], sample: u64) -> Result<Share, Refused>
    ensures { share_answered result ≡ sample_file_call file.now sample }
{
    let reading = read_header::read::reading(file)?;
    let bytes = format_values::types::sample_bytes(reading.sampletype as u64);
    let shares = Shares {
        samples: reading.extent / bytes,
        files: reading.files as u64,
        bytes,
    };
    shares.share_of(sample)
}

// Which file a sample is in, and the raw byte of that file's share where it starts.
pub fn sample_file(file: &[u8], sample: u64) -> ShareAnswer
    ensures { result ≡ sample_file_call file.now sample }
{
    answer(find_sample(file, sample))
}
