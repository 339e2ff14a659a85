// The samples of a file, checked and decoded.
#![tactic(auto)]

mod data;

ghost use Rattle.std.specs.Prelude.{◌≡◌, List, ℕ, ◌+◌, ◌≤◌, ◌/◌, length, take, drop, MatchResult, IfOk, if◌then◌else◌};
ghost use Rattle.format.specs.declared.CountAnswer.{CountAnswer};
ghost use Rattle.format.specs.Answers.{count_answered};
ghost use Rattle.format.specs.Boundary.{word_bytes};
ghost use Rattle.format.specs.EntryPoints.{samples_entry};
ghost use Rattle.format.specs.Reasons.{refusal_of};
ghost use Rattle.format.specs.Header.{header};
ghost use Rattle.format.specs.Calls.{no_samples, check_samples_call, samples_call};
ghost use Rattle.format.specs.Room.{Enough, samples_room};
ghost use Rattle.data_samples.specs.Parts.{Found, Ready, counted};

use crate::data::Data;
use data_place::place::Located;
use format::CountAnswer;
use format::reason::{Reason, Refused};
use lent_lists::Lent;

// The bytes at a place of one of the two files.
fn part<'a>(located: &Located, file: &'a [u8], second: &'a [u8]) -> &'a [u8]
    requires { located.now.place.start + located.now.place.length ≤ length (if located.now.second then second.now else file.now) }
    ensures { result.now ≡ take located.now.place.length (drop located.now.place.start (if located.now.second then second.now else file.now)) }
{
    let start = located.place.start as usize;
    let end = start + located.place.length as usize;
    if located.second {
        &second[start..end]
    } else {
        &file[start..end]
    }
}

// The data of a file's samples, if a refusal does not come before it.
fn find<'a>(file: &'a [u8], second: &'a [u8]) -> Result<Data<'a>, Refused>
    ensures { MatchResult result (Found file.now second.now) (λ refused. (room : ℕ) → no_samples (refusal_of refused) ≡ check_samples_call file.now second.now room) }
{
    let reading = read_header::read::reading(file)?;
    let located = data_place::place::locate_data(&reading, file, second, true)?;
    Ok(Data::of(&reading, part(&located, file, second)))
}

// The data, where `room` entries are enough for its samples and none of them is refused.
fn checked<'a>(file: &'a [u8], second: &'a [u8], room: usize) -> Result<Data<'a>, Refused>
    ensures count { count_answered (counted result) ≡ check_samples_call file.now second.now room }
    ensures ready { IfOk result (Ready file.now second.now room) }
{
    let data = find(file, second)?;
    if room < data.count {
        return Err(Reason::LentTooShort.into());
    }
    data.check()?;
    Ok(data)
}

// The refusal that `samples` would give a list of `room` entries, or how many samples there are. It stores nothing.
pub fn check_samples(file: &[u8], second: &[u8], room: usize) -> CountAnswer
    ensures { result ≡ check_samples_call file.now second.now room }
{
    checked(file, second, room)
        .map(|data| data.count as u64)
        .into()
}

// The samples to the front of the list, which is untouched where they are refused: how many.
fn store<C: Lent>(file: &[u8], second: &[u8], list: &mut [C]) -> Result<u64, Refused>
    ensures { ◌≡◌ {A = CountAnswer × List C} (count_answered result, list.new) (let a = samples_call file.now second.now (C.samples list.old) in (a.0, C.lent a.1 list.old)) }
{
    let data = checked(file, second, C::entries(list))?;
    data.fill(list);
    Ok(data.count as u64)
}

// The samples to the front of the list, of numbers or of bytes, 8 for each sample; untouched where they are refused. As many entries as the product of the
// sizes are enough; a rest of bytes too short for one stays.
pub fn samples<C: Lent>(file: &[u8], second: &[u8], list: &mut [C]) -> CountAnswer
    ensures call { ◌≡◌ {A = CountAnswer × List C} (result, list.new) (let a = samples_call file.now second.now (C.samples list.old) in (a.0, C.lent a.1 list.old)) }
    ensures enough { samples_room (header file.now) ≤ C.room (length list.old) → Enough result.refusal }
{
    store(file, second, list).into()
}

// The same for a list of bytes.
pub fn samples_to_bytes(file: &[u8], second: &[u8], list: &mut [u8]) -> CountAnswer
    ensures call { ◌≡◌ {A = CountAnswer × List ℕ} (result, list.new) (samples_entry file.now second.now list.old) }
    ensures enough { samples_room (header file.now) ≤ length list.old / word_bytes → Enough result.refusal }
{
    samples(file, second, list)
}
