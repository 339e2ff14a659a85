// Where a key's value lies in a file, and the copy of a value.
ghost use Rattle.std.specs.Prelude.{◌≡◌, List, ℕ, ◌+◌, ◌≤◌, length};
ghost use Rattle.format.specs.Answers.{place_found, place_answered, value_answered};
ghost use Rattle.format.specs.Limits.{max_header};
ghost use Rattle.format.specs.Refusals.{fine};
ghost use Rattle.format.specs.Header.{Item, header};
ghost use Rattle.format.specs.Calls.{no_place, find_key_call, copy_value_call};
ghost use Rattle.format.specs.Found.{FindsKey};
ghost use Rattle.read_header.specs.Accepted.{Fielded, IsItem};
ghost use Rattle.format.specs.Room.{value_room, Copied};
ghost use Rattle.read_lookup.specs.Lookup.{key_then, KeyLeft};

use format::answers::Place;
use format::reason::{Reason, Refused};
use format::{FindAnswer, ValueAnswer};
use read_lines::LineEnds;
use read_text::lines::Kind;

// The place of the key's value in a line, which starts at `at`, if it is that of a pair with the key.
#[tactic(auto, using(crate::proofs::Finding::pair_fits))]
fn pair_in(t: &[u8], key: &[u8], at: usize) -> Option<Place>
    requires { at + length t.now ≤ max_header }
    ensures { (i : Item) → IsItem t.now i → place_found result ≡ key_then key.now at i (no_place fine) }
{
    match read_text::lines::kind_of(t) {
        Kind::Pair(i) => {
            if read_text::escapes::means(&t[..i], key) {
                Some(crate::places::placed(at + (i + 2), t.len() - (i + 2)))
            } else {
                None
            }
        }
        _ => None,
    }
}

// The place of the value in the last line with the key, among `count` lines from `from` on.
fn last_pair(file: &[u8], key: &[u8], from: usize, count: u32) -> Option<Place>
    requires { KeyLeft file.now key.now from count (no_place fine) }
    ensures { place_found result ≡ find_key_call file.now key.now }
{
    let mut found = None;
    let mut at = from;
    for _ in 0..count {
        let Some(LineEnds { text_end, next }) = read_lines::line_at(file, at) else {
            return found;
        };
        let here = pair_in(&file[at..text_end], key, at);
        found = here.or(found);
        at = next;
    }
    found
}

// Where the value's text of a key lies in a file whose header has so many lines before the names under LIST: in the last line with the key.
// A name under LIST is no pair, whatever it looks like.
pub fn find_value_in(file: &[u8], key: &[u8], lines: u32) -> Option<Place>
    requires { Fielded file.now lines }
    ensures { place_found result ≡ find_key_call file.now key.now }
{
    last_pair(file, key, crate::places::second_line(file), lines - 1)
}

// The same as callers in C have it.
pub fn find_key_in(file: &[u8], key: &[u8], lines: u32) -> FindAnswer
    requires { Fielded file.now lines }
    ensures { result ≡ find_key_call file.now key.now }
{
    Ok(find_value_in(file, key, lines)).into()
}

// Where the value's text of a key lies in the file: that of its last value, escaped, or nowhere if no pair has the key.
pub fn find_key(file: &[u8], key: &[u8]) -> FindAnswer
    ensures call { result ≡ find_key_call file.now key.now }
    ensures finds { FindsKey file.now key.now (header file.now) result }
{
    find_value(file, key).into()
}

// The same as a result.
pub fn find_value(file: &[u8], key: &[u8]) -> Result<Option<Place>, Refused>
    ensures call { place_answered result ≡ find_key_call file.now key.now }
    ensures finds { FindsKey file.now key.now (header file.now) (place_answered result) }
{
    let reading = read_header::read::reading(file)?;
    // a key stands before the names under LIST
    Ok(find_value_in(file, key, reading.fieldlines))
}

// Copies the value of a key to the front of `out`, escapes resolved; its length, if there is one.
fn copy_to(file: &[u8], key: &[u8], out: &mut [u8]) -> Result<Option<u64>, Refused>
    ensures { ◌≡◌ {A = ValueAnswer × List ℕ} (value_answered result, out.new) (copy_value_call file.now key.now out.old) }
{
    let Some(place) = find_value(file, key)? else {
        return Ok(None);
    };
    let start = place.start as usize;
    let value = &file[start..start + place.length as usize];
    let n = read_text::escapes::unescaped_length(value);
    if out.len() < n {
        return Err(Reason::LentTooShort.into());
    }
    read_text::escapes::unescape_into(value, out);
    Ok(Some(n as u64))
}

// Writes the value of a key to the front of `out`, escapes resolved. Where `out` is too short nothing is written; the length that `find_key` tells is enough.
pub fn copy_value(file: &[u8], key: &[u8], out: &mut [u8]) -> ValueAnswer
    ensures call { ◌≡◌ {A = ValueAnswer × List ℕ} (result, out.new) (copy_value_call file.now key.now out.old) }
    ensures enough { value_room (find_key_call file.now key.now) ≤ length out.old → Copied (find_key_call file.now key.now) result }
{
    copy_to(file, key, out).into()
}
