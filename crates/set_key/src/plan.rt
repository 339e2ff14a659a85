// The refusals of a setting, in order, and its edit where there is none. Nothing is stored.
ghost use Rattle.std.specs.Prelude.{◌≡◌};
ghost use Rattle.format.specs.Settings.{key_fine, value_fine};
ghost use Rattle.format.specs.Reasons.{refusal_number};
ghost use Rattle.set_key.specs.Edits.{Small, asked_number, fitted, Planned};

use format::reason::{Reason, Refused};
use read_table::cells::Entry;
use read_table::table::Edit;
use set_pair::Pair;

// What a setting makes of a file: the edit, and how many bytes and header lines the new one has.
#[derive(Clone, Copy)]
pub struct Plan {
    pub edit: Edit,
    pub length: usize,
    pub count: usize,
}

// How many bytes and lines the old header has, and how many bytes the old file.
#[derive(Clone, Copy)]
pub struct Sizes {
    pub header: usize,
    pub lines: usize,
    pub file: usize,
}

// Whether the key, the value and the table are right in a file of this version. `fine` tells whether the table is the file's.
#[tactic(auto, unfolding(crate::specs::Edits::asked_number))]
fn asked(version: u32, pair: &Pair, fine: bool) -> Result<(), Reason>
    ensures { refusal_number result ≡ asked_number version (key_fine pair.now.key.now) (value_fine pair.now.value.now) fine }
{
    if version < format::PAIRS_SINCE {
        Err(Reason::NotInVersion)
    } else if !set_pair::key_fine(pair.key) {
        Err(Reason::BadKey)
    } else if !set_pair::value_fine(pair.value) {
        Err(Reason::BadValue)
    } else if !fine {
        Err(Reason::WrongTable)
    } else {
        Ok(())
    }
}

// The plan of an edit, where the new file is within the limits, in a buffer of `room` bytes and a table of `slots` entries.
#[tactic(auto, unfolding(crate::specs::Edits::fitted))]
fn fit(edit: Edit, old: Sizes, room: usize, slots: usize) -> Result<Plan, Reason>
    requires { Small edit old }
    ensures { result ≡ fitted edit old room slots }
{
    let header = edit.front + (old.header - edit.to);
    let count = old.lines + edit.more;
    let length = edit.front + (old.file - edit.to);
    if format::MAX_HEADER < header {
        Err(Reason::HeaderTooLong)
    } else if (format::MAX_LINES as usize) < count {
        Err(Reason::TooManyLines)
    } else if format::MAX_FILE < length {
        Err(Reason::FileTooLong)
    } else if room < length || slots < count {
        Err(Reason::LentTooShort)
    } else {
        Ok(Plan {
            edit,
            length,
            count,
        })
    }
}

// The plan of a setting of a file in a buffer of `room` bytes, with its table.
pub(crate) fn prepare<E: Entry>(
    file: &[u8],
    room: usize,
    table: &[E],
    count: usize,
    pair: &Pair,
) -> Result<Plan, Refused>
    ensures { Planned file.now room (E.entries table.now) count pair.now.key.now pair.now.value.now result }
{
    let reading = read_header::read::reading(file)?;
    let lines = reading.lines as usize;
    let fine = read_table::table::is_table(file, lines, table, count);
    asked(reading.version, pair, fine)?;
    // a key stands before the names under LIST
    let edit = crate::place::find_edit(file, reading.fieldlines, pair);
    let old = Sizes {
        header: reading.length as usize,
        lines,
        file: file.len(),
    };
    Ok(fit(edit, old, room, E::count(table))?)
}
