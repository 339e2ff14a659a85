// The reading of a header: line 1, the lines after it, and the table of lines.
ghost use Rattle.std.specs.Prelude.{◌≡◌, List, [], true, ℕ, ◌+◌, ◌≤◌, length, drop};
ghost use Rattle.format.specs.declared.ReadAnswer.{ReadAnswer};
ghost use Rattle.format.specs.Answers.{reading_answered};
ghost use Rattle.format.specs.Limits.{max_header, max_lines};
ghost use Rattle.format.specs.Fields.{Given, file_names};
ghost use Rattle.format.specs.Descriptors.{names_follow};
ghost use Rattle.format.specs.Lines.{lines};
ghost use Rattle.format.specs.Header.{magic_version, walk};
ghost use Rattle.format.specs.Calls.{read_header_call, read_call};
ghost use Rattle.read_fields.specs.States.{Holds, answer_from, named_from};
ghost use Rattle.read_header.specs.Listed.{version_told, names_ended};
ghost use Rattle.format.specs.EntryPoints.{read_entry};
ghost use Rattle.read_header.specs.Tables.{read_into};
ghost use Rattle.format.specs.Room.{Enough, table_entries, table_room};

use format::reason::{Reason, Refused};
use format::{ReadAnswer, Reading};
use read_fields::judge::judge_line;
use read_fields::state::{State, Step};
use read_lines::LineEnds;
use read_table::cells::Entry;
use read_table::table;

// The version of a magic.
#[tactic(auto, unfolding(format::specs::Header::magic_version))]
fn magic_version(t: &[u8]) -> Option<u32>
    ensures { result ≡ version_told (magic_version t.now) }
{
    if read_text::bytes::is_same(t, b"NRRD0001") || read_text::bytes::is_same(t, b"NRRD00.01") {
        Some(1)
    } else if read_text::bytes::is_same(t, b"NRRD0002") {
        Some(2)
    } else if read_text::bytes::is_same(t, b"NRRD0003") {
        Some(3)
    } else if read_text::bytes::is_same(t, b"NRRD0004") {
        Some(4)
    } else if read_text::bytes::is_same(t, b"NRRD0005") {
        Some(5)
    } else {
        None
    }
}

// The end of a header under LIST, which is line `list`, after so many names: 11 at LIST's line where there are none.
fn end_names(
    state: &State,
    names: u32,
    bytes: usize,
    lines: u32,
    list: u32,
) -> Result<Reading, Refused>
    ensures { (gs : List Given) → Holds state.now gs → names_follow gs ≡ true → names ≡ length (file_names gs) → reading_answered result ≡ names_ended list state.now.version gs bytes lines }
{
    if names == 0 {
        return Err(Reason::BadDescriptor.at_line(list));
    }
    state.finish(names - 1, bytes, lines, list)
}

// The lines under LIST, which is line `list` and ends at `from`: names, whatever they look like, up to an empty line or the end of the bytes.
fn read_names(file: &[u8], from: usize, state: &State, list: u32) -> Result<Reading, Refused>
    requires { (from ≤ length file.now) × (from ≤ max_header) × (2 ≤ list) × (list ≤ max_lines) }
    ensures { (gs : List Given) → Holds state.now gs → names_follow gs ≡ true → file_names gs ≡ [] → reading_answered result ≡ named_from list state.now.version (list + 1) from (walk state.now.version (list + 1) from gs (lines (drop from file.now))) }
{
    let mut at = from;
    let mut n: u32 = list + 1;
    // each step is as long as the line that was read
    while at < file.len() {
        let Some(LineEnds { text_end, next }) = read_lines::line_at(file, at) else {
            return Err(Reason::HeaderTooLong.at_line(n));
        };
        if format::MAX_LINES < n {
            return Err(Reason::TooManyLines.at_line(n));
        }
        if at == text_end {
            return end_names(state, n - 1 - list, next, n, list);
        }
        if !read_text::bytes::is_plain(&file[at..text_end]) {
            return Err(Reason::BadByte.at_line(n));
        }
        at = next;
        n += 1;
    }
    end_names(state, n - 1 - list, at, n - 1, list)
}

// The lines after line 1, which ends at `from`.
fn read_lines(file: &[u8], from: usize, version: u32) -> Result<Reading, Refused>
    requires { (from ≤ length file.now) × (from ≤ max_header) }
    ensures { reading_answered result ≡ answer_from version 2 from (walk version 2 from [] (lines (drop from file.now))) }
{
    let mut state = State::new(version);
    let mut at = from;
    let mut n: u32 = 2;
    // each step is as long as the line that was read
    while at < file.len() {
        let Some(LineEnds { text_end, next }) = read_lines::line_at(file, at) else {
            return Err(Reason::HeaderTooLong.at_line(n));
        };
        if format::MAX_LINES < n { // told before what the line says
            return Err(Reason::TooManyLines.at_line(n));
        }
        let step = match judge_line(&file[at..text_end], &mut state) {
            Ok(step) => step,
            Err(reason) => return Err(reason.at_line(n)),
        };
        if step.closes() {
            return state.finish(state.last_file(), next, n, n);
        }
        state.keep(step);
        if step.lists() {
            return read_names(file, next, &state, n);
        }
        at = next;
        n += 1;
    }
    if state.is_detached() {
        let count = n - 1;
        return state.finish(state.last_file(), at, count, count);
    }
    Err(Reason::NoEnd.into())
}

// The reading of a file's header, or why it is refused.
pub fn reading(file: &[u8]) -> Result<Reading, Refused>
    ensures { reading_answered result ≡ read_header_call file.now }
{
    if format::MAX_FILE < file.len() {
        return Err(Reason::FileTooLong.into());
    }
    let no_magic = Reason::NoMagic.at_line(1);
    if file.is_empty() {
        return Err(no_magic);
    }
    let Some(LineEnds { text_end, next }) = read_lines::line_at(file, 0) else {
        return Err(no_magic);
    };
    if text_end == next {
        return Err(no_magic);
    }
    let Some(version) = magic_version(&file[0..text_end]) else {
        return Err(no_magic);
    };
    read_lines(file, next, version)
}

// The reading of a file's header, without the table.
pub fn read_header(file: &[u8]) -> ReadAnswer
    ensures { result ≡ read_header_call file.now }
{
    reading(file).into()
}

// The reading of a file's header, and where each of its lines starts, at the front of a table.
fn read_into<E: Entry>(file: &[u8], table: &mut [E]) -> Result<Reading, Refused>
    ensures { ◌≡◌ {A = ReadAnswer × List E} (reading_answered result, table.new) (read_into E.entries E.holding file.now table.old) }
{
    E::know(table);
    let reading = reading(file)?;
    let count = reading.lines as usize;
    if E::count(table) < count {
        return Err(Reason::LentTooShort.into());
    }
    table::fill(file, table, count);
    Ok(reading)
}

// The same for a table of numbers. `MAX_LINES` entries are enough for any file.
pub fn read(file: &[u8], table: &mut [u32]) -> ReadAnswer
    ensures call { ◌≡◌ {A = ReadAnswer × List ℕ} (result, table.new) (read_call file.now table.old) }
    ensures enough { table_entries ≤ length table.old → (result ≡ read_header_call file.now) × Enough result.refusal }
{
    read_into::<u32>(file, table).into()
}

// The same for a table in bytes, 4 an entry.
pub fn read_to_bytes(file: &[u8], table: &mut [u8]) -> ReadAnswer
    ensures call { ◌≡◌ {A = ReadAnswer × List ℕ} (result, table.new) (read_entry file.now table.old) }
    ensures enough { table_room ≤ length table.old → (result ≡ read_header_call file.now) × Enough result.refusal }
{
    read_into::<u8>(file, table).into()
}
