// What a data file descriptor says: the name of one file, a pattern with the numbers that go into it, or that names follow on lines of their own.
#![tactic(auto)]

ghost use Rattle.std.specs.Prelude.{◌≡◌, ◌≤◌, length, drop};
ghost use Rattle.format.specs.Words.{words};
ghost use Rattle.format.specs.DataFiles.{is_list, is_many_form, axes_said, listed, data_file_said};
ghost use Rattle.read_files.specs.Said.{files_answer, PatternRead};
ghost use Rattle.read_files.specs.Files.{files_told, files_last, files_listed, files_cover, NamedBy};

mod axes;
mod bytes;
pub mod cover;
mod names;
mod numbering;
mod numbers;
mod pattern;
mod words;

use cover::Cover;

// Whether the descriptor t is LIST, after which names stand on lines of their own.
pub fn is_list(t: &[u8]) -> bool
    ensures { result ≡ is_list t.now }
{
    read_text::bytes::is_same(t, b"LIST") | read_text::bytes::begins_with(b"LIST ", t)
}

// Whether the descriptor t is of one of the two forms for several files, also where it is a bad one.
pub fn is_many_form(t: &[u8]) -> bool
    ensures { result ≡ is_many_form t.now }
{
    is_list(t) | bytes::has_percent(t)
}

// How many axes one file covers, as one number: it is not asked, or wrong; it is left open; or it is so many more than this.
pub const NO_COVER: u32 = 0;

pub const OPEN_COVER: u32 = 1;

pub const COVER_FROM: u32 = 2;

// What a descriptor says of the files: whether it is a right one; whether their names follow; the number of the last file of a pattern, counted from 0, and 0 for the other forms;
// how many axes one file covers: 0 where nothing holds it to a number, 1 where it is left open, and else the number and 2, where a number above the most axes counts as one above it.
#[derive(Clone, Copy)]
pub struct FilesSaid {
    pub fine: bool,
    pub list: bool,
    pub last: u32,
    pub cover: u32,
}

// What a pattern with its numbers says, by places in the descriptor: the name of a file is the bytes from `from` to before `percent`, a number, and the bytes from `after` to before `to`.
// The number is padded to the width by zeros or by spaces; the first of them, whether they fall, by how much each differs from the one before it; the last file and the axes as above.
#[derive(Clone, Copy)]
pub struct PatternSaid {
    pub fine: bool,
    pub from: usize,
    pub percent: usize,
    pub zeros: bool,
    pub width: u32,
    pub after: usize,
    pub to: usize,
    pub first: u64,
    pub falls: bool,
    pub size: u64,
    pub last: u32,
    pub cover: u32,
}

const NO_PATTERN: PatternSaid = PatternSaid {
    fine: false,
    from: 0,
    percent: 0,
    zeros: false,
    width: 0,
    after: 0,
    to: 0,
    first: 0,
    falls: false,
    size: 0,
    last: 0,
    cover: NO_COVER,
};

// The descriptor t as a pattern, the first and the last number, a step, and a number of axes or none. What is not right is answered by `NO_PATTERN`.
pub fn pattern_said(t: &[u8]) -> PatternSaid
    ensures { PatternRead t.now result }
{
    let w = words::next_word(t, 0);
    let from = w.from;
    let to = w.to;
    let p = pattern::read_pattern(&t[from..to]);
    if !p.fine {
        return NO_PATTERN;
    }
    let n = numbering::read_numbering(t, to);
    if !n.fine {
        return NO_PATTERN;
    }
    let cover = axes::read_axes(t, n.end);
    if cover == NO_COVER {
        return NO_PATTERN;
    }
    let percent = from + p.percent;
    let after = from + p.after;
    PatternSaid {
        fine: true,
        from,
        percent,
        zeros: p.zeros,
        width: p.width,
        after,
        to,
        first: n.first,
        falls: n.falls,
        size: n.size,
        last: n.last,
        cover,
    }
}

// The descriptor t, which begins with `LIST`.
fn list_said(t: &[u8]) -> FilesSaid
    requires { 4 ≤ length t.now }
    ensures { result ≡ files_answer (listed (axes_said (words (drop 4 t.now)))) }
{
    let cover = axes::read_axes(t, 4);
    let fine = cover != NO_COVER;
    FilesSaid {
        fine,
        list: fine,
        last: 0,
        cover,
    }
}

// The descriptor t: names that follow, a pattern, or the name of one file, which has at least one byte.
pub fn said(t: &[u8]) -> FilesSaid
    ensures { result ≡ files_answer (data_file_said t.now) }
{
    if is_list(t) {
        return list_said(t);
    }
    if bytes::has_percent(t) {
        let p = pattern_said(t);
        return FilesSaid {
            fine: p.fine,
            list: false,
            last: p.last,
            cover: p.cover,
        };
    }
    FilesSaid {
        fine: t.len() != 0,
        list: false,
        last: 0,
        cover: NO_COVER,
    }
}

// A pattern with its numbers, by places in the descriptor: the name of a file is the bytes from `from` to before `percent`, a number, and the bytes from `after` to before `to`.
// The number is padded to the width by zeros or by spaces; the first of them, whether they fall, by how much each differs from the one before it; the number of the last file, counted from 0.
#[derive(Clone, Copy)]
pub struct NamePattern {
    pub from: usize,
    pub percent: usize,
    pub zeros: bool,
    pub width: u32,
    pub after: usize,
    pub to: usize,
    pub first: u64,
    pub falls: bool,
    pub size: u64,
    pub last: u32,
    pub cover: Cover,
}

// The descriptor t as a pattern, the first and the last number, a step, and a number of axes or none.
pub fn pattern_in(t: &[u8]) -> Option<NamePattern>
    ensures { NamedBy t.now result }
{
    let w = words::next_word(t, 0);
    let pattern = names::read_pattern(&t[w.from..w.to])?;
    let numbers = numbers::read_numbers(t, w.to)?;
    let cover = cover::read_cover(t, numbers.end)?;
    Some(NamePattern {
        from: w.from,
        percent: w.from + pattern.percent,
        zeros: pattern.zeros,
        width: pattern.width,
        after: w.from + pattern.after,
        to: w.to,
        first: numbers.first,
        falls: numbers.falls,
        size: numbers.size,
        last: numbers.last,
        cover,
    })
}

// What a right descriptor says of the files: the name of one, a pattern for as many as its last number, counted from 0, and one more, or that their names follow.
#[derive(Clone, Copy, PartialEq, Eq)]
pub enum Files {
    One,
    Numbered(u32, Cover),
    Listed(Cover),
}

impl Files {
    // The number of the last file of a pattern, and 0 for the other forms.
    pub fn last(self) -> u32
        ensures { result ≡ files_last self }
    {
        match self {
            Files::Numbered(last, _) => last,
            _ => 0,
        }
    }

    // Whether names follow on lines of their own.
    pub fn is_listed(self) -> bool
        ensures { result ≡ files_listed self }
    {
        matches!(self, Files::Listed(_))
    }

    // How many axes one file covers, where there may be several.
    pub fn cover(self) -> Option<Cover>
        ensures { result ≡ files_cover self }
    {
        match self {
            Files::One => None,
            Files::Numbered(_, cover) => Some(cover),
            Files::Listed(cover) => Some(cover),
        }
    }
}

// The descriptor t: names that follow, a pattern, or the name of one file, which has at least one byte.
pub fn files_in(t: &[u8]) -> Option<Files>
    ensures { result ≡ files_told (data_file_said t.now) }
{
    if is_list(t) {
        let cover = cover::read_cover(t, 4)?;
        return Some(Files::Listed(cover));
    }
    if bytes::has_percent(t) {
        let pattern = pattern_in(t)?;
        return Some(Files::Numbered(pattern.last, pattern.cover));
    }
    if t.is_empty() { None } else { Some(Files::One) }
}
