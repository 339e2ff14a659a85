// The NRRD format: its limits and numbers by name, and the values that answers are made of.
// What is right is said in specs/; the laws that make it believable are in proofs/.
#![tactic(auto)]

ghost use Rattle.std.specs.Prelude.{◌≡◌};
ghost use Rattle.format.specs.FurtherTrials.{FurtherTrials};
ghost use Rattle.format.specs.HexDigits.{HexDigits};
ghost use Rattle.format.specs.Laws.{Laws};
ghost use Rattle.format.specs.Limits.{limits};
ghost use Rattle.format.specs.Refusals.{refusal_numbers};
ghost use Rattle.format.specs.Trials.{StarredTrials};

pub mod answers;
pub mod codes;
pub mod field;
pub mod reason;
pub mod wide;

// The limits of the rules.
pub const MAX_FILE: usize = 4294967295;

pub const MAX_HEADER: usize = 65535;

pub const MAX_LINES: u32 = 1024;

pub const MAX_AXES: u64 = 16;

// The same as the length of an array.
pub const AXES: usize = MAX_AXES as usize;

pub const MAX_SIZE: u64 = 4294967295;

pub const MAX_SKIP: u64 = 4294967295;

pub const MAX_EXTENT: u64 = 4294967295;

pub const MAX_VERSION: u64 = 5;

// The largest dimension of a space, also as a length.
pub const MAX_SPACE: u64 = 8;

pub const SPACE: usize = MAX_SPACE as usize;

// The largest first and last number and step of a file name pattern, and the largest width that it pads a number to.
pub const MAX_FILE_NUMBER: u64 = 4294967295;

pub const MAX_WIDTH: u64 = 99;

pub const MAX_SAMPLE: u64 = 9223372036854775807;

// The listing: the most bytes of a file that is listed, of a reading's lines without those of its keys, of a header, and of a listing.
pub const MAX_LISTED: usize = 65536;

const MAX_READING: usize = 144 + 21 * MAX_AXES as usize;

const LISTED_HEADER: usize = if MAX_HEADER < MAX_LISTED {
    MAX_HEADER
} else {
    MAX_LISTED
};

pub const MAX_LISTING: usize = MAX_READING + LISTED_HEADER + 4 * MAX_LINES as usize;

// The first version that has key pairs.
pub const PAIRS_SINCE: u32 = 2;

// The first version that has data files by a pattern or under LIST.
pub const MANY_FILES_SINCE: u32 = 4;

// The numbers of refusal.
pub const FILE_TOO_LONG: u32 = 1;

pub const NO_MAGIC: u32 = 2;

pub const HEADER_TOO_LONG: u32 = 3;

pub const TOO_MANY_LINES: u32 = 4;

pub const BAD_BYTE: u32 = 5;

pub const NO_MARK: u32 = 6;

pub const UNKNOWN_FIELD: u32 = 7;

pub const NOT_IN_VERSION: u32 = 8;

pub const REPEATED_FIELD: u32 = 9;

pub const OUT_OF_ORDER: u32 = 10;

pub const BAD_DESCRIPTOR: u32 = 11;

pub const BAD_BACKSLASH: u32 = 12;

pub const NO_END: u32 = 13;

pub const MISSING_FIELD: u32 = 14;

pub const EXTENT_TOO_LARGE: u32 = 15;

pub const SKIP_PAST_END: u32 = 16;

pub const PLACE_TOO_LARGE: u32 = 17;

pub const DATA_TOO_SHORT: u32 = 18;

pub const FLOAT_SAMPLES: u32 = 19;

pub const BAD_SAMPLE: u32 = 20;

pub const DATA_ENDS_EARLY: u32 = 21;

pub const LENT_TOO_SHORT: u32 = 22;

pub const BAD_COORDINATES: u32 = 23;

pub const BAD_KEY: u32 = 24;

pub const BAD_VALUE: u32 = 25;

pub const WRONG_TABLE: u32 = 26;

pub const WRONG_COUNT: u32 = 27;

pub const NO_SWEEP: u32 = 28;

pub const NO_SUCH_FILE: u32 = 29;

pub const SEVERAL_FILES: u32 = 33;

// Encodings and endians are numbered from 0 as the rules list them: those that the code asks for. The types are in `format_values::types`.
pub const RAW: u32 = 0;

pub const TEXT: u32 = 1;

pub const HEX: u32 = 2;

pub const LITTLE: u32 = 0;

pub const BIG: u32 = 1;

pub const NO_ENDIAN: u32 = 2;

// The number of a space that is not given.
pub const NO_SPACE: u32 = 12;

// The form of a header that stands in a file of its own; a header's form is else 0, attached.
pub const DETACHED: u32 = 1;

// The room that is enough for any header that the writer makes, and for each sample.
pub const HEADER_ROOM: usize = 512;

pub const SAMPLE_ROOM: usize = 22;

// The limits together.
#[derive(Clone, Copy)]
pub struct Limits {
    pub file: usize,
    pub header: usize,
    pub lines: u32,
    pub axes: u64,
    pub size: u64,
    pub skip: u64,
    pub extent: u64,
    pub version: u64,
    pub space: u64,
    pub filenumber: u64,
    pub width: u64,
    pub sample: u64,
    pub listed: usize,
    pub listing: usize,
}

// The numbers of refusal together, each by its name.
#[derive(Clone, Copy)]
pub struct RefusalNumbers {
    pub filetoolong: u32,
    pub nomagic: u32,
    pub headertoolong: u32,
    pub toomanylines: u32,
    pub badbyte: u32,
    pub nomark: u32,
    pub unknownfield: u32,
    pub notinversion: u32,
    pub repeatedfield: u32,
    pub outoforder: u32,
    pub baddescriptor: u32,
    pub badbackslash: u32,
    pub noend: u32,
    pub missingfield: u32,
    pub extenttoolarge: u32,
    pub skippastend: u32,
    pub placetoolarge: u32,
    pub datatooshort: u32,
    pub floatsamples: u32,
    pub badsample: u32,
    pub dataendsearly: u32,
    pub lenttooshort: u32,
    pub badcoordinates: u32,
    pub badkey: u32,
    pub badvalue: u32,
    pub wrongtable: u32,
    pub wrongcount: u32,
    pub nosweep: u32,
    pub nosuchfile: u32,
    pub severalfiles: u32,
}

// A refusal: its number, and the line at which the reader met it (numbers 2 to 12); 0 where no line is meant, as for the 11 of a byte skip of -1 with text or hex, and of data files that do not fit the sizes. Number 0: nothing is refused.
#[repr(C)]
#[derive(Clone, Copy, PartialEq, Eq)]
pub struct Refusal {
    pub number: u32,
    pub line: u32,
}

// A decimal, kept exactly: number times ten to the power. All three as callers in C have them: 16 bytes.
#[repr(C)]
#[derive(Clone, Copy, PartialEq, Eq)]
pub struct Decimal {
    pub number: i64,
    pub power: i32,
    // 0 a number, 1 nan, 2 inf, 3 -inf; 4 for the first component of an axis without a direction. With 1 to 4 number and power are 0.
    pub kind: u32,
}

// What is given of an orientation to the header writer, in numbers: 16 directions of 8 components each, and a matrix, come beside it.
#[derive(Clone, Copy)]
pub struct Shape {
    // a sum of 1 for a space, 2 for a space's dimension, 4 for an origin, 8 for directions, 16 for a frame
    pub given: u32,
    // how many components a vector has, up to `MAX_SPACE`; it ends earlier where one is of the kind none
    pub components: u32,
    // how many directions there are, up to `MAX_AXES`, and how many columns, up to `MAX_SPACE`
    pub axes: u32,
    pub columns: u32,
    // a space by its number
    pub space: u64,
    pub spacedimension: u64,
}

// The answer of the calls for an origin and for a direction: whether it is given, how many components it has, and these, zeros after them. The direction of an axis that has none
// is given, has no components, and a first one of the kind none. All zero where the call is refused.
#[derive(Clone, Copy, PartialEq, Eq)]
pub struct VectorAnswer {
    pub refusal: Refusal,
    pub given: bool,
    pub count: u32,
    pub parts: [Decimal; SPACE],
}

// What a header says of an axis. All as callers in C have them: 32 bytes.
#[repr(C)]
#[derive(Clone, Copy, PartialEq, Eq)]
pub struct Axis {
    pub size: u64,
    // 0 unknown, 1 cell, 2 node
    pub centring: u32,
    // 0 unknown, else from 1 as section 6 of the format's definition lists them
    pub kind: u32,
    // where the text of the label lies in the file, without its quotes; both 0 where the field is not given
    pub labelplace: u32,
    pub labellength: u32,
    // the same of the unit
    pub unitplace: u32,
    pub unitlength: u32,
}

// The answer of the call for axis records, and the records by value: one for each axis, zeros past them and where the call is refused.
#[derive(Clone, Copy, PartialEq, Eq)]
pub struct Axes {
    pub answer: CountAnswer,
    pub records: [Axis; AXES],
}

// What a reading says in numbers. All zero where the call is refused.
#[repr(C)]
#[derive(Clone, Copy, PartialEq, Eq)]
pub struct Reading {
    // 1 to `MAX_VERSION`
    pub version: u32,
    // 0 attached, 1 detached
    pub form: u32,
    // 1 to `MAX_AXES`
    pub dimension: u32,
    // numbered from 0 as the rules list them: int8, uint8, int16, .. double
    pub sampletype: u32,
    // 0 raw, 1 text, 2 hex
    pub encoding: u32,
    // 0 little, 1 big, 2 not given
    pub endian: u32,
    // one for each axis, axis 0 first; 0 past the dimension
    pub sizes: [u64; AXES],
    pub lineskip: u64,
    pub byteskip: u64,
    // the bytes that all samples take in raw
    pub extent: u64,
    // the header's bytes and lines, the closing empty line included
    pub length: u64,
    pub lines: u32,
    // the byte skip is -1: the data is the last `extent` bytes of its file, and `byteskip` is 0
    pub fromend: bool,
    // whether space origin, space directions and measurement frame are given
    pub origin: bool,
    pub directions: bool,
    pub frame: bool,
    // the space, numbered from 0 as section 4 of the format's definition lists them, `NO_SPACE` where none is named
    pub space: u32,
    // the dimension of the space, by its name or as given, 1 to `MAX_SPACE`; 0 where there is none
    pub spacedimension: u32,
    // how many data files there are: 1 for an attached header and for one name
    pub files: u32,
    // the lines before the names under LIST, that of LIST included; all lines where there is no LIST
    pub fieldlines: u32,
}

// The answer of the reading calls.
#[repr(C)]
#[derive(Clone, Copy, PartialEq, Eq)]
pub struct ReadAnswer {
    pub refusal: Refusal,
    pub reading: Reading,
}

// The answer of the look-ups: where the bytes lie in the file. All zero where they are absent.
#[repr(C)]
#[derive(Clone, Copy, PartialEq, Eq)]
pub struct FindAnswer {
    pub refusal: Refusal,
    pub found: bool,
    pub start: u64,
    pub length: u64,
}

// The answer of the copy of a key's value: its length with escapes resolved.
#[repr(C)]
#[derive(Clone, Copy, PartialEq, Eq)]
pub struct ValueAnswer {
    pub refusal: Refusal,
    pub found: bool,
    pub length: u64,
}

// The answer of the data call: which file holds the data, where it starts there, and its length.
#[repr(C)]
#[derive(Clone, Copy, PartialEq, Eq)]
pub struct DataAnswer {
    pub refusal: Refusal,
    pub second: bool,
    pub start: u64,
    pub length: u64,
}

// The answer of the sample calls, of the call for the number of files and of that for axis records: how many there are.
#[repr(C)]
#[derive(Clone, Copy, PartialEq, Eq)]
pub struct CountAnswer {
    pub refusal: Refusal,
    pub count: u64,
}

// The answer of the coordinates call: the number of the sample.
#[repr(C)]
#[derive(Clone, Copy, PartialEq, Eq)]
pub struct NumberAnswer {
    pub refusal: Refusal,
    pub number: u64,
}

// The answer of the writers and of the call for a file's name: how many bytes they wrote.
#[repr(C)]
#[derive(Clone, Copy, PartialEq, Eq)]
pub struct WriteAnswer {
    pub refusal: Refusal,
    pub length: u64,
}

// The answer of the call for a sample's place: the number of its file, and the raw byte of that file's share where it starts.
#[repr(C)]
#[derive(Clone, Copy, PartialEq, Eq)]
pub struct ShareAnswer {
    pub refusal: Refusal,
    pub file: u64,
    pub byte: u64,
}

// The answer of a setting: the new length and the new number of lines, or those lent where it is refused.
#[repr(C)]
#[derive(Clone, Copy, PartialEq, Eq)]
pub struct SetAnswer {
    pub refusal: Refusal,
    pub length: u64,
    pub count: u64,
}

// The limits are those of the definitions.
pub fn all_limits() -> Limits
    ensures { result ≡ limits }
{
    Limits {
        file: MAX_FILE,
        header: MAX_HEADER,
        lines: MAX_LINES,
        axes: MAX_AXES,
        size: MAX_SIZE,
        skip: MAX_SKIP,
        extent: MAX_EXTENT,
        version: MAX_VERSION,
        space: MAX_SPACE,
        filenumber: MAX_FILE_NUMBER,
        width: MAX_WIDTH,
        sample: MAX_SAMPLE,
        listed: MAX_LISTED,
        listing: MAX_LISTING,
    }
}

// The numbers of refusal are those of the definitions.
pub fn refusal_numbers() -> RefusalNumbers
    ensures { result ≡ refusal_numbers }
{
    RefusalNumbers {
        filetoolong: FILE_TOO_LONG,
        nomagic: NO_MAGIC,
        headertoolong: HEADER_TOO_LONG,
        toomanylines: TOO_MANY_LINES,
        badbyte: BAD_BYTE,
        nomark: NO_MARK,
        unknownfield: UNKNOWN_FIELD,
        notinversion: NOT_IN_VERSION,
        repeatedfield: REPEATED_FIELD,
        outoforder: OUT_OF_ORDER,
        baddescriptor: BAD_DESCRIPTOR,
        badbackslash: BAD_BACKSLASH,
        noend: NO_END,
        missingfield: MISSING_FIELD,
        extenttoolarge: EXTENT_TOO_LARGE,
        skippastend: SKIP_PAST_END,
        placetoolarge: PLACE_TOO_LARGE,
        datatooshort: DATA_TOO_SHORT,
        floatsamples: FLOAT_SAMPLES,
        badsample: BAD_SAMPLE,
        dataendsearly: DATA_ENDS_EARLY,
        lenttooshort: LENT_TOO_SHORT,
        badcoordinates: BAD_COORDINATES,
        badkey: BAD_KEY,
        badvalue: BAD_VALUE,
        wrongtable: WRONG_TABLE,
        wrongcount: WRONG_COUNT,
        nosweep: NO_SWEEP,
        nosuchfile: NO_SUCH_FILE,
        severalfiles: SEVERAL_FILES,
    }
}

// The starred trials of the rules hold of the definitions.
pub fn starred_trials() -> u64
    ensures { StarredTrials }
{
    0
}

// So do further ones: which headers are accepted, what the look-ups find, what is listed, which bytes are written and cross to C.
pub fn further_trials() -> u64
    ensures { FurtherTrials }
{
    0
}

// The laws that make the definitions believable hold.
pub fn definition_laws() -> u64
    ensures { Laws }
{
    0
}

// Of the 256 bytes exactly the hex digits have a value by the three ranges, and each the right one.
pub fn hex_digits() -> u64
    ensures { HexDigits }
{
    0
}
