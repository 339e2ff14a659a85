// The fields by number: their rows in the table of the definitions (`field_table`). Only those with a name in the code stand here.
pub const DIMENSION: usize = 0;

pub const TYPE: usize = 1;

pub const ENCODING: usize = 2;

pub const ENDIAN: usize = 3;

pub const SIZES: usize = 4;

pub const LINE_SKIP: usize = 5;

pub const BYTE_SKIP: usize = 6;

pub const DATA_FILE: usize = 7;

pub const SPACE: usize = 16;

pub const SPACE_DIMENSION: usize = 17;

pub const SPACE_ORIGIN: usize = 19;

pub const SPACE_DIRECTIONS: usize = 20;

pub const MEASUREMENT_FRAME: usize = 21;

pub const CENTERS: usize = 26;

pub const LABELS: usize = 27;

pub const UNITS: usize = 28;

pub const KINDS: usize = 29;

// How many fields there are.
pub const COUNT: usize = 30;
