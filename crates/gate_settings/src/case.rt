// The layout of a case, at most 65,536 bytes:
//   0    how many bytes of the buffer are lent, at most 73,728
//   4    how many entries of the table are lent, at most 2,048
//   8    the used length and the count that the first setting is lent, as wide numbers
//   24   1 where the buffer has a file with an accepted header and the table is that of its reading, else 0
//   28   seven runs: the buffer as it is lent, packed
//        the table as it is lent, as numbers
//        the settings: their number; for each a run, the key; a run, the value; the answer: a refusal, the length and the count as
//        wide numbers
//        the buffer as the last setting leaves it, packed
//        the table as the last setting leaves it, as numbers
//        the keys of the file then: their number; for each a run, the key; a run, its value
//        the name under which a fresh reading is shown, empty where it is not shown
//
// Packed bytes are the number of pieces; for each how many times it stands there, and a run. The bytes of a buffer and the entries of a table
// past those given are `UNTOUCHED` and `UNSET`, before the settings and afterwards.
use gate_frames::fault::Stop;
use gate_frames::frame::Frame;

// The most bytes of a case, of the lent buffer and of a value, and entries of the lent table.
pub const CASE: usize = 65536;

pub const BUFFER: usize = 73728;

pub const VALUE: usize = 65536;

pub const TABLE: usize = 2048;

pub const UNTOUCHED: u8 = 165;

pub const UNSET: u32 = 7;

// What a call for a setting is lent of a buffer and a table, and leaves: the used length and the number of lines.
#[derive(Clone, Copy)]
pub struct Extent {
    pub used: usize,
    pub count: usize,
}

// What the buffer and the table are: packed bytes, and entries.
#[derive(Clone, Copy)]
pub struct Stored<'a> {
    pub buffer: &'a [u8],
    pub table: &'a [u8],
}

#[derive(Clone, Copy)]
pub struct Case<'a> {
    pub room: usize,
    pub slots: usize,
    pub first: Extent,
    pub is_read: bool,
    pub lent: Stored<'a>,
    pub settings: &'a [u8],
    pub left: Stored<'a>,
    pub keys: &'a [u8],
    pub name: &'a [u8],
}

// The case in these bytes.
pub fn parse(bytes: &[u8]) -> Result<Case<'_>, Stop> {
    let mut frame = Frame::new(bytes);
    let case = Case {
        room: frame.number() as usize,
        slots: frame.number() as usize,
        first: Extent {
            used: frame.wide() as usize,
            count: frame.wide() as usize,
        },
        is_read: frame.number() != 0,
        lent: Stored {
            buffer: frame.run(),
            table: frame.run(),
        },
        settings: frame.run(),
        left: Stored {
            buffer: frame.run(),
            table: frame.run(),
        },
        keys: frame.run(),
        name: frame.run(),
    };
    frame.finish()?;
    Ok(case)
}

// Makes a buffer of packed bytes. It is made in place, since by value the stack would hold it several times.
pub fn unpack(buffer: &mut [u8; BUFFER], packed: &[u8]) {
    buffer.fill(UNTOUCHED);
    let mut frame = Frame::new(packed);
    let mut at = 0;
    for _ in 0..frame.number() {
        let times = frame.number();
        let run = frame.run();
        // an empty run stores nothing, however often it stands there
        if !run.is_empty() {
            for _ in 0..times {
                at = put(buffer, at, run);
            }
        }
    }
}

// Stores bytes from a place on, as many as there is room for; the place after them.
fn put(buffer: &mut [u8], at: usize, run: &[u8]) -> usize {
    if let Some(room) = buffer.get_mut(at..) {
        let n = run.len().min(room.len());
        room[..n].copy_from_slice(&run[..n]);
    }
    at.saturating_add(run.len())
}
