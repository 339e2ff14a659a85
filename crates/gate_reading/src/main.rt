// Runs the cases of standard input through the reader and the look-ups. The frame and what is printed are those of crate `gate_frames`.
//
// A case has at most 131,072 bytes:
//   0    the room: how many entries the lent table has, at most 16,384
//   4    the refusal by `read`, zeros where it accepts
//   16   the same for `read_header`
//   28   the 35 numbers of the reading, in the order of `format::Reading`, 1 for true, all 0 where `read_header` refuses
//   168  a run, the file
//   a run, the entries that `read` writes, as numbers
//   for each of the 30 fields, in the order of the definitions (`field_table`): a text, the descriptor
//   the number of keys; for each a run, the key; a text, the value as it stands in the file; a run, the value
//
// The table is filled with 7 before the call; its entries past those written must still be 7. `read` must answer the same reading as
// `read_header`, or 35 zeros where it refuses. Of a file that is refused each look-up must answer the refusal.
//
// The parts of a case: 1 the answer of `read`, 2 the table, 3 the answer of `read_header`, 4 fields, 5 keys and values.
// Where the input does not fit the frame the run ends with the line `malformed`.
#![tactic(auto)]

use format::reason::Reason;
use format::{FindAnswer, ReadAnswer, Reading, Refusal, ValueAnswer, field};
use gate_frames::fault::{Fault, Stop, check};
use gate_frames::frame::Frame;
use gate_frames::{lent, walk};
use std::{array, io};

// The most bytes of a case, and entries of the table.
const CASE: usize = 131072;

const TABLE: usize = 16384;

// The bytes of the numbers of a reading.
const READING: usize = 140;

// The bytes of a buffer for a value: more than any value of the input has.
const ROOM: usize = 65536;

// What the entries of the table and the bytes of the buffer are before the call.
const UNSET: u32 = 7;

const UNTOUCHED: u8 = 165;

#[derive(Clone, Copy)]
enum Part {
    Read = 1,
    Table = 2,
    ReadHeader = 3,
    Fields = 4,
    Keys = 5,
}

impl From<Part> for Fault {
    fn from(part: Part) -> Fault {
        Fault::Part(part as u32)
    }
}

// The reading of 35 numbers, zeros where there are none.
fn reading_of(numbers: &[u8]) -> Reading {
    let mut frame = Frame::new(numbers);
    Reading {
        version: frame.number(),
        form: frame.number(),
        dimension: frame.number(),
        sampletype: frame.number(),
        encoding: frame.number(),
        endian: frame.number(),
        sizes: array::from_fn(|_| frame.number() as u64),
        lineskip: frame.number() as u64,
        byteskip: frame.number() as u64,
        extent: frame.number() as u64,
        length: frame.number() as u64,
        lines: frame.number(),
        fromend: frame.number() == 1,
        origin: frame.number() == 1,
        directions: frame.number() == 1,
        frame: frame.number() == 1,
        space: frame.number(),
        spacedimension: frame.number(),
        files: frame.number(),
        fieldlines: frame.number(),
    }
}

// A file, and the refusal of its header, which each look-up answers.
#[derive(Clone, Copy)]
struct Header<'a> {
    file: &'a [u8],
    refusal: Refusal,
}

impl<'a> Header<'a> {
    // Whether a look-up answers the refusal, and the place in the file of the text or none.
    fn places(&self, answer: FindAnswer, text: Option<&[u8]>) -> bool {
        match text {
            Some(text) => {
                let rest = self.file.get(answer.start as usize..);
                let found = rest.and_then(|rest| rest.get(..answer.length as usize));
                answer.refusal == self.refusal && answer.found && found == Some(text)
            }
            None => {
                let absent = FindAnswer {
                    refusal: self.refusal,
                    found: false,
                    start: 0,
                    length: 0,
                };
                answer == absent
            }
        }
    }

    // Whether a copy of the key's value to `room` bytes gives this answer and these bytes, and writes nothing else.
    fn copies(&self, key: &[u8], room: usize, answer: ValueAnswer, value: &[u8]) -> bool {
        let mut out = [UNTOUCHED; ROOM];
        let copied = read_lookup::keys::copy_value(self.file, key, lent::first(&mut out, room));
        copied == answer && lent::holds(&out, value, UNTOUCHED)
    }

    // Whether the key's value is copied to a long buffer and to one that it fills, and not to one that is a byte shorter.
    fn has_value(&self, key: &[u8], given: bool, value: &[u8]) -> bool {
        let answer = ValueAnswer {
            refusal: self.refusal,
            found: given,
            length: value.len() as u64,
        };
        let too_short = ValueAnswer {
            refusal: Reason::LentTooShort.at_line(0).into(),
            found: false,
            length: 0,
        };
        self.copies(key, ROOM, answer, value)
            && self.copies(key, value.len(), answer, value)
            && (value.is_empty() || self.copies(key, value.len() - 1, too_short, &[]))
    }

    // Whether the fields have the texts.
    fn has_fields(&self, texts: &[Option<&[u8]>; field::COUNT]) -> bool {
        let find = |field| read_lookup::descriptors::find_field(self.file, field);
        texts
            .iter()
            .zip(0..)
            .all(|(&text, field)| self.places(find(field), text))
    }

    // Whether the next key of the frame has its value.
    fn has_key(&self, frame: &mut Frame) -> bool {
        let key = frame.run();
        let text = frame.text();
        let value = frame.run();
        self.places(read_lookup::keys::find_key(self.file, key), text)
            && self.has_value(key, text.is_some(), value)
    }
}

fn judge(case: &[u8]) -> Result<(), Fault> {
    let mut frame = Frame::new(case);
    let room = frame.number() as usize;
    if TABLE < room {
        return Err(Stop::Malformed.into());
    }
    let read_refusal = frame.refusal();
    let refusal = frame.refusal();
    let reading = reading_of(frame.take(READING));
    let file = frame.run();
    let entries = frame.run();

    let mut table = [UNSET; TABLE];
    let answer = read_header::read::read(file, lent::first(&mut table, room));
    let expected = ReadAnswer {
        refusal: read_refusal,
        reading: if read_refusal.number == 0 {
            reading
        } else {
            reading_of(&[])
        },
    };
    check(answer == expected, Part::Read)?;
    let mut right = [UNSET; TABLE];
    lent::store(&mut right, entries);
    check(table == right, Part::Table)?;

    let header = Header { file, refusal };
    let texts = array::from_fn(|_| frame.text());
    let mut keys_right = true;
    for _ in 0..frame.number() {
        keys_right &= header.has_key(&mut frame);
        if frame.is_past_end() {
            break;
        }
    }
    frame.finish()?;
    check(
        read_header::read::read_header(file) == ReadAnswer { refusal, reading },
        Part::ReadHeader,
    )?;
    check(header.has_fields(&texts), Part::Fields)?;
    check(keys_right, Part::Keys)
}

fn main(rt: HostRuntime) -> io::Result<()> {
    walk::run(&rt, &mut [0u8; CASE], judge)
}
