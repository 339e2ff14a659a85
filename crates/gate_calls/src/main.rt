// Runs the cases of standard input through the calls on the data, its samples, coordinates and written files. The frame and what is printed
// are those of crate `gate_frames`. A negative sample is its two's complement.
//
// A case has at most 131,072 bytes:
//   0    which call: 0 data, 1 samples, 2 coordinates, 3 writer
//   4    the refusal, zeros where the call accepts; with a refusal what is expected besides is 0 or empty
// then, of a case for the data:
//   16   1 where the data lies in the second file, else 0; its start; its length
//   28   a run, the header's file; a run, the second file
// for samples:
//   16   the room, a wide number: how many entries the lent list has
//   24   a run, the header's file; a run, the second file; a run, the samples as wide numbers
// for coordinates:
//   16   the number of the sample
//   20   a run, the file; a run, at most 32 coordinates as wide numbers
// for the writer:
//   16   the room: how many bytes the lent buffer has
//   20   version, type, encoding, endian, as wide numbers
//   52   a run, at most 32 sizes as wide numbers; a run, at most 1,024 samples as wide numbers; a run, the file that is written
//
// `check_samples` is asked with the room itself; `samples` is lent at most 1,024 entries.
// The list and the buffer are filled before the call; every entry and byte past those written must still be so.
// A file that is written must be read back: its samples must be those lent.
//
// The parts of a case: 1 the answer, 2 the list, the buffer or the bytes of the data, 3 the answer of `check_samples`, 4 what is read back.
// Where the input does not fit the frame the run ends with the line `malformed`.
#![tactic(auto)]

use format::{CountAnswer, DataAnswer, NumberAnswer, Refusal, WriteAnswer};
use gate_frames::fault::{Fault, Stop, check};
use gate_frames::frame::Frame;
use gate_frames::{lent, walk};
use std::io;

// The most bytes of a case, sizes or coordinates, entries of a list of samples, and bytes of a written file.
const CASE: usize = 131072;

const AXES: usize = 32;

const SAMPLES: usize = 1024;

const ROOM: usize = 65536;

// What the entries of a list are before the call.
const UNTOUCHED_SAMPLE: i64 = -6510615555426900571;

// What the bytes of a buffer are before the call.
const UNTOUCHED: u8 = 165;

// Nothing is refused.
const FINE: Refusal = Refusal { number: 0, line: 0 };

#[derive(Clone, Copy)]
enum Part {
    Answer = 1,
    Lent = 2,
    CheckSamples = 3,
    ReadBack = 4,
}

impl From<Part> for Fault {
    fn from(part: Part) -> Fault {
        Fault::Part(part as u32)
    }
}

// So many bytes at a place, none where they pass the end.
fn bytes_at(file: &[u8], start: usize, length: usize) -> &[u8] {
    let mut frame = Frame::new(file);
    frame.take(start);
    frame.take(length)
}

fn judge_data(frame: &mut Frame, refusal: Refusal) -> Result<(), Fault> {
    let expected = DataAnswer {
        refusal,
        second: frame.number() == 1,
        start: frame.number() as u64,
        length: frame.number() as u64,
    };
    let file = frame.run();
    let second = frame.run();
    frame.finish()?;
    let holder = if expected.second { second } else { file };
    let data = bytes_at(holder, expected.start as usize, expected.length as usize);
    check(
        data_place::place::data_place(file, second) == expected,
        Part::Answer,
    )?;
    check(data_place::place::data(file, second) == data, Part::Lent)
}

// What the samples of a header's file and a second file have to be: those of a run, or none with a refusal.
#[derive(Clone, Copy)]
struct Samples<'a> {
    file: &'a [u8],
    second: &'a [u8],
    refusal: Refusal,
    samples: &'a [u8],
}

impl<'a> Samples<'a> {
    fn judge(&self, room: usize) -> Result<(), Fault> {
        let expected = CountAnswer {
            refusal: self.refusal,
            count: (self.samples.len() / 8) as u64,
        };
        let mut list = [UNTOUCHED_SAMPLE; SAMPLES];
        let answer = data_samples::samples(self.file, self.second, lent::first(&mut list, room));
        check(answer == expected, Part::Answer)?;
        let mut right = [UNTOUCHED_SAMPLE; SAMPLES];
        lent::store(&mut right, self.samples);
        check(list == right, Part::Lent)?;
        let answer = data_samples::check_samples(self.file, self.second, room);
        check(answer == expected, Part::CheckSamples)
    }
}

fn judge_samples(frame: &mut Frame, refusal: Refusal) -> Result<(), Fault> {
    let room = frame.wide() as usize;
    let samples = Samples {
        file: frame.run(),
        second: frame.run(),
        refusal,
        samples: frame.run(),
    };
    frame.finish()?;
    samples.judge(room)
}

fn judge_coordinates(frame: &mut Frame, refusal: Refusal) -> Result<(), Fault> {
    let expected = NumberAnswer {
        refusal,
        number: frame.number() as u64,
    };
    let file = frame.run();
    let mut coords = [0u64; AXES];
    let coords = lent::listed(&mut coords, frame.run());
    frame.finish()?;
    check(
        data_place::axes::sample_number(file, coords) == expected,
        Part::Answer,
    )
}

fn judge_writer(frame: &mut Frame, refusal: Refusal) -> Result<(), Fault> {
    let room = frame.number() as usize;
    let version = frame.wide();
    let sampletype = frame.wide();
    let encoding = frame.wide();
    let endian = frame.wide();
    let mut sizes = [0u64; AXES];
    let sizes = lent::listed(&mut sizes, frame.run());
    let samples = frame.run();
    let file = frame.run();
    frame.finish()?;
    let mut list = [0i64; SAMPLES];
    let list = lent::listed(&mut list, samples);
    let mut out = [UNTOUCHED; ROOM];
    let to = lent::first(&mut out, room);
    let answer = write_file::write(version, sizes, sampletype, encoding, endian, list, to);
    let expected = WriteAnswer {
        refusal,
        length: file.len() as u64,
    };
    check(answer == expected, Part::Answer)?;
    check(lent::holds(&out, file, UNTOUCHED), Part::Lent)?;
    // there is nothing to read back where nothing was written
    let back = Samples {
        file,
        second: &[],
        refusal: FINE,
        samples,
    };
    check(
        file.is_empty() || back.judge(SAMPLES).is_ok(),
        Part::ReadBack,
    )
}

fn judge(case: &[u8]) -> Result<(), Fault> {
    let mut frame = Frame::new(case);
    let call = frame.number();
    let refusal = frame.refusal();
    match call {
        0 => judge_data(&mut frame, refusal),
        1 => judge_samples(&mut frame, refusal),
        2 => judge_coordinates(&mut frame, refusal),
        3 => judge_writer(&mut frame, refusal),
        _ => Err(Stop::Malformed.into()),
    }
}

fn main(rt: HostRuntime) -> io::Result<()> {
    walk::run(&rt, &mut [0u8; CASE], judge)
}
