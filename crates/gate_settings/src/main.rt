// Runs the settings of standard input: single ones, and lists of them, each lent what the one before it left. The frame and what is printed
// are those of crate `gate_frames`; module `case` has the layout of a case.
//
// The parts of a case: 1 the answers, 2 the buffer, 3 the table, 4 the count and the table of a fresh reading, 5 the rest of that reading,
// 6 the values of the keys, 7 the bytes after the header. Parts 4 to 7 are looked at where the case says that the table is that of the file.
// Where the input does not fit the frame the run ends with the line `malformed`.
#![tactic(auto)]

mod after;
mod case;
mod settings;
mod show;

use case::{BUFFER, CASE, TABLE, UNSET, VALUE};
use gate_frames::fault::{Fault, check};
use gate_frames::frame::Frame;
use gate_frames::{lent, walk};
use std::io;

#[derive(Clone, Copy)]
enum Part {
    Answers = 1,
    Buffer = 2,
    Table = 3,
    Lines = 4,
    Reading = 5,
    Keys = 6,
    Rest = 7,
}

impl From<Part> for Fault {
    fn from(part: Part) -> Fault {
        Fault::Part(part as u32)
    }
}

// Makes a table with the entries of a run.
fn make_table(table: &mut [u32; TABLE], entries: &[u8]) {
    table.fill(UNSET);
    lent::store(table, entries);
}

// A fresh reading is shown where the case has a name. Buffers and tables are made in place, and one buffer serves for every value that is read:
// by value the stack would hold each of them several times.
fn judge(rt: &impl Print, bytes: &[u8]) -> Result<(), Fault> {
    let case = case::parse(bytes)?;
    let mut buffer = [0u8; BUFFER];
    case::unpack(&mut buffer, case.lent.buffer);
    let mut table = [0u32; TABLE];
    make_table(&mut table, case.lent.table);
    let mut value = [0u8; VALUE];
    let (left, right) = match (buffer.get_mut(..case.room), table.get_mut(..case.slots)) {
        (Some(buffer), Some(table)) => settings::run(buffer, table, case.first, case.settings),
        // more is to be lent than there is: nothing is run and nothing is right
        _ => (case.first, false),
    };
    let file = Frame::new(&buffer).take(left.used);
    if !case.name.is_empty() {
        show::show(rt, case.name, file, case.keys, &mut value)?;
    }
    check(right, Part::Answers)?;
    // what the buffer has to be, and then what it was
    let mut other = [0u8; BUFFER];
    case::unpack(&mut other, case.left.buffer);
    check(buffer == other, Part::Buffer)?;
    let mut expected = [0u32; TABLE];
    make_table(&mut expected, case.left.table);
    check(table == expected, Part::Table)?;
    if case.is_read {
        case::unpack(&mut other, case.lent.buffer);
        let first = Frame::new(&other).take(case.first.used);
        let old = read_header::read::read_header(first).reading;
        let new = read_header::read::read_header(file).reading;
        let data = after::rest(first, old.length as usize);
        check(
            after::lines_right(file, &table, left.count, &mut expected),
            Part::Lines,
        )?;
        check(after::same_reading(&old, &new), Part::Reading)?;
        check(after::keys_right(file, case.keys, &mut value), Part::Keys)?;
        check(data == after::rest(file, new.length as usize), Part::Rest)?;
    }
    Ok(())
}

fn main(rt: HostRuntime) -> io::Result<()> {
    walk::run(&rt, &mut [0u8; CASE], |bytes: &[u8]| judge(&rt, bytes))
}
