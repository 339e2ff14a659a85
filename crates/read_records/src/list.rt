// The records in a lent list. Nothing is decided here: `values::records` works out the answer and the records first, and `fill` stores as many as the answer says.
ghost use Rattle.std.specs.Prelude.{◌≡◌, List, ◌++◌, ◌≤◌, length, take, drop};
ghost use Rattle.format.specs.declared.Axis.{Axis};
ghost use Rattle.format.specs.declared.CountAnswer.{CountAnswer};
ghost use Rattle.format.specs.AxisRecords.{axes_call};

use crate::values;
use format::{Axes, Axis, CountAnswer};

// The first n records, stored at the front of the list; those past them stay.
fn fill(list: &mut [Axis], records: &[Axis; format::AXES], n: usize)
    requires room { n ≤ length list.old }
    requires few { n ≤ 16 }
    ensures { list.new ≡ take n records.now ++ drop n list.old }
{
    list[..n].copy_from_slice(&records[..n]);
}

// A record for each axis of the file's header.
pub fn axes(file: &[u8], list: &mut [Axis]) -> CountAnswer
    ensures { ◌≡◌ {A = CountAnswer × List Axis} (result, list.new) (axes_call file.now list.old) }
{
    let Axes { answer, records } = values::records(file, list.len());
    fill(list, &records, answer.count as usize);
    answer
}

// The same over a list that goes in and out by value: it is lent here.
pub fn axes_in(file: &[u8], old: [Axis; format::AXES]) -> [Axis; format::AXES]
    ensures { result ≡ (axes_call file.now old).1 }
{
    let mut list = old;
    axes(file, &mut list);
    list
}
