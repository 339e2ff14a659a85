// Axis records: what a header says of each axis, worked out by value and then handed over in a lent list, of records or of bytes.
#![tactic(auto)]

ghost use Rattle.std.specs.Prelude.{◌≡◌, List, ℕ, ◌≤◌, length};
ghost use Rattle.format.specs.declared.CountAnswer.{CountAnswer};
ghost use Rattle.format.specs.AxisRecords.{axes_entry};
ghost use Rattle.format.specs.Room.{Enough, axes_room};

use format::{Axes, CountAnswer};

pub mod list;
pub mod values;

// The records in lent bytes.
pub fn axes_to_bytes(file: &[u8], list: &mut [u8]) -> CountAnswer
    ensures call { ◌≡◌ {A = CountAnswer × List ℕ} (result, list.new) (axes_entry file.now list.old) }
    ensures enough { axes_room ≤ length list.old → Enough result.refusal }
{
    let Axes { answer, records } = values::records(file, list.len() / lent_axes::RECORD);
    lent_axes::put_axes(list, records, answer.count as usize);
    answer
}
