// Axis records in lent bytes, 32 bytes each: the size in 8, then six numbers in 4, the low byte first.
#![tactic(auto)]

ghost use Rattle.std.specs.Prelude.{◌≡◌, ◌++◌, ◌+◌, ◌*◌, ◌≤◌, length, take};
ghost use Rattle.std.proofs.lemmas.List.Edits.{sets};
ghost use Rattle.format.specs.Bytes.{over};
ghost use Rattle.format.specs.Samples.{to_bytes};
ghost use Rattle.format.specs.AxisRecords.{axis_bytes, axes_bytes};

use format::Axis;

// How many bytes a record has.
pub const RECORD: usize = 32;

// Two numbers side by side, 4 bytes each.
fn put_pair(d: &mut [u8], at: usize, x: u32, y: u32)
    requires { at + 8 ≤ length d.old }
    ensures { d.new ≡ sets d.old at (to_bytes 4 x ++ to_bytes 4 y) }
{
    lent_numbers::store::<4>(d, at, x as u64);
    lent_numbers::store::<4>(d, at + 4, y as u64);
}

// A record stored at a place.
fn put_axis(d: &mut [u8], at: usize, a: Axis)
    requires { at + 32 ≤ length d.old }
    ensures { d.new ≡ sets d.old at (axis_bytes a) }
{
    lent_numbers::store::<8>(d, at, a.size);
    put_pair(d, at + 8, a.centring, a.kind);
    put_pair(d, at + 16, a.labelplace, a.labellength);
    put_pair(d, at + 24, a.unitplace, a.unitlength);
}

// The first n records, stored one after the other from the front on.
pub fn put_axes(d: &mut [u8], records: [Axis; format::AXES], n: usize)
    requires { (n ≤ 16) × (32 * n ≤ length d.old) }
    ensures { d.new ≡ over (axes_bytes (take n records)) d.old }
{
    for i in 0..n {
        put_axis(d, RECORD * i, records[i]);
    }
}
