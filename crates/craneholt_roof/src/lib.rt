// The roof rig's entry point for C, in an archive of its own: numbers and lent bytes in, an answer by value out.
#![tactic(auto)]

ghost use Rattle.std.specs.Prelude.{◌≡◌, List, ℕ};
ghost use Rattle.roof_sweep.specs.declared.SweepAnswer.{SweepAnswer};
ghost use Rattle.roof_sweep.specs.Sweeps.{sweep_entry};

use roof_sweep::SweepAnswer;

// The samples of a sweep to the front of the list, 8 bytes each, with its offset and the first row whose step from the row before it is wrong.
#[unsafe(no_mangle)]
pub extern "C" fn craneholt_sweep(file: &[u8], list: &mut [u8], largest: u64) -> SweepAnswer
    ensures { ◌≡◌ {A = SweepAnswer × List ℕ} (result, list.new) (sweep_entry file.now list.old largest) }
{
    roof_sweep::sweep_to_bytes(file, list, largest)
}
