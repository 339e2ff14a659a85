// The roof rig's call for a sweep. It stands above the library and knows of it only what its calls claim.
#![tactic(auto)]

mod offset;
pub mod stamped;

ghost use Rattle.std.specs.Prelude.{◌≡◌, List, ℕ, ◌==◌, length, if◌then◌else◌};
ghost use Rattle.format.specs.Refusals.{no_sweep, refusal};
ghost use Rattle.format.specs.Calls.{read_header_call};
ghost use Rattle.roof_steps.specs.Steps.{first_wrong, number_found};
ghost use Rattle.roof_sweep.specs.declared.SweepAnswer.{SweepAnswer};
ghost use Rattle.roof_sweep.specs.Sweeps.{is_sweep, offset_for, refused_sweep, sweep_answer, stamps_in, sweep_call, sweep_entry};
ghost use Rattle.roof_sweep.specs.Rows.{Rows};
ghost use Rattle.roof_sweep.specs.SweepTrials.{SweepTrials};
ghost use Rattle.roof_sweep.specs.SweepLaws.{SweepLaws};

use crate::stamped::Stamped;
use format::codes::SampleType;
use format::{Reading, Refusal};
use format_values::refusals;
use lent_lists::Lent;

// An attached header among the forms.
const ATTACHED: u32 = 0;

// The largest step that a caller may name.
const MAX_STEP: u64 = 2147483647;

// The answer: the offset that the key says, and whether a row has a wrong step from the row before it, with the first such row, from 0. All but the refusal are zero where the call is refused.
#[repr(C)]
#[derive(Clone, Copy)]
pub struct SweepAnswer {
    pub refusal: Refusal,
    pub offset: u32,
    pub wrong: bool,
    pub row: u64,
}

// Whether a file with this reading is a sweep: attached, uint32, of two axes.
fn is_sweep(reading: &Reading) -> bool
    ensures { result ≡ is_sweep reading.now }
{
    reading.form == ATTACHED
        && (reading.sampletype == SampleType::Uint32.code() && reading.dimension == 2)
}

// The offset, if the file is a sweep, its key says one, and the largest step is in its range.
fn offset_for(file: &[u8], reading: &Reading, largest: u64) -> Option<u32>
    requires { reading.now ≡ (read_header_call file.now).reading }
    ensures { result ≡ number_found (offset_for file.now largest) }
{
    if is_sweep(reading) && 1 <= largest && largest <= MAX_STEP {
        offset::find_offset(file)
    } else {
        None
    }
}

fn refuse(refusal: Refusal) -> SweepAnswer
    ensures { result ≡ refused_sweep refusal }
{
    SweepAnswer {
        refusal,
        offset: 0,
        wrong: false,
        row: 0,
    }
}

// The refusal of the sample call, or 28 where that has none.
fn refuse_sweep(samples: Refusal) -> SweepAnswer
    ensures { result ≡ refused_sweep (if samples.number == 0 then refusal no_sweep else samples) }
{
    if samples.number == 0 {
        refuse(refusals::refusal(format::NO_SWEEP))
    } else {
        refuse(samples)
    }
}

// What the stamps of a sweep's rows tell.
fn found<C: Lent>(reading: &Reading, offset: u32, list: &[C], largest: u32) -> SweepAnswer
    requires { Rows reading.now (length (C.samples list.now)) }
    ensures { result ≡ sweep_answer offset (first_wrong largest (stamps_in reading.now (C.samples list.now))) }
{
    let m = reading.sizes[0] as usize;
    let rows = reading.sizes[1] as usize;
    let wrong = roof_steps::wrong_row(list, rows, m, largest);
    SweepAnswer {
        refusal: refusals::FINE,
        offset,
        wrong: wrong.is_some(),
        row: wrong.unwrap_or(0) as u64,
    }
}

// The samples of a sweep to the front of the list, of numbers or of bytes, 8 for each sample; its offset, and the first row with a wrong step. The list is
// untouched where the call is refused; a rest of bytes too short for a sample stays.
pub fn sweep<C: Stamped>(file: &[u8], list: &mut [C], largest: u64) -> SweepAnswer
    ensures { ◌≡◌ {A = SweepAnswer × List C} (result, list.new) (let a = sweep_call file.now (C.samples list.old) largest in (a.0, C.lent a.1 list.old)) }
{
    let reading = read_header::read::read_header(file).reading;
    let room = C::entries(list);
    match offset_for(file, &reading, largest) {
        // no condition of 28 looks at a sample: where one holds, samples are checked and not stored
        None => refuse_sweep(data_samples::check_samples(file, b"", room).refusal),
        Some(offset) => {
            let filled = data_samples::samples(file, b"", list);
            if filled.refusal.number != 0 {
                return refuse(filled.refusal);
            }
            found(&reading, offset, list, largest as u32)
        }
    }
}

// The same for a list of bytes.
pub fn sweep_to_bytes(file: &[u8], list: &mut [u8], largest: u64) -> SweepAnswer
    ensures { ◌≡◌ {A = SweepAnswer × List ℕ} (result, list.new) (sweep_entry file.now list.old largest) }
{
    sweep(file, list, largest)
}

// Trials of the call hold of the definitions.
pub fn sweep_trials() -> u64
    ensures { SweepTrials }
{
    0
}

// So do the laws that say what the call means.
pub fn sweep_laws() -> u64
    ensures { SweepLaws }
{
    0
}
