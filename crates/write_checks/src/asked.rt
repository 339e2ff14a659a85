// What a call to a writer says of its array: the numbers that it is given, and what they are once they are checked.
ghost use Rattle.std.specs.Prelude.{◌≡◌, ◌≤◌, ◌&&◌, not, length};
ghost use Rattle.format.specs.Bytes.{between, is_in};
ghost use Rattle.format.specs.Limits.{max_version, max_axes};

use format::codes::{Encoding, Endian, SampleType};
use format::reason::Reason;

// The numbers of a call: any that its caller may give.
#[derive(Clone, Copy)]
pub struct Asked<'a> {
    pub version: u64,
    pub sizes: &'a [u64],
    pub sampletype: u64,
    pub encoding: u64,
    pub endian: u64,
}

impl Asked<'_> {
    // Whether there is such a version, and a header can have these sizes.
    fn is_sized(&self) -> bool
        ensures { result ≡ (between 1 max_version self.now.version && (between 1 max_axes (length self.now.sizes.now) && not (is_in 0 self.now.sizes.now))) }
    {
        match (self.version, self.sizes.len()) {
            (1..=format::MAX_VERSION, 1..=format::AXES) => !self.sizes.contains(&0),
            _ => false,
        }
    }
}

// What the data of an array is by: the type of its samples, and how they are written.
#[derive(Clone, Copy)]
pub struct Coding {
    pub sample_type: SampleType,
    pub encoding: Encoding,
    pub endian: Endian,
}

// An array with 1 to 16 axes.
#[derive(Clone, Copy)]
pub struct Array<'a> {
    pub version: u64,
    pub sizes: &'a [u64],
    pub coding: Coding,
    ghost axes_from: { 1 ≤ length sizes.now },
    ghost axes_to: { length sizes.now ≤ 16 },
}

impl<'a> TryFrom<Asked<'a>> for Array<'a> {
    type Error = Reason;

    ghost use Rattle.write_checks.specs.Checked.{checked_as};

    ghost try_from_gives = { λ asked array. checked_as asked array };

    // Refused are numbers that are out of their lists and ranges (11).
    fn try_from(asked: Asked<'a>) -> Result<Array<'a>, Reason> {
        let Ok(sample_type) = SampleType::try_from(asked.sampletype) else {
            return Err(Reason::BadDescriptor);
        };
        let Ok(encoding) = Encoding::try_from(asked.encoding) else {
            return Err(Reason::BadDescriptor);
        };
        let Ok(endian) = Endian::try_from(asked.endian) else {
            return Err(Reason::BadDescriptor);
        };
        if !asked.is_sized() {
            return Err(Reason::BadDescriptor);
        }
        Ok(Array {
            version: asked.version,
            sizes: asked.sizes,
            coding: Coding {
                sample_type,
                encoding,
                endian,
            },
        })
    }
}
