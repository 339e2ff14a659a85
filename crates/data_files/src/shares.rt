// The shares of the samples that the files hold, all equal.
ghost use Rattle.std.specs.Prelude.{◌≡◌};
ghost use Rattle.data_files.specs.Asked.{Shared, share_in, share_answered};

use format::reason::{Reason, Refused};

// The file of a sample, and its byte there.
#[derive(Clone, Copy)]
pub(crate) struct Share {
    pub file: u64,
    pub byte: u64,
}

// How many samples and files there are, and how many bytes a sample has.
#[derive(Clone, Copy)]
pub(crate) struct Shares {
    pub samples: u64,
    pub files: u64,
    pub bytes: u64,
}

impl Shares {
    // The share of a sample, or 23 where there is no such sample.
    pub(crate) fn share_of(self, sample: u64) -> Result<Share, Refused>
        requires { Shared self.samples self.files self.bytes }
        ensures { share_answered result ≡ share_in self.samples self.files self.bytes sample }
    {
        if self.samples <= sample {
            return Err(Reason::BadCoordinates.into());
        }
        let share = self.samples / self.files;
        Ok(Share {
            file: sample / share,
            byte: sample % share * self.bytes,
        })
    }
}
