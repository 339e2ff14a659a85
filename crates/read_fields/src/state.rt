// What the reader keeps of the fields given so far, and the reading that they make.
ghost use Rattle.std.specs.Prelude.{◌≡◌, ◌+◌, ◌≤◌, true, false, List, length, IfOk};
ghost use Rattle.format.specs.Limits.{max_axes};
ghost use Rattle.format.specs.Fields.{Given, is_given, sizes};
ghost use Rattle.format.specs.Descriptors.{endian_needed, sizes_of, space_size_of, has_needed, end_is_raw, capped, extent_of, file_count_of, is_detached, names_follow};
ghost use Rattle.format.specs.Reasons.{refusal_number};
ghost use Rattle.format.specs.Answers.{reading_answered};
ghost use Rattle.read_fields.specs.States.{flags, numbers_of, Holds, no_state, shuts, lists, kept_step, complete_number, finished};

use format::reason::{Reason, Refused};
use format::{Reading, field};
use format_values::{products, types};
use read_descriptors::check::Said;
use read_files::cover::Cover;

// Of the lines so far: the version, which fields are given, their numbers, the sizes, whether the data is found from the end, and how many axes a data file covers,
// where there may be several. The numbers are numbers, and no enums, since the field is their index: of which list one is goes by the field.
#[derive(Clone, Copy)]
pub struct State {
    pub version: u32,
    pub given: [bool; field::COUNT],
    pub numbers: [u32; field::COUNT],
    pub sizes: [u64; format::AXES],
    pub from_end: bool,
    pub cover: Option<Cover>,
}

// What a right line comes to: it closes the header, it gives nothing, as a comment or a pair, or it gives a field, which says something.
#[derive(Clone, Copy)]
pub enum Step {
    Closes,
    Passes,
    Gives(usize, Said),
}

impl Step {
    // Whether it closes the header.
    pub fn closes(self) -> bool
        ensures { result ≡ shuts self }
    {
        matches!(self, Step::Closes)
    }

    // Whether it says that names follow.
    pub fn lists(self) -> bool
        ensures { result ≡ lists self }
    {
        match self {
            Step::Gives(
                _,
                Said {
                    files: Some(files),
                    ..
                },
            ) => files.is_listed(),
            _ => false,
        }
    }
}

// Whether the order of a sample's bytes matters: raw or hex samples of several bytes.
fn endian_needed(t: u32, e: u32) -> bool
    ensures { result ≡ endian_needed t e }
{
    (1 < types::sample_bytes(t as u64)) & ((e == format::RAW) | (e == format::HEX))
}

impl State {
    // No field is given.
    #[tactic(auto, unfolding(format::specs::Fields::descriptor_of, format::specs::Bytes::each))]
    pub fn new(version: u32) -> State
        ensures { result ≡ no_state version }
    {
        let mut numbers = [0u32; field::COUNT];
        numbers[field::ENDIAN] = format::NO_ENDIAN;
        numbers[field::SPACE] = format::NO_SPACE;
        State {
            version,
            given: [false; field::COUNT],
            numbers,
            sizes: [0u64; format::AXES],
            from_end: false,
            cover: None,
        }
    }

    // Keeps what a line gives: that the field is given, and what it says; no flag and no number changes past the last field.
    pub fn keep(&mut self, step: Step)
        ensures { self.new ≡ kept_step step self.old }
    {
        if let Step::Gives(f, said) = step {
            if f < field::COUNT {
                self.given[f] = true;
                self.numbers[f] = said.number;
            }
            self.from_end = said.from_end | self.from_end;
            if let Some(files) = said.files {
                self.cover = files.cover();
            }
        }
    }

    // Whether a data file is given.
    #[tactic(auto, using(crate::proofs::States::detached_is))]
    pub fn is_detached(&self) -> bool
        ensures { (gs : List Given) → Holds self.now gs → result ≡ is_detached gs }
    {
        self.given[field::DATA_FILE]
    }

    // The dimension of the space, by its name or as it is given.
    #[tactic(auto, using(crate::proofs::States::size_is))]
    pub(crate) fn space_size(&self) -> u32
        ensures { (gs : List Given) → self.now.given ≡ flags gs → self.now.numbers ≡ numbers_of gs → result ≡ space_size_of gs }
    {
        if self.given[field::SPACE] {
            format_values::spaces::size(self.numbers[field::SPACE])
        } else {
            self.numbers[field::SPACE_DIMENSION]
        }
    }

    // Whether the fields that are needed are given.
    #[tactic(auto, using(crate::proofs::States::needed_is))]
    fn has_needed(&self) -> bool
        ensures { (gs : List Given) → Holds self.now gs → result ≡ has_needed gs }
    {
        let endian = self.given[field::ENDIAN]
            | !endian_needed(self.numbers[field::TYPE], self.numbers[field::ENCODING]);
        self.given[field::DIMENSION]
            & (self.given[field::TYPE]
                & (self.given[field::ENCODING] & (self.given[field::SIZES] & endian)))
    }

    // Whether a byte skip from the end, if it is one, stands with raw.
    #[tactic(auto, using(crate::proofs::States::raw_is))]
    fn end_is_raw(&self) -> bool
        ensures { (gs : List Given) → Holds self.now gs → result ≡ end_is_raw gs }
    {
        !self.from_end | (self.numbers[field::ENCODING] == format::RAW)
    }

    // The sizes given; no header has more axes than there is room for.
    #[tactic(auto, using(crate::proofs::States::axes_are))]
    pub(crate) fn axes(&self) -> &[u64]
        ensures sizes { (gs : List Given) → Holds self.now gs → is_given sizes gs ≡ true → result.now ≡ sizes_of gs }
        ensures few { length result.now ≤ max_axes }
    {
        let n = (self.numbers[field::DIMENSION] as usize).min(format::AXES);
        &self.sizes[..n]
    }

    // The extent, or the least number that is none where it is above.
    fn extent(&self) -> u64
        ensures { (gs : List Given) → Holds self.now gs → is_given sizes gs ≡ true → result ≡ capped (extent_of gs) }
    {
        products::times(
            types::sample_bytes(self.numbers[field::TYPE] as u64),
            products::product(self.axes()),
        )
    }

    // The extent of a header that these fields make; `last` is the number of the last data file, counted from 0.
    fn complete(&self, last: u32) -> Result<u64, Reason>
        ensures refused { (gs : List Given) → Holds self.now gs → last + 1 ≡ file_count_of gs → refusal_number result ≡ complete_number gs }
        ensures extent { (gs : List Given) → Holds self.now gs → last + 1 ≡ file_count_of gs → IfOk result (λ x. x ≡ extent_of gs) }
    {
        if !self.has_needed() {
            return Err(Reason::MissingField);
        }
        if !self.end_is_raw() {
            return Err(Reason::BadDescriptor);
        }
        let extent = self.extent();
        if format::MAX_EXTENT < extent {
            return Err(Reason::ExtentTooLarge);
        }
        if !crate::files::fit(self.axes(), self.cover, last) {
            return Err(Reason::BadDescriptor);
        }
        Ok(extent)
    }

    // The reading at the end of a header of so many bytes and lines, `fieldlines` of them before the names under LIST; `last` is the number of the last data file,
    // counted from 0.
    pub fn finish(
        &self,
        last: u32,
        bytes: usize,
        lines: u32,
        fieldlines: u32,
    ) -> Result<Reading, Refused>
        ensures { (gs : List Given) → Holds self.now gs → last + 1 ≡ file_count_of gs → reading_answered result ≡ finished self.now.version gs bytes lines fieldlines }
    {
        let extent = self.complete(last)?;
        Ok(Reading {
            version: self.version,
            form: self.is_detached() as u32,
            dimension: self.numbers[field::DIMENSION],
            sampletype: self.numbers[field::TYPE],
            encoding: self.numbers[field::ENCODING],
            endian: self.numbers[field::ENDIAN],
            sizes: self.sizes,
            lineskip: self.numbers[field::LINE_SKIP] as u64,
            byteskip: self.numbers[field::BYTE_SKIP] as u64,
            extent,
            length: bytes as u64,
            lines,
            fromend: self.from_end,
            origin: self.given[field::SPACE_ORIGIN],
            directions: self.given[field::SPACE_DIRECTIONS],
            frame: self.given[field::MEASUREMENT_FRAME],
            space: self.numbers[field::SPACE],
            spacedimension: self.space_size(),
            files: last.saturating_add(1),
            fieldlines,
        })
    }

    // The number of the last data file, counted from 0, where no names follow.
    #[tactic(auto, using(crate::proofs::States::number_at, crate::proofs::Sharing::last_file))]
    pub fn last_file(&self) -> u32
        ensures { (gs : List Given) → Holds self.now gs → names_follow gs ≡ false → result + 1 ≡ file_count_of gs }
    {
        self.numbers[field::DATA_FILE]
    }
}
