// The data of a file's samples, decoded by its encoding.
ghost use Rattle.std.specs.Prelude.{◌≡◌, ◌*◌, ◌≤◌, true, length};
ghost use Rattle.format.specs.declared.codes.Encoding.TheVariants.{Raw};
ghost use Rattle.format.specs.Widths.{is_width};

use format::codes::Encoding;
use format::reason::Reason;
use format::{BIG, Reading};
use format_values::types;
use lent_lists::Lent;

// So many samples of so many bytes each, signed or not, the high byte first or last.
#[derive(Clone, Copy)]
pub(crate) struct Data<'a> {
    pub bytes: &'a [u8],
    pub encoding: Encoding,
    pub count: usize,
    pub width: usize,
    pub signed: bool,
    pub big: bool,
    ghost is_width: { is_width width ≡ true },
    ghost enough: { encoding ≡ Raw → count * width ≤ length bytes.now },
}

impl<'a> Data<'a> {
    ghost use Rattle.std.specs.Prelude.{◌/◌};
    ghost use Rattle.format.specs.Bytes.{over};
    ghost use Rattle.format.specs.Descriptors.{sample_bytes};
    ghost use Rattle.format.specs.Reasons.{refusal_number};
    ghost use Rattle.data_samples.specs.Parts.{decoded_of, decoded_by, Decodable};

    // What a reading says of these bytes: the extent is so many times the bytes of a sample.
    pub(crate) fn of(reading: &Reading, bytes: &'a [u8]) -> Data<'a>
        requires { Decodable reading.now (reading.now.extent / sample_bytes reading.now.sampletype) bytes.now }
        ensures count { result.count ≡ reading.now.extent / sample_bytes reading.now.sampletype }
        ensures decoded { decoded_of result ≡ decoded_by reading.now (reading.now.extent / sample_bytes reading.now.sampletype) bytes.now }
    {
        let t = reading.sampletype as u64;
        let width = types::sample_bytes(t);
        Data {
            bytes,
            encoding: Encoding::try_from(reading.encoding as u64).unwrap_or(Encoding::Hex),
            count: (reading.extent / width) as usize,
            width: width as usize,
            signed: types::is_signed(t),
            big: reading.endian == BIG,
        }
    }

    // Whether all are samples of the type.
    pub(crate) fn check(&self) -> Result<(), Reason>
        ensures { refusal_number result ≡ (decoded_of self.now).number }
    {
        match self.encoding {
            Encoding::Raw => {
                data_raw::check(self.bytes, self.count, self.width, self.signed, self.big)
            }
            Encoding::Text => data_text::check(self.bytes, self.count, self.width, self.signed),
            Encoding::Hex => {
                data_hex::check(self.bytes, self.count, self.width, self.signed, self.big)
            }
        }
    }

    // The samples to the front of the list; none of them is refused.
    pub(crate) fn fill<C: Lent>(&self, list: &mut [C])
        requires none_refused { (decoded_of self.now).number ≡ 0 }
        requires room { self.now.count ≤ C.room (length list.old) }
        requires sound { C.Sound list.old }
        ensures { list.new ≡ C.lent (over (decoded_of self.now).seen (C.samples list.old)) list.old }
    {
        match self.encoding {
            Encoding::Raw => data_raw::fill(
                self.bytes,
                self.count,
                self.width,
                self.signed,
                self.big,
                list,
            ),
            Encoding::Text => {
                data_text::fill(self.bytes, self.count, self.width, self.signed, list)
            }
            Encoding::Hex => data_hex::fill(
                self.bytes,
                self.count,
                self.width,
                self.signed,
                self.big,
                list,
            ),
        }
    }
}
