// The entry points for C: numbers and lent bytes in, an answer by value out. Each is a call of a function of the library.
#![tactic(auto)]

ghost use Rattle.std.specs.Prelude.{◌≡◌, List, ℕ, ◌/◌, ◌≤◌, length};
ghost use Rattle.format.specs.declared.ReadAnswer.{ReadAnswer};
ghost use Rattle.format.specs.declared.ValueAnswer.{ValueAnswer};
ghost use Rattle.format.specs.declared.CountAnswer.{CountAnswer};
ghost use Rattle.format.specs.declared.WriteAnswer.{WriteAnswer};
ghost use Rattle.format.specs.declared.SetAnswer.{SetAnswer};
ghost use Rattle.format.specs.Limits.{max_listing};
ghost use Rattle.format.specs.Boundary.{word_bytes};
ghost use Rattle.format.specs.Header.{header};
ghost use Rattle.format.specs.Calls.{read_header_call, find_field_call, find_key_call, copy_value_call, data_place_call, check_samples_call};
ghost use Rattle.format.specs.Files.{file_count_call, file_name_call, sample_file_call};
ghost use Rattle.format.specs.Found.{FindsField, FindsKey};
ghost use Rattle.format.specs.Orientation.{origin_entry, directions_entry, frame_entry};
ghost use Rattle.format.specs.AxisRecords.{axes_entry};
ghost use Rattle.format.specs.EntryPoints.{read_entry, samples_entry, sample_number_entry, write_entry, write_header_entry, set_key_entry};
ghost use Rattle.format.specs.Listing.{listing_call};
ghost use Rattle.format.specs.Room.{Enough, table_room, samples_room, sizes_room, write_room, value_room, Copied, name_room, axes_room, set_room};

use format::{
    CountAnswer, DataAnswer, FindAnswer, NumberAnswer, ReadAnswer, SetAnswer, ShareAnswer,
    ValueAnswer, WriteAnswer,
};

// The reading of a file's header.
#[unsafe(no_mangle)]
pub extern "C" fn craneholt_read_header(file: &[u8]) -> ReadAnswer
    ensures { result ≡ read_header_call file.now }
{
    read_header::read::read_header(file)
}

// The reading of a file's header, and where each of its lines starts, 4 bytes each, at the front of the table.
#[unsafe(no_mangle)]
pub extern "C" fn craneholt_read(file: &[u8], table: &mut [u8]) -> ReadAnswer
    ensures call { ◌≡◌ {A = ReadAnswer × List ℕ} (result, table.new) (read_entry file.now table.old) }
    ensures enough { table_room ≤ length table.old → (result ≡ read_header_call file.now) × Enough result.refusal }
{
    read_header::read::read_to_bytes(file, table)
}

// Where the descriptor of a field lies in the file, or nowhere if the field is not given.
#[unsafe(no_mangle)]
pub extern "C" fn craneholt_find_field(file: &[u8], field: u32) -> FindAnswer
    ensures call { result ≡ find_field_call file.now field }
    ensures finds { FindsField file.now field (header file.now) result }
{
    read_lookup::descriptors::find_field(file, field)
}

// Where the value's text of a key lies in the file: that of its last value, escaped, or nowhere if no pair has the key.
#[unsafe(no_mangle)]
pub extern "C" fn craneholt_find_key(file: &[u8], key: &[u8]) -> FindAnswer
    ensures call { result ≡ find_key_call file.now key.now }
    ensures finds { FindsKey file.now key.now (header file.now) result }
{
    read_lookup::keys::find_key(file, key)
}

// The value of a key to the front of `out`, escapes resolved.
#[unsafe(no_mangle)]
pub extern "C" fn craneholt_copy_value(file: &[u8], key: &[u8], out: &mut [u8]) -> ValueAnswer
    ensures call { ◌≡◌ {A = ValueAnswer × List ℕ} (result, out.new) (copy_value_call file.now key.now out.old) }
    ensures enough { value_room (find_key_call file.now key.now) ≤ length out.old → Copied (find_key_call file.now key.now) result }
{
    read_lookup::keys::copy_value(file, key, out)
}

// Where the data lies: in the file or in the second one.
#[unsafe(no_mangle)]
pub extern "C" fn craneholt_data(file: &[u8], second: &[u8]) -> DataAnswer
    ensures { result ≡ data_place_call file.now second.now }
{
    data_place::place::data_place(file, second)
}

// The refusal that a list of `room` samples would meet, or how many samples there are.
#[unsafe(no_mangle)]
pub extern "C" fn craneholt_check_samples(file: &[u8], second: &[u8], room: usize) -> CountAnswer
    ensures { result ≡ check_samples_call file.now second.now room }
{
    data_samples::check_samples(file, second, room)
}

// The samples to the front of the list, 8 bytes each; untouched where they are refused.
#[unsafe(no_mangle)]
pub extern "C" fn craneholt_samples(file: &[u8], second: &[u8], list: &mut [u8]) -> CountAnswer
    ensures call { ◌≡◌ {A = CountAnswer × List ℕ} (result, list.new) (samples_entry file.now second.now list.old) }
    ensures enough { samples_room (header file.now) ≤ length list.old / word_bytes → Enough result.refusal }
    ensures known { samples_room (header file.now) ≤ sizes_room (read_header_call file.now).reading }
{
    data_samples::samples_to_bytes(file, second, list)
}

// The number of the sample at the coordinates, 8 bytes each.
#[unsafe(no_mangle)]
pub extern "C" fn craneholt_sample_number(file: &[u8], coords: &[u8]) -> NumberAnswer
    ensures { result ≡ sample_number_entry file.now coords.now }
{
    // one more than there can be axes
    let mut local = [0u64; format::AXES + 1];
    let n = lent_numbers::numbers(coords, &mut local);
    data_place::axes::sample_number(file, &local[..n])
}

// How many files hold the data.
#[unsafe(no_mangle)]
pub extern "C" fn craneholt_files(file: &[u8]) -> CountAnswer
    ensures { result ≡ file_count_call file.now }
{
    data_files::file_count(file)
}

// The name of the n-th file, counted from 0, to the front of `out`.
#[unsafe(no_mangle)]
pub extern "C" fn craneholt_file_name(file: &[u8], n: u64, out: &mut [u8]) -> WriteAnswer
    ensures call { ◌≡◌ {A = WriteAnswer × List ℕ} (result, out.new) (file_name_call file.now n out.old) }
    ensures enough { name_room ≤ length out.old → Enough result.refusal }
{
    data_files::file_name(file, n, out)
}

// Which file a sample is in, and the raw byte of that file's share where it starts.
#[unsafe(no_mangle)]
pub extern "C" fn craneholt_sample_file(file: &[u8], sample: u64) -> ShareAnswer
    ensures { result ≡ sample_file_call file.now sample }
{
    data_files::sample_file(file, sample)
}

// A record for each axis, 32 bytes each, at the front of the list.
#[unsafe(no_mangle)]
pub extern "C" fn craneholt_axes(file: &[u8], list: &mut [u8]) -> CountAnswer
    ensures call { ◌≡◌ {A = CountAnswer × List ℕ} (result, list.new) (axes_entry file.now list.old) }
    ensures enough { axes_room ≤ length list.old → Enough result.refusal }
{
    read_records::axes_to_bytes(file, list)
}

// Writes the samples, 8 bytes each as the sizes are, as an attached file to the front of `out`.
#[unsafe(no_mangle)]
pub extern "C" fn craneholt_write(
    version: u64,
    sizes: &[u8],
    sampletype: u64,
    encoding: u64,
    endian: u64,
    samples: &[u8],
    out: &mut [u8],
) -> WriteAnswer
    ensures call { ◌≡◌ {A = WriteAnswer × List ℕ} (result, out.new) (write_entry version sizes.now sampletype encoding endian samples.now out.old) }
    ensures enough { write_room (length samples.now / word_bytes) ≤ length out.old → Enough result.refusal }
{
    write_file::write_bytes(version, sizes, sampletype, encoding, endian, samples, out)
}

// The components of the origin, 16 bytes each, at the front of the list.
#[unsafe(no_mangle)]
pub extern "C" fn craneholt_origin(file: &[u8], list: &mut [u8]) -> CountAnswer
    ensures { ◌≡◌ {A = CountAnswer × List ℕ} (result, list.new) (origin_entry file.now list.old) }
{
    read_orientation::origin_to_bytes(file, list)
}

// The directions of all axes, axis 0 first, 16 bytes for each component, at the front of the list.
#[unsafe(no_mangle)]
pub extern "C" fn craneholt_directions(file: &[u8], list: &mut [u8]) -> CountAnswer
    ensures { ◌≡◌ {A = CountAnswer × List ℕ} (result, list.new) (directions_entry file.now list.old) }
{
    read_orientation::directions_to_bytes(file, list)
}

// The measurement frame, column after column, 16 bytes for each entry, at the front of the list.
#[unsafe(no_mangle)]
pub extern "C" fn craneholt_frame(file: &[u8], list: &mut [u8]) -> CountAnswer
    ensures { ◌≡◌ {A = CountAnswer × List ℕ} (result, list.new) (frame_entry file.now list.old) }
{
    read_orientation::frame_to_bytes(file, list)
}

// Writes a header with what is given of its orientation, in 3,232 bytes or none, to the front of `out`.
#[unsafe(no_mangle)]
pub extern "C" fn craneholt_write_header(
    version: u64,
    sizes: &[u8],
    sampletype: u64,
    encoding: u64,
    endian: u64,
    orientation: &[u8],
    out: &mut [u8],
) -> WriteAnswer
    ensures { ◌≡◌ {A = WriteAnswer × List ℕ} (result, out.new) (write_header_entry version sizes.now sampletype encoding endian orientation.now out.old) }
{
    write_header::write_header_bytes(
        version,
        sizes,
        sampletype,
        encoding,
        endian,
        orientation,
        out,
    )
}

// Sets a key to a value in the file in the first `used` bytes of a buffer, whose line table has `count` entries, 4 bytes each.
#[unsafe(no_mangle)]
pub extern "C" fn craneholt_set_key(
    buf: &mut [u8],
    used: usize,
    table: &mut [u8],
    count: usize,
    key: &[u8],
    value: &[u8],
) -> SetAnswer
    ensures call { ◌≡◌ {A = SetAnswer × (List ℕ × List ℕ)} (result, (buf.new, table.new)) (set_key_entry buf.old used table.old count key.now value.now) }
    ensures enough { table_room ≤ length table.old → set_room used key.now value.now ≤ length buf.old → Enough result.refusal }
{
    set_key::set::set_key_in_bytes(buf, used, table, count, key, value)
}

// The listing of a file to the front of `out`.
#[unsafe(no_mangle)]
pub extern "C" fn craneholt_listing(file: &[u8], out: &mut [u8]) -> WriteAnswer
    ensures call { ◌≡◌ {A = WriteAnswer × List ℕ} (result, out.new) (listing_call file.now out.old) }
    ensures enough { max_listing ≤ length out.old → Enough result.refusal }
{
    listing_text::listing(file, out)
}
