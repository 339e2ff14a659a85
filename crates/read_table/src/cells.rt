// What holds the entries of a line table: a list of u32, or lent bytes, 4 for each entry, the low byte first.
ghost use Rattle.std.specs.Prelude.{◌≡◌, ◌<◌, List, ℕ, length, set, slice_index};
ghost use Rattle.format.specs.Boundary.{entry_bytes, numbers_of, lent_numbers};
ghost use Rattle.read_table.specs.Entries.{HoldsEntries, list_holds, bytes_hold};

pub trait Entry: Sized {
    // the entries that the cells hold
    ghost entries: { List Self → List ℕ };

    // the cells once they hold these entries
    ghost holding: { List ℕ → List Self → List Self };

    // what the type says of its cells
    ghost whole: { List Self → Type 0 };

    ghost holds: { HoldsEntries entries holding whole };

    // Does nothing: by its clause generic code knows what the type says of the cells.
    fn know(cells: &[Self])
        ensures { whole cells.now };

    // How many entries there are.
    fn count(cells: &[Self]) -> usize
        ensures { result ≡ length (entries cells.now) };

    // Entry k.
    fn get(cells: &[Self], k: usize) -> u32
        requires { k < length (entries cells.now) }
        ensures { result ≡ slice_index (entries cells.now) k };

    fn put(cells: &mut [Self], k: usize, x: u32)
        requires { k < length (entries cells.old) }
        ensures entries { entries cells.new ≡ set (entries cells.old) k x }
        ensures cells { cells.new ≡ holding (set (entries cells.old) k x) cells.old };
}

impl Entry for u32 {
    ghost entries = { λ ns. ns };

    ghost holding = { λ ns d. ns };

    ghost whole = { λ d. Unit {0} };

    ghost holds = { list_holds };

    fn know(_cells: &[u32]) {}

    fn count(cells: &[u32]) -> usize {
        cells.len()
    }

    fn get(cells: &[u32], k: usize) -> u32 {
        cells[k]
    }

    fn put(cells: &mut [u32], k: usize, x: u32) {
        cells[k] = x;
    }
}

impl Entry for u8 {
    ghost entries = { numbers_of entry_bytes };

    ghost holding = { lent_numbers entry_bytes };

    ghost whole = { λ d. (i : ℕ) → slice_index d i < 256 };

    ghost holds = { bytes_hold };

    fn know(_bytes: &[u8]) {}

    fn count(bytes: &[u8]) -> usize {
        bytes.len() / 4
    }

    fn get(bytes: &[u8], k: usize) -> u32 {
        lent_numbers::entry_at(bytes, k)
    }

    fn put(bytes: &mut [u8], k: usize, x: u32) {
        lent_numbers::put_entry(bytes, k, x);
    }
}
