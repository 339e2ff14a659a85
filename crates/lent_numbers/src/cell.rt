// What samples are stored in: a list of i64, or lent bytes, 8 for each sample, the low byte first.
ghost use Rattle.std.specs.Prelude.{◌≡◌, ◌+◌, ◌*◌, ◌/◌, ◌≤◌, List, ℕ, ℤ, [], ◌∷◌, length};
ghost use Rattle.std.proofs.lemmas.List.Edits.{sets};
ghost use Rattle.format.specs.Boundary.{words_of_samples};
ghost use Rattle.lent_numbers.specs.Cells.{Stores, list_stores, byte_stores};

pub trait Cell: Sized {
    // samples as cells
    ghost store: { List ℤ → List Self };

    // where the cells of sample k begin
    ghost place: { ℕ → ℕ };

    // how many samples so many cells have room for
    ghost room: { ℕ → ℕ };

    ghost stores: { Stores store place room };

    fn room(cells: &[Self]) -> usize
        ensures { result ≡ room (length cells.now) };

    // where the cells of sample k begin, of cells that are enough for k samples
    fn place(cells: &[Self], k: usize) -> usize
        requires { place k ≤ length cells.now }
        ensures { result ≡ place k };

    fn put(cells: &mut [Self], k: usize, z: i64)
        requires { place (k + 1) ≤ length cells.old }
        ensures { cells.new ≡ sets cells.old (place k) (store (z ∷ [])) };
}

impl Cell for i64 {
    ghost store = { λ zs. zs };

    ghost place = { λ k. k };

    ghost room = { λ n. n };

    ghost stores = { list_stores };

    fn room(cells: &[i64]) -> usize {
        cells.len()
    }

    fn place(_: &[i64], k: usize) -> usize {
        k
    }

    fn put(cells: &mut [i64], k: usize, z: i64) {
        cells[k] = z;
    }
}

impl Cell for u8 {
    ghost store = { words_of_samples };

    ghost place = { λ k. 8 * k };

    ghost room = { λ n. n / 8 };

    ghost stores = { byte_stores };

    fn room(cells: &[u8]) -> usize {
        cells.len() / 8
    }

    fn place(_: &[u8], k: usize) -> usize {
        8 * k
    }

    fn put(cells: &mut [u8], k: usize, z: i64) {
        crate::put_sample(cells, k, z)
    }
}
