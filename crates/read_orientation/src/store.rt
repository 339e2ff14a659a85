// Vectors in lent bytes, one after the other, 16 bytes a component.
ghost use Rattle.std.specs.Prelude.{◌≡◌, ◌*◌, ◌≤◌, length};
ghost use Rattle.std.proofs.lemmas.List.Edits.{sets};
ghost use Rattle.format.specs.Limits.{max_header};
ghost use Rattle.format.specs.Vectors.{vector_words};
ghost use Rattle.format.specs.Boundary.{decimals_bytes};
ghost use Rattle.read_orientation.specs.Told.{directions_in, columns_in, Columns};

use format::Decimal;

// How many bytes a decimal has.
pub(crate) const DECIMAL: usize = 16;

// The directions of so many axes, in a space of n dimensions.
pub(crate) fn put_directions(list: &mut [u8], t: &[u8], axes: usize, n: usize)
    requires { (length t.now ≤ max_header) × (n ≤ 8) × (16 * (n * axes) ≤ length list.old) }
    ensures { list.new ≡ sets list.old 0 (decimals_bytes (directions_in n (vector_words t.now) axes)) }
{
    for i in 0..axes {
        let parts = read_vectors::list::nth_direction(t, i, n).unwrap_or(
            read_vectors::vector::blank_column(),
        );
        lent_decimals::put_column(list, DECIMAL * (n * i), parts, n);
    }
}

// The first n entries of the first n columns, one column after the other.
pub(crate) fn put_columns(list: &mut [u8], m: [[Decimal; 8]; 8], n: usize)
    requires { Columns m × (n ≤ 8) × (16 * (n * n) ≤ length list.old) }
    ensures { list.new ≡ sets list.old 0 (decimals_bytes (columns_in n m n)) }
{
    for c in 0..n {
        let column = m[c];
        lent_decimals::put_column(list, DECIMAL * (n * c), column, n);
    }
}
