// A line table: filled, compared with the lines of a file, and moved with them.
ghost use Rattle.std.specs.Prelude.{◌≡◌, ◌≤◌, length, take};
ghost use Rattle.format.specs.Bytes.{same, over};
ghost use Rattle.format.specs.Limits.{max_file};
ghost use Rattle.format.specs.Settings.{table_fine};
ghost use Rattle.read_table.specs.Tables.{Lined, starts_of};
ghost use Rattle.read_table.specs.Shifts.{moved_by, moved_entries, Shiftable};

use crate::cells::Entry;
use read_lines::LineEnds;

// Writes where each of the first `count` lines starts to the front of the table.
pub fn fill<E: Entry>(file: &[u8], table: &mut [E], count: usize)
    requires lined { Lined file.now 0 count }
    requires room { count ≤ length (E.entries table.old) }
    ensures { table.new ≡ E.holding (over (starts_of file.now count) (E.entries table.old)) table.old }
{
    E::know(table);
    let mut at = 0;
    for k in 0..count {
        E::put(table, k, at as u32);
        let Some(LineEnds { next, .. }) = read_lines::line_at(file, at) else {
            return;
        };
        at = next;
    }
}

// Whether the first n entries are where the first n lines start. It stands beside `fill`, since a closure that holds the table has no proof.
fn starts_match<E: Entry>(file: &[u8], table: &[E], n: usize) -> bool
    requires lined { Lined file.now 0 n }
    requires room { n ≤ length (E.entries table.now) }
    ensures { result ≡ same (take n (E.entries table.now)) (starts_of file.now n) }
{
    let mut at = 0;
    for k in 0..n {
        if E::get(table, k) != at as u32 {
            return false;
        }
        let Some(LineEnds { next, .. }) = read_lines::line_at(file, at) else {
            return false;
        };
        at = next;
    }
    true
}

// Whether the table and its count are those of the file's first lines.
pub fn is_table<E: Entry>(file: &[u8], lines: usize, table: &[E], count: usize) -> bool
    requires { Lined file.now 0 lines }
    ensures { result ≡ table_fine (E.entries table.now) count (starts_of file.now lines) }
{
    count == lines && count <= E::count(table) && starts_match(file, table, count)
}

// An edit of a file: the bytes between `from` and `to` become others, which end at `front`. `more` lines, at most one, are new:
// that one is line 2, and starts at `from`.
#[derive(Clone, Copy)]
pub struct Edit {
    pub from: usize,
    pub to: usize,
    pub front: usize,
    pub more: usize,
}

impl Edit {
    // Where a line that started at x starts after the edit.
    fn moved(self, x: u32) -> u32
        requires { moved_by self.to self.front x ≤ max_file }
        ensures { result ≡ moved_by self.to self.front x }
    {
        let Edit { to, front, .. } = self;
        let at = x as usize;
        if at < to {
            x
        } else {
            (front + (at - to)) as u32
        }
    }
}

// Moves the first `count` entries with their lines, those after a new line by one place more.
pub fn shift<E: Entry>(table: &mut [E], count: usize, edit: Edit)
    requires { Shiftable (E.entries table.old) count edit.more edit.from edit.to edit.front }
    ensures { table.new ≡ E.holding (over (moved_entries edit (take count (E.entries table.old))) (E.entries table.old)) table.old }
{
    E::know(table);
    for k in (0..count).rev() {
        let x = E::get(table, k);
        E::put(table, edit.more + k, edit.moved(x));
    }
    if edit.more != 0 {
        E::put(table, 1, edit.from as u32);
    }
}
