// Where a field of vectors lies in a file, and what the header says of them.
ghost use Rattle.read_orientation.specs.Told.{Told};

use format::reason::Refused;

// A field of vectors that a header gives.
#[derive(Clone, Copy)]
pub(crate) struct Field {
    // how many components a vector has
    pub size: usize,
    // where the descriptor starts and ends
    pub from: usize,
    pub to: usize,
}

// What an accepted header says: how many axes there are, and the field if it is given.
#[derive(Clone, Copy)]
pub(crate) struct Said {
    pub axes: u32,
    pub field: Option<Field>,
}

// What the header of a file says of the field of this number.
pub(crate) fn said_of(file: &[u8], field: u32) -> Result<Said, Refused>
    ensures { Told file.now field result }
{
    let reading = read_header::read::reading(file)?;
    let axes = reading.dimension;
    // a field stands before the names under LIST
    let Some(place) = read_lookup::descriptors::find_descriptor_in(file, field, reading.fieldlines)
    else {
        return Ok(Said { axes, field: None });
    };
    let from = place.start as usize;
    let to = from + place.length as usize;
    let size = reading.spacedimension as usize;
    Ok(Said {
        axes,
        field: Some(Field { size, from, to }),
    })
}
