ghost use Rattle.std.specs.Prelude.{◌≡◌, length};
ghost use Rattle.meter.specs.Recording.{wiped, «record_answer», recorded};

use crate::kind::TableKind;
use crate::refusal::RecordRefusal;

// Marks every cell as unwritten, and answers how many there are.
pub fn wipe(table: &mut [u32]) -> usize
    ensures answer { result ≡ length table.old }
    ensures cells { table.new ≡ wiped table.old }
{
    table.fill(u32::MAX);
    table.len()
}

// Writes a load into a cell that holds none, and answers the cell.
pub fn record(
    table: &mut [u32],
    kind: TableKind,
    cell: u32,
    load: u32,
) -> Result<u32, RecordRefusal>
    ensures answer { result ≡ record_answer table.old kind cell load }
    ensures cells { table.new ≡ recorded table.old kind cell load }
{
    // By its index; tried: a slice's `get_mut` says the length after it and no cell, so what the table holds then stayed open.
    let place = cell as usize;
    if cell >= kind.span() || place >= table.len() {
        return Err(RecordRefusal::NoSuchCell);
    }
    let most = kind.limit();
    if load > most {
        return Err(RecordRefusal::LoadAboveLimit);
    }
    if table[place] <= most {
        return Err(RecordRefusal::CellTaken);
    }
    table[place] = load;
    Ok(cell)
}
