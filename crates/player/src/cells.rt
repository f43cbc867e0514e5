// The rows of the batch that a drop takes, cell by cell. An error is one of standard output.
ghost use Rattle.std.specs.Prelude.{◌≤◌};

use answers::{Cell, part};
use calls::Memories;
use capture::{Memory, Place};
use std::io;

// What prints the cells of a row, each behind the ones before it.
pub trait Cells {
    // How many columns are shown: no more than set-up allows.
    fn columns(&self) -> u32
        ensures { result ≤ 16 };

    // A cell's bytes, none for null.
    fn cell<R: Print>(&self, rt: &R, column: u32, bytes: Option<&[u8]>) -> io::Result<()>;
}

// The rows of the front batch: until a row is not there. `scratch` is for a buffer's bytes.
pub fn show(
    rt: &impl Print,
    cells: &impl Cells,
    memories: &Memories<'_>,
    scratch: &mut [u8],
) -> io::Result<()> {
    for row in 0..65536 {
        if !show_row(rt, cells, memories, scratch, row)? {
            break;
        }
    }
    Ok(())
}

// A row, up to a cell that is refused; whether there is any of it.
fn show_row(
    rt: &impl Print,
    cells: &impl Cells,
    memories: &Memories<'_>,
    scratch: &mut [u8],
    row: u32,
) -> io::Result<bool> {
    for column in 0..cells.columns() {
        match memories.cell(column, row) {
            Ok(cell) => show_cell(rt, cells, memories, scratch, column, cell)?,
            Err(_) if column == 0 => return Ok(false),
            Err(_) => {
                println!(rt)?;
                return Ok(true);
            }
        }
    }
    Ok(cells.columns() != 0)
}

// A cell with the bytes that it names, of the slots or of its buffer; null has none.
fn show_cell(
    rt: &impl Print,
    cells: &impl Cells,
    memories: &Memories<'_>,
    scratch: &mut [u8],
    column: u32,
    cell: Cell,
) -> io::Result<()> {
    match cell {
        Cell::Null => cells.cell(rt, column, None),
        Cell::InRow { place, length } => {
            let place = Place {
                memory: Memory::Slots,
                at: place,
            };
            cells.cell(rt, column, Some(memories.bytes(place, length)))
        }
        Cell::InBuffer {
            buffer,
            offset,
            length,
        } => {
            let size = memories.buffer(buffer, scratch).unwrap_or(0);
            let bytes = part(scratch, 0, size as usize);
            cells.cell(
                rt,
                column,
                Some(part(bytes, offset as usize, length as usize)),
            )
        }
    }
}
