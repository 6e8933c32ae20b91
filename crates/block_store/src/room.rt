//! Room beside the sets, in which the phases keep what they read.

ghost use Rattle.std.specs.Prelude.{◌≡◌, ◌≤◌, ◌*◌, IfOk, length, vec_len};

use crate::set::Cell;
use bit_planes::Plane;
use cstar_base::Memory;
use std::alloc::Global;

/// A cell for each block of the largest set, and room for the planes of one field of each block: those
/// of a block lie side by side, behind those of the block before it.
#[derive(Drop)]
pub struct Room {
    pub cells: Vec<Cell>,
    pub held: Vec<Plane>,
    pub ghost enough: { 32 * length cells.items ≤ length held.items },
}

impl Room {
    /// So many cells, and 32 planes for each. Their content means nothing. `Memory` where there is not
    /// memory for them.
    pub fn new(alloc: Global, cells: u32) -> Result<Room, Memory>
        ensures { IfOk result (λ room. vec_len room.cells ≡ cells) }
    {
        let empty = Cell {
            words: [0; 512],
            cuts: Plane::zero(),
        };
        let held = vec![in alloc; Plane::zero(); 32 * cells as usize]?;
        let cells = vec![in alloc; empty; cells as usize]?;
        Ok(Room { cells, held })
    }
}
