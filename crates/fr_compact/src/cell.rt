//! A cell as one record.
ghost use Rattle.std.specs.Prelude.{◌≡◌, ◌≤◌, ◌<◌, ◌^◌, length, IfOk};
ghost use Rattle.fr_record_node.specs.CellFile.{spelled_cell};

use crate::compact::Compact;
use crate::compact_node::CompactNode;
use fr_base::Memory;
use fr_register::{Cell, CellAsk};
use std::alloc::Global;

/// The bytes of the record before the value.
const FRONT: usize = 16;

/// A coordinator's cell over a file that lets go. It is made by `CompactNode::begin` or `CompactNode::read` with a cell
/// that was never asked.
pub type CompactCell<F> = CompactNode<Cell, F>;

/// The record of a cell: the ballot that it promised, that of its last write, and the value of that.
fn spelled(alloc: Global, cell: &Cell) -> Result<Vec<u8>, Memory>
    ensures bytes { IfOk result (λ bytes. bytes.items ≡ spelled_cell cell.now) }
    ensures short { IfOk result (λ bytes. length bytes.items < 2 ^ 32) }
{
    let value = cell.value();
    let mut bytes = Vec::with_capacity(alloc, FRONT + value.len())?;
    bytes.extend_from_slice(&cell.promised().get().to_be_bytes())?;
    bytes.extend_from_slice(&cell.written().get().to_be_bytes())?;
    bytes.extend_from_slice(value.as_slice())?;
    Ok(bytes)
}

/// One record spells the whole cell, also one that was never asked.
impl Compact for Cell {
    ghost use Rattle.std.specs.Prelude.{◌∷◌, []};
    ghost use Rattle.fr_record_node.specs.CellFile.{spelled_cell};

    ghost spelled = { λ c. spelled_cell c ∷ [] };

    ghost spare = { λ a. 0 };

    fn spell(&self, alloc: Global) -> Result<Vec<Vec<u8>>, Memory> {
        let mut group = Vec::new(alloc);
        group.push(spelled(alloc, self)?)?;
        Ok(group)
    }

    /// None: each write spells the whole cell, so the cell never grows beyond its one record.
    fn spare(_ask: &CellAsk) -> usize {
        0
    }

    fn leads_back() {}
}
