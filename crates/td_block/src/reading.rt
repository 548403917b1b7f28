//! Reading a block.
ghost use Rattle.std.specs.Prelude.{◌≡◌, ◌⊎◌, IfOk};
ghost use Rattle.std.specs.List.{AllByRecursion};
ghost use Rattle.td_layer.specs.Columns.{AreColumnCells};
ghost use Rattle.td_codec.specs.Fields.{Gives};
ghost use Rattle.td_block.specs.declared.block.Block.{Block as Found};
ghost use Rattle.td_block.specs.declared.block.BlockFault.TheVariants as faults;
ghost use Rattle.td_block.specs.Rows.{CanHold, HasNumbers};
ghost use Rattle.td_block.specs.Blocks.{block_read, decoded, Answers, Begins};

use crate::block::{Block, BlockFault, placed};
use crate::columns::columns_of;
use crate::header::front_of;
use crate::rows::{births_of, rows_from, times_of};
use std::alloc::Global;
use td_codec::ReadFault;
use td_cols::Kind;

/// The block at the front of the bytes.
#[tactic(auto, unfolding(crate::specs::Blocks::block, crate::specs::Blocks::block_parts))]
fn block_of(alloc: Global, kinds: &[Kind], bytes: &[u8]) -> Result<Block, ReadFault>
    ensures { Gives (λ found. found) result (block_read kinds.now bytes.now) }
{
    let (head, rest) = front_of(Some(kinds.len()), bytes)?;
    let (times, rest) = times_of(alloc, head.rows, rest)?;
    let (births, rest) = births_of(alloc, head.rows, rest)?;
    let (columns, rest) = columns_of(alloc, head.rows, kinds, rest)?;
    let rows = rows_from(
        alloc,
        times.as_slice(),
        births.as_slice(),
        columns.as_slice(),
    )?;
    Ok(Block {
        table: head.table,
        rows,
        used: bytes.len().saturating_sub(rest.len()) as u64,
    })
}

/// The block of columns of these kinds that begins the bytes, with its length. `Bad` comes exactly where none does,
/// with the place of the first field, in the order written, that is cut short or breaks its rule; each number, each
/// byte of a bitmap and each lane is a field of its own.
pub fn decode(alloc: Global, kinds: &[Kind], bytes: &[u8]) -> Result<Block, BlockFault>
    ensures exact { Answers result (decoded kinds.now bytes.now) }
    ensures begins { IfOk result (Begins kinds.now bytes.now) }
    ensures holds { IfOk result (λ found. CanHold kinds.now found.table found.rows) }
    ensures values { IfOk result (λ found. AllByRecursion (λ row. AreColumnCells row.1.cells) found.rows) }
    ensures only { (found : Found) → CanHold kinds.now found.table found.rows → HasNumbers found.table found.rows
        → Begins kinds.now bytes.now found → (result ≡ Ok found) ⊎ (result ≡ Err faults.NoMemory) }
{
    match block_of(alloc, kinds, bytes) {
        Ok(found) => Ok(found),
        Err(fault) => Err(placed(bytes.len(), fault)),
    }
}
