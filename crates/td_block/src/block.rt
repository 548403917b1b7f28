//! What a block holds.
ghost use Rattle.std.specs.Prelude.{◌≡◌, ◌≤◌};
ghost use Rattle.td_block.specs.Blocks.{IsPlaced};

use td_codec::ReadFault;
use td_layer::{Partial, Seq};

/// What a block holds: the number of its table, its rows as timestamps and partials, and how many bytes it takes.
#[derive(Debug, Drop)]
pub struct Block {
    pub table: u32,
    pub rows: Seq<(u64, Partial)>,
    pub used: u64,
}

/// Why bytes were not read: the first field that is cut short or breaks its rule begins at a place; or there was no
/// memory.
#[derive(Clone, Copy, Debug, PartialEq, Eq)]
pub enum BlockFault {
    Bad(u64),
    NoMemory,
}

/// The place of a fault in so many bytes.
pub(crate) fn placed(bytes: usize, fault: ReadFault) -> BlockFault
    ensures { IsPlaced bytes fault result }
{
    match fault {
        ReadFault::NoMemory => BlockFault::NoMemory,
        ReadFault::Broken(left) => BlockFault::Bad(bytes.saturating_sub(left) as u64),
    }
}
