//! Writing a block.
ghost use Rattle.std.specs.Prelude.{◌≡◌, ◌++◌, ◌<◌, ◌^◌, length, OnOk, IfOk, IsTrue};
ghost use Rattle.std.specs.List.{AllByRecursion};
ghost use Rattle.td_block.specs.Columns.{is_fixed};
ghost use Rattle.td_block.specs.Rows.{IsRowOf, CanHold, columns_of};
ghost use Rattle.td_block.specs.Blocks.{head as head_field, columns, block_bytes};
ghost use Rattle.td_block.specs.Headers.{head_parts};

use crate::columns::push_column;
use crate::header::{BLOCK_MAGIC, Head, block_length};
use crate::rows::{column_at, push_births, push_times};
use std::alloc::Global;
use td_cols::Kind;
use td_layer::{NoMem, Partial, Seq};

/// Adds a head.
#[tactic(auto, unfolding(crate::specs::Blocks::head))]
fn push_head(out: &mut Vec<u8>, head: Head) -> Result<(), NoMem>
    ensures { OnOk result (out.new.items ≡ out.old.items ++ (head_field None).spelled (head_parts head)) }
{
    out.extend_from_slice(&BLOCK_MAGIC.to_le_bytes())?;
    out.extend_from_slice(&head.table.to_le_bytes())?;
    out.extend_from_slice(&head.rows.to_le_bytes())?;
    out.extend_from_slice(&head.columns.to_le_bytes())?;
    Ok(())
}

/// Adds the columns of rows, one behind the other.
fn push_columns(
    alloc: Global,
    out: &mut Vec<u8>,
    kinds: &[Kind],
    rows: &[(u64, Partial)],
) -> Result<(), NoMem>
    requires few { length rows.now < 2 ^ 32 }
    requires fixed { AllByRecursion (λ kind. IsTrue (is_fixed kind)) kinds.now }
    requires rows { AllByRecursion (IsRowOf kinds.now) rows.now }
    ensures { OnOk result (out.new.items ≡ out.old.items
        ++ (columns (length rows.now) kinds.now).spelled (columns_of (length kinds.now) rows.now)) }
{
    for column in 0..kinds.len() {
        let cells = column_at(alloc, rows, column)?;
        push_column(out, kinds[column], cells.as_slice())?;
    }
    Ok(())
}

/// The bytes of the block of these rows of a table, whose columns have these kinds.
#[tactic(auto, unfolding(crate::specs::Blocks::block, crate::specs::Blocks::block_parts))]
pub fn encode(
    alloc: Global,
    table: u32,
    kinds: &[Kind],
    rows: &[(u64, Partial)],
) -> Result<Seq<u8>, NoMem>
    requires { CanHold kinds.now table rows.now }
    ensures { IfOk result (λ bytes. bytes ≡ block_bytes kinds.now table rows.now) }
{
    let head = Head {
        table,
        rows: rows.len() as u32,
        columns: kinds.len() as u16,
    };
    let size = block_length(head.rows, kinds);
    let mut out = Vec::with_capacity(alloc, size as usize)?;
    push_head(&mut out, head)?;
    push_times(&mut out, rows)?;
    push_births(&mut out, rows)?;
    push_columns(alloc, &mut out, kinds, rows)?;
    Ok(Seq::from_vec(alloc, out))
}
