//! Writing fields at the end of bytes. Where a call finds no memory, it may have added a part.
ghost use Rattle.std.specs.Prelude.{◌≡◌, [], ◌++◌, ◌<◌, ◌^◌, Bool, List, ℕ, length, OnOk, IsTrue, All};
ghost use Rattle.std.specs.Int.{w8, w16, w32, w64, to_le_bytes};
ghost use Rattle.std.specs.List.{flat_map};
ghost use Rattle.td_cols.specs.Kinds.{is_in_range};
ghost use Rattle.td_codec.specs.Fields.{kind_number, signed_64};
ghost use Rattle.td_codec.specs.Values.{cell, cell_list, win_key, win_key_list, win_row_behind, win_row_list};
ghost use Rattle.td_codec.specs.Writing.{win_row_fits};

use td_cols::{Kind, store};
use td_layer::{Cell, Name, NoMem};
use td_model::{WinKey, WinRow};

/// Adds a byte.
pub fn put_u8(out: &mut Name, number: u8) -> Result<(), NoMem>
    ensures { OnOk result (out.new ≡ out.old ++ to_le_bytes w8 number) }
{
    out.extend(&number.to_le_bytes())?;
    Ok(())
}

/// Adds a number of 16 bits.
pub fn put_u16(out: &mut Name, number: u16) -> Result<(), NoMem>
    ensures { OnOk result (out.new ≡ out.old ++ to_le_bytes w16 number) }
{
    out.extend(&number.to_le_bytes())?;
    Ok(())
}

/// Adds a number of 32 bits.
pub fn put_u32(out: &mut Name, number: u32) -> Result<(), NoMem>
    ensures { OnOk result (out.new ≡ out.old ++ to_le_bytes w32 number) }
{
    out.extend(&number.to_le_bytes())?;
    Ok(())
}

/// Adds a number of 64 bits.
pub fn put_u64(out: &mut Name, number: u64) -> Result<(), NoMem>
    ensures { OnOk result (out.new ≡ out.old ++ to_le_bytes w64 number) }
{
    out.extend(&number.to_le_bytes())?;
    Ok(())
}

/// Adds a number of 64 bits in two's complement.
#[tactic(auto, unfolding(crate::specs::Fields::signed_64))]
pub fn put_i64(out: &mut Name, number: i64) -> Result<(), NoMem>
    ensures { OnOk result (out.new ≡ out.old ++ signed_64.spelled number) }
{
    put_u64(out, number.cast_unsigned())?;
    Ok(())
}

/// Adds a number of 128 bits in two's complement.
#[tactic(auto, unfolding(td_cols::specs::Kinds::kind_width))]
pub fn put_i128(out: &mut Name, number: i128) -> Result<(), NoMem>
    requires { IsTrue (is_in_range Kind.Wide number) }
    ensures { OnOk result (out.new ≡ out.old ++ (kind_number Kind.Wide).spelled number) }
{
    let mut bytes = [0; 16];
    store(Kind::Wide, number, &mut bytes);
    out.extend(&bytes)?;
    Ok(())
}

/// Adds a text: its length in 16 bits, and its bytes.
#[tactic(auto, using(std::proofs::lemmas::List::append_assoc))]
pub fn put_text(out: &mut Name, text: &[u8]) -> Result<(), NoMem>
    requires { length text.now < 2 ^ 16 }
    ensures { OnOk result (out.new ≡ out.old ++ (to_le_bytes w16 (length text.now) ++ text.now)) }
{
    put_u16(out, text.len() as u16)?;
    out.extend(text)?;
    Ok(())
}

/// Adds a cell.
#[tactic(auto, using(std::proofs::lemmas::List::append_assoc), unfolding(crate::specs::Values::cell, crate::specs::Values::cell_form, crate::specs::Values::truth, crate::specs::Values::fraction, crate::specs::Values::text))]
pub fn put_cell(out: &mut Name, value: &Cell) -> Result<(), NoMem>
    requires { IsTrue (cell.fits value.now) }
    ensures { OnOk result (out.new ≡ out.old ++ cell.spelled value.now) }
{
    match value {
        Cell::Null => out.add(0)?,
        Cell::Truth(false) => out.extend(&[1, 0])?,
        Cell::Truth(true) => out.extend(&[1, 1])?,
        Cell::Num(number) => {
            out.add(2)?;
            put_i128(out, *number)?;
        }
        Cell::Frac { sum, count } => {
            out.add(3)?;
            put_i128(out, *sum)?;
            put_u64(out, *count)?;
        }
        Cell::Str(text) => {
            out.add(4)?;
            put_text(out, text.as_slice())?;
        }
    }
    Ok(())
}

/// A value that stands as bytes in one way.
pub trait Written {
    /// Its bytes.
    ghost spelled: { Self → List ℕ };

    /// Whether it has any.
    ghost writable: { Self → Bool };

    /// Adds its bytes.
    fn put(&self, out: &mut Name) -> Result<(), NoMem>
        requires { IsTrue (writable self.now) }
        ensures { OnOk result (out.new ≡ out.old ++ spelled self.now) };
}

/// Adds a list: its count in 32 bits, and its items.
pub fn put_list<T: Written>(out: &mut Name, items: &[T]) -> Result<(), NoMem>
    requires few { length items.now < 2 ^ 32 }
    requires writable { All (λ x. IsTrue (T.writable x)) items.now }
    ensures { OnOk result (out.new ≡ out.old ++ (to_le_bytes w32 (length items.now) ++ flat_map T.spelled items.now)) }
{
    put_u32(out, items.len() as u32)?;
    for item in items {
        item.put(out)?;
    }
    Ok(())
}

impl Written for Cell {
    ghost spelled = { cell.spelled };

    ghost writable = { cell.fits };

    fn put(&self, out: &mut Name) -> Result<(), NoMem> {
        put_cell(out, self)?;
        Ok(())
    }
}

/// Adds a list of cells.
#[tactic(auto, unfolding(crate::specs::Values::cell_list))]
pub fn put_cells(out: &mut Name, cells: &[Cell]) -> Result<(), NoMem>
    requires { IsTrue (cell_list.fits cells.now) }
    ensures { OnOk result (out.new ≡ out.old ++ cell_list.spelled cells.now) }
{
    put_list(out, cells)?;
    Ok(())
}

#[tactic(auto, using(std::proofs::lemmas::List::append_assoc), unfolding(crate::specs::Values::win_key))]
impl Written for WinKey {
    ghost spelled = { win_key.spelled };

    ghost writable = { win_key.fits };

    fn put(&self, out: &mut Name) -> Result<(), NoMem> {
        put_cells(out, self.part.as_slice())?;
        put_i64(out, self.start)?;
        Ok(())
    }
}

#[tactic(auto, using(std::proofs::lemmas::List::append_assoc), unfolding(crate::specs::Values::win_row_behind))]
impl Written for WinRow {
    ghost spelled = { (win_row_behind []).spelled };

    ghost writable = { win_row_fits };

    fn put(&self, out: &mut Name) -> Result<(), NoMem> {
        self.key.put(out)?;
        put_i64(out, self.end)?;
        put_cells(out, self.cells.as_slice())?;
        Ok(())
    }
}

/// Adds a list of windows, each after the one before it.
#[tactic(auto, unfolding(crate::specs::Values::win_key_list, crate::specs::Values::win_keys))]
pub fn put_win_keys(out: &mut Name, keys: &[WinKey]) -> Result<(), NoMem>
    requires { IsTrue (win_key_list.fits keys.now) }
    ensures { OnOk result (out.new ≡ out.old ++ win_key_list.spelled keys.now) }
{
    put_list(out, keys)?;
    Ok(())
}

/// Adds a list of rows, each window after the one before it.
#[tactic(auto, unfolding(crate::specs::Values::win_row_list, crate::specs::Values::win_rows))]
pub fn put_win_rows(out: &mut Name, rows: &[WinRow]) -> Result<(), NoMem>
    requires { IsTrue (win_row_list.fits rows.now) }
    ensures { OnOk result (out.new ≡ out.old ++ win_row_list.spelled rows.now) }
{
    put_list(out, rows)?;
    Ok(())
}
