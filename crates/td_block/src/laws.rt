//! Laws: a list of rows has one block, no block begins another, and a header is that of the block.
ghost use Rattle.std.specs.Prelude.{◌≡◌, ℕ, true, List, ◌++◌, length, Ok};
ghost use Rattle.td_cols.specs.declared.kinds.Kind.{Kind as KindOf};
ghost use Rattle.td_cols.specs.Spelling.{AreBytes};
ghost use Rattle.td_codec.specs.Fields.{SpellsOnce};
ghost use Rattle.td_block.specs.Rows.{Rows, CanHold, HasNumbers};
ghost use Rattle.td_block.specs.Blocks.{Held, block, block_bytes, decoded};
ghost use Rattle.td_block.specs.Headers.{block_length, header_read, header_of_block};

/// Blocks have one spelling: what is read is spelled so; what can be held and is spelled so is read, whatever stands
/// behind it.
pub fn blocks_spell_once()
    ensures { (kinds : List KindOf) → SpellsOnce (block kinds) }
{}

/// What has a spelling is what a block can hold.
pub fn blocks_hold()
    ensures fits { (kinds : List KindOf) (table : ℕ) (rows : Rows) → CanHold kinds table rows → HasNumbers table rows
        → (block kinds).fits (table, rows) ≡ true }
    ensures holds { (kinds : List KindOf) (table : ℕ) (rows : Rows) → (block kinds).fits (table, rows) ≡ true
        → CanHold kinds table rows × HasNumbers table rows }
{}

/// Bytes begin with one block of the same kinds at most, so no block's bytes begin those of another. What was written
/// is read, whatever stands behind it, and the bytes that it takes are its length.
pub fn one_block()
    ensures one { (kinds : List KindOf) (a b : Held) (x y : List ℕ) → (block kinds).fits a ≡ true
        → (block kinds).fits b ≡ true → (block kinds).spelled a ++ x ≡ (block kinds).spelled b ++ y
        → (a ≡ b) × (x ≡ y) }
    ensures again { (kinds : List KindOf) (table : ℕ) (rows : Rows) (rest : List ℕ)
        → CanHold kinds table rows → HasNumbers table rows → decoded kinds (block_bytes kinds table rows ++ rest)
        ≡ Ok (record { table = table; rows = rows; used = length (block_bytes kinds table rows) }) }
{}

/// A block of any kinds has its header, and takes as many bytes as that says.
pub fn blocks_have_headers()
    ensures header { (kinds : List KindOf) (bytes : List ℕ) (held : Held) (rest : List ℕ) → AreBytes bytes
        → (block kinds).read bytes ≡ Ok (held, rest)
        → header_read bytes ≡ Ok (header_of_block kinds held.0 held.1, rest) }
    ensures size { (kinds : List KindOf) (table : ℕ) (rows : Rows) → CanHold kinds table rows
        → length (block_bytes kinds table rows) ≡ block_length (length rows) kinds }
{}
