//! Laws: each field has one spelling. What is read is spelled so; what fits and is spelled so is read, whatever stands
//! behind it; and a fault is a place within the bytes.
ghost use Rattle.std.specs.Prelude.{List, ℕ, Bool};
ghost use Rattle.std.specs.Int.{w8, w16, w32, w64};
ghost use Rattle.td_codec.specs.Fields.{SpellsOnce, number, kind_number, signed_64};
ghost use Rattle.td_codec.specs.Values.{text, cell, cell_list, win_key_list, win_row_list};

use td_cols::Kind;

/// Numbers have one spelling.
pub fn numbers_spell_once()
    ensures byte { SpellsOnce (number w8) }
    ensures of_16_bits { SpellsOnce (number w16) }
    ensures of_32_bits { SpellsOnce (number w32) }
    ensures of_64_bits { SpellsOnce (number w64) }
    ensures signed { SpellsOnce signed_64 }
{}

/// Numbers of a kind have one spelling.
pub fn kinds_spell_once(kind: Kind)
    ensures { SpellsOnce (kind_number kind) }
{}

/// Texts whose bytes pass a test have one spelling.
pub fn texts_spell_once()
    ensures { (good : List ℕ → Bool) → SpellsOnce (text good) }
{}

/// Cells and lists of cells have one spelling.
pub fn cells_spell_once()
    ensures one { SpellsOnce cell }
    ensures list { SpellsOnce cell_list }
{}

/// Lists of windows and of rows, each after the one before it, have one spelling.
pub fn windows_spell_once()
    ensures keys { SpellsOnce win_key_list }
    ensures rows { SpellsOnce win_row_list }
{}
