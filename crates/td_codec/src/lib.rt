//! [formats] The fields that files share: numbers, texts, cells, windows, and lists of them, read from the left and
//! written at the end.
//!
//! A function that reads a field takes the bytes from the field on, and answers the value with the bytes behind it.
//! Where the field is cut short or breaks its rule, it answers how many bytes are left at the first byte of the
//! first such field; so a place in a part of a file is a place in the file. A list is read by one loop, over an
//! [`ItemReader`], which may look at the items before, so that an order or distinct names are its business.
//!
//! A function that writes a field adds its bytes at the end of others; where it finds no memory, it may have added a
//! part. A list is written by one loop, over items that are [`Written`].
//!
//! Promised: a function that reads answers exactly what the definition of its field gives, unless memory runs out, and
//! one that writes adds exactly the bytes of the definition. Fields are made of fields, and it is proved of each that
//! what is read is spelled so, byte for byte; that what fits and is spelled so is read, whatever stands behind it; and
//! that a fault lies within the bytes. So a value has one spelling. The order of windows, and of the cells of their
//! partitions, is a definition that `win_order` and `cell_order` equal.
//!
//! It stands on `td_cols` for numbers of a kind, on `td_layer` and `td_model` for cells and windows.
#![tactic(auto)]

mod fault;
mod laws;
mod lists;
mod numbers;
mod values;
mod windows;
mod writing;

pub use fault::ReadFault;
pub use laws::{
    cells_spell_once, kinds_spell_once, numbers_spell_once, texts_spell_once, windows_spell_once,
};
pub use lists::{ItemReader, list_of};
pub use numbers::{i64_of, i128_of, number_of, u8_of, u16_of, u32_of, u64_of};
pub use values::{cell_of, cells_of, is_printable, printable_of};
pub use windows::{cell_order, win_key_of, win_keys_of, win_order, win_rows_of};
pub use writing::{
    Written, put_cell, put_cells, put_i64, put_i128, put_list, put_text, put_u8, put_u16, put_u32,
    put_u64, put_win_keys, put_win_rows,
};
