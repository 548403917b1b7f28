//! [formats] Reading and writing the bytes of a file in large pieces, over any reader and any writer.
//!
//! [`part_at`] reads so many bytes at a place of a file, or those that are left there. Small parts come from bytes
//! that were read [`Ahead`], 64 KiB at a time; a part of 16 KiB or more is read by itself. [`read_exact_at`] fills a
//! buffer by as many calls of the reader as it takes. [`put`] adds bytes to those that wait for a writer, and hands
//! them on once they are 64 KiB; [`flush`] hands on what still waits. A [`RowList`] is what a file takes: tables with
//! their cuts and rows; which blocks its rows make is a definition. A scan reads through [`FileBytes`], which each
//! reader is.
//!
//! Promised: what was read are exactly the bytes at that place, where the file tells its bytes, and a reader's
//! failure comes only where its count of faults rose. What a writer has and what waits are together exactly the bytes
//! that were put, and a failure comes only where the writer's count rose. [`placed`] gives a fault in a part as a
//! place in the file.
//!
//! It stands on `td_outside` for readers and writers, on `td_codec` for the faults of fields, on `td_layer` for lists.
#![tactic(auto)]

mod bytes;
mod days;
mod lists;
mod places;
mod reading;
mod writing;

pub use bytes::FileBytes;
pub use days::{day_end, day_start, is_in_day};
pub use lists::{RowList, TableRows, count_blocks, next_block};
pub use places::placed;
pub use reading::{Ahead, part_at, read_exact_at};
pub use writing::{flush, put};
