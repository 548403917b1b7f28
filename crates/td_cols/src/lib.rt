//! [base] Typed lanes: numbers of a fixed width as little-endian bytes.
//!
//! A column has a [`Kind`]. Each kind but a text has numbers of a fixed range, each of which stands as 1, 2,
//! 4, 8 or 16 bytes. [`store`] writes such bytes and [`load`] reads them; a [`Lane`] does the same for a
//! width and a sign that the type says.
//!
//! Promised: a number in range has exactly one spelling of its width, which is loaded as that number, and
//! bytes of the width are the spelling of the number that they are loaded as. No call takes memory, and
//! none fails. The crate stands on `byteorder` and the standard library.
#![tactic(auto)]

mod bytes;
mod kinds;
mod lanes;

pub use kinds::{Kind, code, in_range, load, one_spelling, store, width};
pub use lanes::Lane;
