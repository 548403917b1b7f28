//! [formats] The head of a store: the catalog, the file sets and the streams at a committed version, in one file.
//!
//! [`decode`] gives the head that bytes are, or the place of the first field that is cut short or breaks its rule.
//! [`encode`] gives the bytes of a head. What a field may be can depend on what was read before: names differ, a
//! subtable has a supertable that is there and a cell for each of its tags, no file stands twice, day ranges and
//! numbers of streams rise.
//!
//! Promised: what is read is exactly the head that the bytes are, and the place of a fault exactly the first one; only
//! want of memory keeps `decode` from its answer. What `encode` gives is a head, and it is that one. What bytes are a
//! head is a relation of bytes and values, made of fields, and it is proved that bytes are one head at most, break the
//! form at one place, and that a head has one spelling. So what was written is read back.
//!
//! A head may name a file that isn't there, or have a stream whose text isn't accepted. Who finds that out is told where
//! it stands: [`place_of_file`] gives the place of a file's number, and [`place_of_stream`] that of the first stream's
//! text. It is proved that the number and the text stand there in the bytes.
//!
//! Reading takes time in proportion to the bytes: names and files that were read are kept in hash sets (`IndexSet`),
//! whose keys in their order are the names and the files so far; a supertable is found by its number. The columns of
//! one table, of which there are 288 at most, are compared one by one.
//!
//! It stands on `td_codec` for the fields, on `td_grammar` and `td_lex` for the words that may be names, on `td_cols`
//! for kinds, and on `td_model` for columns and windows.
#![tactic(auto)]

mod columns;
mod fault;
mod files;
mod head;
mod laws;
mod lists;
mod names;
mod places;
mod reading;
mod streams;
mod tables;
mod writing;

pub use fault::HeadFault;
pub use head::{Head, HeadSet, HeadStable, HeadStream, HeadTable};
pub use laws::{a_stream_stands_at_its_place, files_stand_at_their_places, one_head};
pub use places::{place_of_file, place_of_stream};
pub use reading::decode;
pub use writing::encode;
