//! [base] Every limit and fixed size of the language and of the store, each with its unit.
//!
//! Code, contracts and definitions of every crate cite these constants; no other place has the numbers. It promises
//! nothing beyond the values, and stands on nothing.
#![tactic(auto)]

mod limits;

pub use limits::{
    BLOCK_ROWS, COLUMNS, CURSORS, DAY_RANGE, FETCH_ROWS, FOLD_STEPS, GENERATED_ROWS, INSERT_ROWS,
    KEEP, LAST_COUNT, LAST_DAY_RANGE, LAST_STREAM_NUMBER, LAST_TIMESTAMP, LAST_VERSION,
    LONGEST_DURATION, MEMTABLE_PARTS, NAME_BYTES, PASS_PARTS, SCRIPT_BYTES, SESSIONS,
    STATEMENT_BYTES, STREAMS, STT_TRIGGER, TABLES, TAG_BYTES, TAGS, WINDOWS_OF_A_ROW,
};
