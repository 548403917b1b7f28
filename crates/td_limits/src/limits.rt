//! Limits and fixed sizes.

// ---- time

/// The last timestamp and the last moment, in milliseconds since 1970: the end of the year 9999.
pub const LAST_TIMESTAMP: u64 = 253_402_300_799_999;

/// A day range, in milliseconds: 10 days of 86,400,000 milliseconds. A file set holds the rows of one day range.
pub const DAY_RANGE: u64 = 864_000_000;

/// The number of the last day range, which holds the last timestamp.
pub const LAST_DAY_RANGE: u32 = 293_289;

/// How long rows are kept, in milliseconds: 3650 days. TRIM moves the retention edge to the day range that lies this
/// long ago.
pub const KEEP: u64 = 315_360_000_000;

/// The longest duration of a window, a watermark or a delay, in milliseconds: 3,650,000 days.
pub const LONGEST_DURATION: u64 = 315_360_000_000_000;

/// How many windows of one query a row can be in: an interval is at most this many times its slide.
pub const WINDOWS_OF_A_ROW: u64 = 1024;

// ---- the history

/// The last version that an entry can have; at a front of this version or more no write is taken.
pub const LAST_VERSION: u64 = 281_474_976_710_654;

// ---- texts

/// The longest script, in bytes: 64 MiB.
pub const SCRIPT_BYTES: usize = 67_108_864;

/// The greatest number of a session; sessions are numbered from 1.
pub const SESSIONS: u32 = 64;

/// The longest text of a statement, in bytes: 1 MiB.
pub const STATEMENT_BYTES: usize = 1_048_576;

/// The longest name, in bytes.
pub const NAME_BYTES: usize = 192;

// ---- tables

/// The most columns of a table, its timestamp among them.
pub const COLUMNS: usize = 256;

/// The most tags of a supertable.
pub const TAGS: usize = 32;

/// The longest text of a tag, in bytes: the greatest n of BINARY(n) and VARCHAR(n).
pub const TAG_BYTES: u32 = 4096;

/// The most tables and supertables together.
pub const TABLES: usize = 1_048_576;

/// The most rows of one INSERT.
pub const INSERT_ROWS: usize = 16_384;

// ---- queries, cursors and streams

/// The greatest number of LIMIT and of OFFSET.
pub const LAST_COUNT: u64 = 4_294_967_295;

/// The greatest number of FETCH.
pub const FETCH_ROWS: u64 = 1_048_576;

/// The most open cursors of a session.
pub const CURSORS: usize = 8;

/// The most live streams.
pub const STREAMS: usize = 64;

/// The greatest number of a stream; a number never comes again.
pub const LAST_STREAM_NUMBER: u32 = 4_294_967_294;

/// The most rows that `gen` generates.
pub const GENERATED_ROWS: u64 = 1_000_000;

// ---- the store

/// The most parts (puts and cuts) that a memtable, or one log, holds.
pub const MEMTABLE_PARTS: u32 = 65_536;

/// The most rows of a block.
pub const BLOCK_ROWS: u32 = 1024;

/// How many stt files a file set has when it is merged.
pub const STT_TRIGGER: usize = 4;

/// The most rows that folding a column of a data file looks at one by one: those of the two blocks at its ends.
pub const FOLD_STEPS: u64 = 2048;

/// How many parts the passes of a turn have in all.
pub const PASS_PARTS: u64 = 4_294_967_296;
