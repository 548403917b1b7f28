//! The kinds of tokens by name, and ranges of them. A word is added here and in the table of `words.rt`.
//!
//! Numbers, texts, durations and signs come first, then words that may be names, then reserved words.

/// The kind of a token: a number below 128.
pub type TokenKind = u8;

/// The kinds from one to another, both included.
#[derive(Clone, Copy, Debug)]
pub struct KindRange {
    pub low: TokenKind,
    pub high: TokenKind,
}

/// Whole numbers.
pub const NUMBERS: KindRange = KindRange {
    low: BIT,
    high: NUMBER,
};
/// What compares a column or a tag with a literal.
pub const COMPARISONS: KindRange = KindRange {
    low: LESS,
    high: OTHER_THAN,
};
/// Words that may be names.
pub const NAMES: KindRange = KindRange {
    low: PLAIN_WORD,
    high: LAST_NAME,
};
/// Words of types that no column has; the last of them has its place in a tag.
pub const NOT_BUILT_TYPES: KindRange = KindRange {
    low: NOT_BUILT_TYPE,
    high: VARCHAR,
};
/// Functions.
pub const FUNCTIONS: KindRange = KindRange {
    low: COUNT,
    high: SPREAD,
};
/// Functions of a column alone.
pub const COLUMN_FUNCTIONS: KindRange = KindRange {
    low: SUM,
    high: SPREAD,
};
/// Names that are no functions, with kinds below those of functions.
pub const NAMES_BELOW_FUNCTIONS: KindRange = KindRange {
    low: PLAIN_WORD,
    high: 34,
};
/// Names that are no functions, with kinds above those of functions.
pub const NAMES_ABOVE_FUNCTIONS: KindRange = KindRange {
    low: 43,
    high: LAST_NAME,
};

// ---- numbers, texts, durations

/// The number 0 or 1.
pub const BIT: TokenKind = 1;
/// Another number.
pub const NUMBER: TokenKind = 2;
/// A text in quotes.
pub const TEXT: TokenKind = 3;
/// A duration.
pub const DURATION: TokenKind = 4;

// ---- signs

/// `(`
pub const OPEN_PAREN: TokenKind = 5;
/// `)`
pub const CLOSE_PAREN: TokenKind = 6;
/// `,`
pub const COMMA: TokenKind = 7;
/// `;`
pub const SEMICOLON: TokenKind = 8;
/// `*`
pub const STAR: TokenKind = 9;
/// `<`
pub const LESS: TokenKind = 10;
/// `>`
pub const MORE: TokenKind = 11;
/// `=`
pub const EQUAL: TokenKind = 12;
/// `<=`
pub const AT_MOST: TokenKind = 13;
/// `>=`
pub const AT_LEAST: TokenKind = 14;
/// `<>` or `!=`
pub const OTHER_THAN: TokenKind = 15;

// ---- words that may be names

/// A word without a place of its own.
pub const PLAIN_WORD: TokenKind = 20;
/// `bool`
pub const BOOL: TokenKind = 21;
/// `timestamp`
pub const TIMESTAMP: TokenKind = 22;
/// `tinyint`
pub const TINYINT: TokenKind = 23;
/// `smallint`
pub const SMALLINT: TokenKind = 24;
/// `int` or `integer`
pub const INT: TokenKind = 25;
/// `bigint`
pub const BIGINT: TokenKind = 26;
/// `unsigned`
pub const UNSIGNED: TokenKind = 27;
/// The name of a type that neither a column nor a tag takes.
pub const NOT_BUILT_TYPE: TokenKind = 30;
/// `varchar` or `binary`
pub const VARCHAR: TokenKind = 31;
/// `count`
pub const COUNT: TokenKind = 35;
/// `sum`
pub const SUM: TokenKind = 36;
/// `min`
pub const MIN: TokenKind = 37;
/// `max`
pub const MAX: TokenKind = 38;
/// `avg`
pub const AVG: TokenKind = 39;
/// `first`
pub const FIRST: TokenKind = 40;
/// `last`
pub const LAST: TokenKind = 41;
/// `spread`
pub const SPREAD: TokenKind = 42;
/// `trigger`
pub const TRIGGER: TokenKind = 45;
/// `at_once`
pub const AT_ONCE: TokenKind = 46;
/// `window_close`
pub const WINDOW_CLOSE: TokenKind = 47;
/// `max_delay`
pub const MAX_DELAY: TokenKind = 48;
/// `watermark`
pub const WATERMARK: TokenKind = 49;
/// `ignore`
pub const IGNORE: TokenKind = 50;
/// `expired`
pub const EXPIRED: TokenKind = 51;
/// `fill_history`
pub const FILL_HISTORY: TokenKind = 52;
/// `open`
pub const OPEN: TokenKind = 55;
/// `fetch`
pub const FETCH: TokenKind = 56;
/// `close`
pub const CLOSE: TokenKind = 57;
/// `commit`
pub const COMMIT: TokenKind = 58;
/// `merge`
pub const MERGE: TokenKind = 59;
/// `sweep`
pub const SWEEP: TokenKind = 60;
/// `trim`
pub const TRIM: TokenKind = 61;
/// `step`
pub const STEP: TokenKind = 62;
/// The last kind of words that may be names.
pub const LAST_NAME: TokenKind = 79;

// ---- reserved words

/// `create`
pub const CREATE: TokenKind = 80;
/// `stable`
pub const STABLE: TokenKind = 81;
/// `table`
pub const TABLE: TokenKind = 82;
/// `using`
pub const USING: TokenKind = 83;
/// `tags`
pub const TAGS: TokenKind = 84;
/// `insert`
pub const INSERT: TokenKind = 85;
/// `into`
pub const INTO: TokenKind = 86;
/// `values`
pub const VALUES: TokenKind = 87;
/// `delete`
pub const DELETE: TokenKind = 88;
/// `from`
pub const FROM: TokenKind = 89;
/// `where`
pub const WHERE: TokenKind = 90;
/// `and`
pub const AND: TokenKind = 91;
/// `between`
pub const BETWEEN: TokenKind = 92;
/// `is`
pub const IS: TokenKind = 93;
/// `not`
pub const NOT: TokenKind = 94;
/// `null`
pub const NULL: TokenKind = 95;
/// `select`
pub const SELECT: TokenKind = 96;
/// `as`
pub const AS: TokenKind = 97;
/// `partition`
pub const PARTITION: TokenKind = 98;
/// `by`
pub const BY: TokenKind = 99;
/// `interval`
pub const INTERVAL: TokenKind = 100;
/// `sliding`
pub const SLIDING: TokenKind = 101;
/// `session`
pub const SESSION: TokenKind = 102;
/// `state_window`
pub const STATE_WINDOW: TokenKind = 103;
/// `order`
pub const ORDER: TokenKind = 104;
/// `asc`
pub const ASC: TokenKind = 105;
/// `desc`
pub const DESC: TokenKind = 106;
/// `limit`
pub const LIMIT: TokenKind = 107;
/// `offset`
pub const OFFSET: TokenKind = 108;
/// `stream`
pub const STREAM: TokenKind = 109;
/// `drop`
pub const DROP: TokenKind = 110;
/// `true`
pub const TRUE: TokenKind = 111;
/// `false`
pub const FALSE: TokenKind = 112;
/// `now`
pub const NOW: TokenKind = 113;
/// `tbname`
pub const TBNAME: TokenKind = 114;
/// `_wstart`
pub const WSTART: TokenKind = 115;
/// `_wend`
pub const WEND: TokenKind = 116;
/// A word that is not built, and is reserved.
pub const NOT_BUILT: TokenKind = 120;
