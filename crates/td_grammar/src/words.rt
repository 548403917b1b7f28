//! The words of the language, and the kinds of tokens.
ghost use Rattle.std.specs.Prelude.{◌≡◌};
ghost use Rattle.td_grammar.specs.Kinds.{kind_of_word, kind_of_sign, kind_of, lexeme_of, lookup, table_of};

use crate::kinds::{
    AND, AS, ASC, AT_LEAST, AT_MOST, AT_ONCE, AVG, BETWEEN, BIGINT, BIT, BOOL, BY, CLOSE,
    CLOSE_PAREN, COMMA, COMMIT, COUNT, CREATE, DELETE, DESC, DROP, DURATION, EQUAL, EXPIRED, FALSE,
    FETCH, FILL_HISTORY, FIRST, FROM, IGNORE, INSERT, INT, INTERVAL, INTO, IS, LAST, LESS, LIMIT,
    MAX, MAX_DELAY, MERGE, MIN, MORE, NOT, NOT_BUILT, NOT_BUILT_TYPE, NOW, NULL, NUMBER, OFFSET,
    OPEN, OPEN_PAREN, ORDER, OTHER_THAN, PARTITION, PLAIN_WORD, SELECT, SEMICOLON, SESSION,
    SLIDING, SMALLINT, SPREAD, STABLE, STAR, STATE_WINDOW, STEP, STREAM, SUM, SWEEP, TABLE, TAGS,
    TBNAME, TEXT, TIMESTAMP, TINYINT, TRIGGER, TRIM, TRUE, TokenKind, UNSIGNED, USING, VALUES,
    VARCHAR, WATERMARK, WEND, WHERE, WINDOW_CLOSE, WSTART,
};
use crate::lexemes::Lexeme;
use td_lex::Token;

/// A text that has a kind of its own.
pub struct Spelled {
    pub text: &'static [u8],
    pub kind: TokenKind,
}

// The words of the language. Each other word is a plain one.
const WORDS: [Spelled; 95] = [
    // reserved words
    Spelled {
        text: b"create",
        kind: CREATE,
    },
    Spelled {
        text: b"stable",
        kind: STABLE,
    },
    Spelled {
        text: b"table",
        kind: TABLE,
    },
    Spelled {
        text: b"using",
        kind: USING,
    },
    Spelled {
        text: b"tags",
        kind: TAGS,
    },
    Spelled {
        text: b"insert",
        kind: INSERT,
    },
    Spelled {
        text: b"into",
        kind: INTO,
    },
    Spelled {
        text: b"values",
        kind: VALUES,
    },
    Spelled {
        text: b"delete",
        kind: DELETE,
    },
    Spelled {
        text: b"from",
        kind: FROM,
    },
    Spelled {
        text: b"where",
        kind: WHERE,
    },
    Spelled {
        text: b"and",
        kind: AND,
    },
    Spelled {
        text: b"between",
        kind: BETWEEN,
    },
    Spelled {
        text: b"is",
        kind: IS,
    },
    Spelled {
        text: b"not",
        kind: NOT,
    },
    Spelled {
        text: b"null",
        kind: NULL,
    },
    Spelled {
        text: b"select",
        kind: SELECT,
    },
    Spelled {
        text: b"as",
        kind: AS,
    },
    Spelled {
        text: b"partition",
        kind: PARTITION,
    },
    Spelled {
        text: b"by",
        kind: BY,
    },
    Spelled {
        text: b"interval",
        kind: INTERVAL,
    },
    Spelled {
        text: b"sliding",
        kind: SLIDING,
    },
    Spelled {
        text: b"session",
        kind: SESSION,
    },
    Spelled {
        text: b"state_window",
        kind: STATE_WINDOW,
    },
    Spelled {
        text: b"order",
        kind: ORDER,
    },
    Spelled {
        text: b"asc",
        kind: ASC,
    },
    Spelled {
        text: b"desc",
        kind: DESC,
    },
    Spelled {
        text: b"limit",
        kind: LIMIT,
    },
    Spelled {
        text: b"offset",
        kind: OFFSET,
    },
    Spelled {
        text: b"stream",
        kind: STREAM,
    },
    Spelled {
        text: b"drop",
        kind: DROP,
    },
    Spelled {
        text: b"true",
        kind: TRUE,
    },
    Spelled {
        text: b"false",
        kind: FALSE,
    },
    Spelled {
        text: b"now",
        kind: NOW,
    },
    Spelled {
        text: b"tbname",
        kind: TBNAME,
    },
    Spelled {
        text: b"_wstart",
        kind: WSTART,
    },
    Spelled {
        text: b"_wend",
        kind: WEND,
    },
    // words that are not built, and are reserved too
    Spelled {
        text: b"alter",
        kind: NOT_BUILT,
    },
    Spelled {
        text: b"fill",
        kind: NOT_BUILT,
    },
    Spelled {
        text: b"group",
        kind: NOT_BUILT,
    },
    Spelled {
        text: b"having",
        kind: NOT_BUILT,
    },
    Spelled {
        text: b"or",
        kind: NOT_BUILT,
    },
    Spelled {
        text: b"in",
        kind: NOT_BUILT,
    },
    Spelled {
        text: b"like",
        kind: NOT_BUILT,
    },
    Spelled {
        text: b"distinct",
        kind: NOT_BUILT,
    },
    Spelled {
        text: b"if",
        kind: NOT_BUILT,
    },
    Spelled {
        text: b"union",
        kind: NOT_BUILT,
    },
    Spelled {
        text: b"join",
        kind: NOT_BUILT,
    },
    Spelled {
        text: b"slimit",
        kind: NOT_BUILT,
    },
    Spelled {
        text: b"event_window",
        kind: NOT_BUILT,
    },
    Spelled {
        text: b"count_window",
        kind: NOT_BUILT,
    },
    Spelled {
        text: b"subtable",
        kind: NOT_BUILT,
    },
    Spelled {
        text: b"update",
        kind: NOT_BUILT,
    },
    Spelled {
        text: b"delete_mark",
        kind: NOT_BUILT,
    },
    // words that begin a statement, and are not reserved
    Spelled {
        text: b"open",
        kind: OPEN,
    },
    Spelled {
        text: b"fetch",
        kind: FETCH,
    },
    Spelled {
        text: b"close",
        kind: CLOSE,
    },
    Spelled {
        text: b"commit",
        kind: COMMIT,
    },
    Spelled {
        text: b"merge",
        kind: MERGE,
    },
    Spelled {
        text: b"sweep",
        kind: SWEEP,
    },
    Spelled {
        text: b"trim",
        kind: TRIM,
    },
    Spelled {
        text: b"step",
        kind: STEP,
    },
    // types
    Spelled {
        text: b"bool",
        kind: BOOL,
    },
    Spelled {
        text: b"timestamp",
        kind: TIMESTAMP,
    },
    Spelled {
        text: b"tinyint",
        kind: TINYINT,
    },
    Spelled {
        text: b"smallint",
        kind: SMALLINT,
    },
    Spelled {
        text: b"int",
        kind: INT,
    },
    Spelled {
        text: b"integer",
        kind: INT,
    },
    Spelled {
        text: b"bigint",
        kind: BIGINT,
    },
    Spelled {
        text: b"unsigned",
        kind: UNSIGNED,
    },
    // types that no column has; in a tag VARCHAR and BINARY are built
    Spelled {
        text: b"float",
        kind: NOT_BUILT_TYPE,
    },
    Spelled {
        text: b"double",
        kind: NOT_BUILT_TYPE,
    },
    Spelled {
        text: b"nchar",
        kind: NOT_BUILT_TYPE,
    },
    Spelled {
        text: b"varbinary",
        kind: NOT_BUILT_TYPE,
    },
    Spelled {
        text: b"json",
        kind: NOT_BUILT_TYPE,
    },
    Spelled {
        text: b"geometry",
        kind: NOT_BUILT_TYPE,
    },
    Spelled {
        text: b"decimal",
        kind: NOT_BUILT_TYPE,
    },
    Spelled {
        text: b"varchar",
        kind: VARCHAR,
    },
    Spelled {
        text: b"binary",
        kind: VARCHAR,
    },
    // functions
    Spelled {
        text: b"count",
        kind: COUNT,
    },
    Spelled {
        text: b"sum",
        kind: SUM,
    },
    Spelled {
        text: b"min",
        kind: MIN,
    },
    Spelled {
        text: b"max",
        kind: MAX,
    },
    Spelled {
        text: b"avg",
        kind: AVG,
    },
    Spelled {
        text: b"first",
        kind: FIRST,
    },
    Spelled {
        text: b"last",
        kind: LAST,
    },
    Spelled {
        text: b"spread",
        kind: SPREAD,
    },
    // options of a stream
    Spelled {
        text: b"trigger",
        kind: TRIGGER,
    },
    Spelled {
        text: b"at_once",
        kind: AT_ONCE,
    },
    Spelled {
        text: b"window_close",
        kind: WINDOW_CLOSE,
    },
    Spelled {
        text: b"max_delay",
        kind: MAX_DELAY,
    },
    Spelled {
        text: b"watermark",
        kind: WATERMARK,
    },
    Spelled {
        text: b"ignore",
        kind: IGNORE,
    },
    Spelled {
        text: b"expired",
        kind: EXPIRED,
    },
    Spelled {
        text: b"fill_history",
        kind: FILL_HISTORY,
    },
];

// The signs of one byte.
const SIGNS: [Spelled; 8] = [
    Spelled {
        text: b"(",
        kind: OPEN_PAREN,
    },
    Spelled {
        text: b")",
        kind: CLOSE_PAREN,
    },
    Spelled {
        text: b",",
        kind: COMMA,
    },
    Spelled {
        text: b";",
        kind: SEMICOLON,
    },
    Spelled {
        text: b"*",
        kind: STAR,
    },
    Spelled {
        text: b"<",
        kind: LESS,
    },
    Spelled {
        text: b">",
        kind: MORE,
    },
    Spelled {
        text: b"=",
        kind: EQUAL,
    },
];

// The kind of a text in a table, or else this one.
fn lookup(table: &[Spelled], text: &[u8], other: TokenKind) -> TokenKind
    ensures { result ≡ lookup (table_of table.now) text.now other }
{
    for entry in table {
        if text == entry.text {
            return entry.kind;
        }
    }
    other
}

pub(crate) fn kind_of_word(word: &[u8]) -> TokenKind
    ensures { result ≡ kind_of_word word.now }
{
    lookup(&WORDS, word, PLAIN_WORD)
}

fn kind_of_sign(sign: u8) -> TokenKind
    ensures { result ≡ kind_of_sign sign }
{
    lookup(&SIGNS, &[sign], EQUAL)
}

/// The kind of a token.
pub fn kind_of(token: &Token) -> TokenKind
    ensures { result ≡ kind_of token.now }
{
    match token {
        Token::Word(word) => kind_of_word(word.as_slice()),
        Token::Num(n) => { if *n == 0 || *n == 1 { BIT } else { NUMBER } }
        Token::Str(_) => TEXT,
        Token::Dur { .. } => DURATION,
        Token::Sym(sign) => kind_of_sign(*sign),
        Token::Le => AT_MOST,
        Token::Ge => AT_LEAST,
        Token::Ne => OTHER_THAN,
    }
}

/// A token with its kind.
pub fn lexeme(token: Token) -> Lexeme
    ensures { result ≡ lexeme_of token }
{
    let kind = kind_of(&token);
    Lexeme { kind, token }
}
