//! Laws of names, from the text of a statement to the reply and to the head of a store.
ghost use Rattle.td_model.specs.Catalog.{empty_catalog};
ghost use Rattle.td_model.specs.State.{empty_state};
ghost use Rattle.td_printed.specs.Names.{AreWords, IsCounted, IsPrintableState};
ghost use Rattle.td_printed.specs.Heads.{FitsHead};
ghost use Rattle.td_printed.specs.Laws.{
  NamesOfATextAreWords,
  EntriesKeepWords,
  TurnsKeepWords,
  RepliesArePrintable,
  StatesStayCounted,
  StatesStayPrintable,
  ToldReportsArePrintable,
  TextsFitHeads,
  EntriesFitHeads,
};

/// Each name in what is answered of a text is a word, and where the text has no tree, its cause can be printed: the
/// place of an error of syntax is below 2^64.
pub fn names_of_a_text_are_words()
    ensures { NamesOfATextAreWords }
{}

/// The empty catalog has no name that isn't a word, and a catalog of words stays one: after the entry of a statement
/// with words that is accepted, and after its turn, however that ends.
pub fn catalogs_keep_words()
    ensures empty { AreWords empty_catalog }
    ensures entry { EntriesKeepWords }
    ensures turn { TurnsKeepWords }
{}

/// The reply to a statement with words can be printed, in a sound state whose catalog has words, whose numbers are
/// below 2^64 and which has no more rows than its versions can have put, at a moment below 2^64, where an answer has
/// fewer than 2^64 rows. So no sum of an answer is outside the numbers of 128 bits.
pub fn replies_are_printable()
    ensures { RepliesArePrintable }
{}

/// The numbers of the empty state are below 2^64, and those of a state stay so, however a turn ends. A state has at
/// most as many rows for each version that a write can have as an INSERT may have.
pub fn states_stay_counted()
    ensures empty { IsCounted empty_state }
    ensures turn { StatesStayCounted }
{}

/// The replies of the empty state can be printed, and so can those of each state that texts make of it: a state stays
/// so with each statement of a text that is accepted at a moment below 2^64.
pub fn states_stay_printable()
    ensures empty { IsPrintableState empty_state }
    ensures entry { StatesStayPrintable }
{}

/// A report that tells the run of a script of statements with words, from a sound state with words on, can be printed,
/// where the numbers of that state and of the report are below 2^64.
pub fn told_reports_are_printable()
    ensures { ToldReportsArePrintable }
{}

/// What a text makes has names and texts as a head asks: the names that its statement gives a supertable, a table and
/// their columns and tags are short, a supertable's list of tags isn't empty, and no text of a tag has a byte below 32.
pub fn texts_fit_heads()
    ensures { TextsFitHeads }
{}

/// The names and the texts in a catalog that statements of texts make are as a head asks: so it is with the empty
/// catalog, and the entry of a statement of a text that is accepted keeps a catalog so.
pub fn catalogs_fit_heads()
    ensures empty { FitsHead empty_catalog }
    ensures entry { EntriesFitHeads }
{}
