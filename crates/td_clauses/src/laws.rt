//! What holds of every query: a law of its productions.
ghost use Rattle.std.specs.Prelude.{List};
ghost use Rattle.td_model.specs.declared.language.Query.{Query};
ghost use Rattle.td_grammar.specs.declared.lexemes.Lexeme.{Lexeme};
ghost use Rattle.td_grammar.specs.Grammar.{Derives};
ghost use Rattle.td_clauses.specs.Productions.{query};
ghost use Rattle.td_clauses.specs.Written.{written_query};

/// The grammar by which queries are read derives exactly the trees of the grammar as it is written.
pub fn query_as_it_is_written()
    ensures { (ts : List Lexeme) (tree : Query) →
        (Derives (tt {0}) written_query ts tree → Derives (tt {0}) query ts tree) ×
        (Derives (tt {0}) query ts tree → Derives (tt {0}) written_query ts tree) }
{}
