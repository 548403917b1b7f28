//! What holds of every text: laws of the definition of statements.
ghost use Rattle.std.specs.Prelude.{◌≡◌, ℕ, List, [], ◌∷◌, ◌++◌, map};
ghost use Rattle.td_lex.specs.declared.kinds.Spanned.{Spanned};
ghost use Rattle.td_lex.specs.Tokens.{IsTokens};
ghost use Rattle.td_model.specs.declared.language.Stmt.{Stmt};
ghost use Rattle.td_grammar.specs.declared.lexemes.Lexeme.{Lexeme};
ghost use Rattle.td_grammar.specs.Grammar.{Derives};
ghost use Rattle.td_parse.specs.Productions.{a_statement};
ghost use Rattle.td_parse.specs.Written.{written_text};
ghost use Rattle.td_parse.specs.Statements.{semicolon, IsAnswer, IsStatement, Parsed};

/// A text has one answer, failures included: its tree, or its cause and place.
pub fn one_answer()
    ensures { (text : List ℕ) (a b : Stmt) → IsAnswer text a → IsAnswer text b → a ≡ b }
{}

/// Tokens are a statement with one tree at most.
pub fn one_tree()
    ensures { (ts : List Lexeme) (a b : Stmt) → IsStatement ts a → IsStatement ts b → a ≡ b }
{}

/// A text whose tokens are those of a text that parses has the same answer: its tree, or a cause that isn't one of
/// syntax. So the case of words and the blanks between tokens change no such answer. Of a text that doesn't parse
/// nothing is said here: the place of its failure moves with its blanks.
pub fn same_tokens()
    ensures { (text other : List ℕ) (ts us : List Spanned) (answer : Stmt) → IsTokens text ts → IsTokens other us →
        map (λ t. t.token) ts ≡ map (λ t. t.token) us → Parsed text answer → Parsed other answer }
{}

/// A `;` at the end of a statement changes nothing.
pub fn final_semicolon()
    ensures { (ts : List Lexeme) (tree : Stmt) → Derives (tt {0}) a_statement ts tree → IsStatement ts tree ×
        IsStatement (ts ++ semicolon ∷ []) tree }
{}

/// The grammar by which texts are read derives exactly the trees of the grammar as it is written.
pub fn as_it_is_written()
    ensures { (ts : List Lexeme) (tree : Stmt) → (Derives (tt {0}) written_text ts tree → IsStatement ts tree) ×
        (IsStatement ts tree → Derives (tt {0}) written_text ts tree) }
{}
