//! What holds of every text: laws of the tokens' definition.
ghost use Rattle.std.specs.Prelude.{◌≡◌, ◌≢◌, ◌⊎◌, ℕ, ◌+◌, ℤ, List, [], ◌∷◌, ◌++◌, length, take, true, Result, FitsSigned};
ghost use Rattle.std.specs.Int.{w128};
ghost use Rattle.std.specs.Fmt.{signed_decimal};
ghost use Rattle.td_lex.specs.declared.kinds.Token.{Token};
ghost use Rattle.td_lex.specs.declared.kinds.Spanned.{Spanned};
ghost use Rattle.td_lex.specs.declared.kinds.LexFault.{LexFault};
ghost use Rattle.td_lex.specs.declared.kinds.LexFault.TheVariants.{NoMemory};
ghost use Rattle.td_lex.specs.Tokens.{is_blank, IsToken, Reads, IsTokens, Answers};
ghost use Rattle.td_lex.specs.Laws.{alone, moved, IsFront, Stops};

/// A text has one answer other than want of memory: its tokens are the only ones, a text of tokens has no failure, and
/// the first failure is one, in its place and its cause.
pub fn one_answer()
    ensures { (text : List ℕ) (a b : Result (List Spanned) LexFault) → a ≢ Err NoMemory → b ≢ Err NoMemory →
        Answers text a → Answers text b → a ≡ b }
{}

/// Of the tokens that are read from one place, some are a front of the others, however far each is read.
pub fn one_front()
    ensures { (at : ℕ) (text rest last : List ℕ) (ts us : List Spanned) → Reads at text ts rest →
        Reads at text us last → IsFront ts us ⊎ IsFront us ts }
{}

/// Where reading goes no further, all tokens that are read from the same place are a front of those up to there.
pub fn read_to_a_stop()
    ensures { (at : ℕ) (text rest last : List ℕ) (ts us : List Spanned) → Reads at text ts rest →
        Reads at text us last → Stops last → IsFront ts us }
{}

/// A token's text alone is that token.
pub fn one_token()
    ensures { (text : List ℕ) (token : Token) → IsToken text token → IsTokens text (alone token (length text)) }
{}

/// A text that is cut where one of its tokens ends is the tokens up to there, also where the text fails further on.
pub fn cut_at_a_token()
    ensures { (text rest : List ℕ) (ts us : List Spanned) (t : Spanned) → Reads 0 text (ts ++ t ∷ us) rest →
        IsTokens (take t.end text) (ts ++ t ∷ []) }
{}

/// What stands before a place that reading comes to is the tokens up to there. So a text that is cut where it first
/// fails is the tokens before the failure.
pub fn cut_before_the_rest()
    ensures { (text rest : List ℕ) (ts : List Spanned) (at : ℕ) → Reads 0 text ts rest →
        at + length rest ≡ length text → IsTokens (take at text) ts }
{}

/// A text of tokens, a blank and a text of tokens are the tokens of both.
pub fn joined_by_a_blank()
    ensures { (front text : List ℕ) (blank : ℕ) (ts us : List Spanned) → is_blank blank ≡ true → IsTokens front ts →
        IsTokens text us → IsTokens (front ++ blank ∷ text) (ts ++ moved (length front + 1) us) }
{}

/// A number's decimal text is read as the number.
pub fn printed_number()
    ensures { (n : ℤ) → FitsSigned w128 n →
        IsTokens (signed_decimal n) (alone (Token.Num n) (length (signed_decimal n))) }
{}
