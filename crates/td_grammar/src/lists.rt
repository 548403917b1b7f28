//! Lists whose items commas part.
ghost use Rattle.std.specs.Prelude.{◌≡◌, true};
ghost use Rattle.td_grammar.specs.Grammar.{G, good, read};
ghost use Rattle.td_grammar.specs.Gives.{Gives};
ghost use Rattle.td_grammar.specs.Words.{comma, ◌▷◌, comma_list as list_of};

use crate::fault::Fault;
use crate::kinds::COMMA;
use crate::leaves::{keyword, starts};
use crate::lexemes::Lexeme;
use std::alloc::Global;
use td_layer::Seq;

/// What a list is made of: the production of an item, and the function that reads one.
pub trait Listed {
    /// What an item is read as.
    type Item: Drop;

    ghost production: { G (Unit {0}) Self.Item };

    /// Reads an item. It fails at the first token that no item continues with.
    fn read_item(alloc: Global, tokens: &[Lexeme]) -> Result<(Self::Item, &[Lexeme]), Fault>
        ensures { Gives (λ x. (x.0, x.1.now)) result (read (tt {0}) production tokens.now) };

    ghost looks_one_ahead: { good production ≡ true };
}

// A comma and an item.
#[tactic(auto, using(crate::proofs::Forms::value_itself))]
fn further_item<L: Listed>(alloc: Global, tokens: &[Lexeme]) -> Result<(L::Item, &[Lexeme]), Fault>
    ensures { Gives (λ x. (x.0, x.1.now)) result (read (tt {0}) (comma ▷ L.production) tokens.now) }
{
    let rest = keyword(tokens, COMMA)?;
    let (item, rest) = L::read_item(alloc, rest)?;
    Ok((item, rest))
}

/// Items that commas part: at least one. It takes memory for the list, beside what the items take; it fails at the
/// first token that no list of such items continues with.
pub fn comma_list<L: Listed>(
    alloc: Global,
    tokens: &[Lexeme],
) -> Result<(Seq<L::Item>, &[Lexeme]), Fault>
    ensures { Gives (λ x. (x.0, x.1.now)) result (read (tt {0}) (list_of L.production) tokens.now) }
{
    let (head, after) = L::read_item(alloc, tokens)?;
    let mut all = Vec::new(alloc);
    all.push(head)?;
    let mut rest = after;
    while starts(rest, COMMA) {
        let (item, after) = further_item::<L>(alloc, rest)?;
        all.push(item)?;
        rest = after;
    }
    Ok((Seq::from_vec(alloc, all), rest))
}
