//! Names, and sets of names and of files.
ghost use Rattle.std.specs.Prelude.{◌≡◌, ◌==◌, ◌&&◌, [], ◌∷◌, ◌++◌, not, nat_le, true, List, IfOk, length};
ghost use Rattle.std.specs.List.{list_all};
ghost use Rattle.td_grammar.specs.Names.{is_folded as is_folded_byte, is_word};
ghost use Rattle.td_codec.specs.Fields.{Gives};
ghost use Rattle.td_codec.specs.Values.{text};
ghost use Rattle.td_manifest.specs.Names.{is_short_name, is_among, new_name};
ghost use Rattle.td_manifest.specs.Files.{is_used};

use indexmap::IndexSet;
use std::alloc::Global;
use std::marker::Model;
use td_codec::{ReadFault, u16_of};
use td_grammar::kind_of;
use td_grammar::kinds::NAMES;
use td_layer::{Name, NoMem, Seq};
use td_lex::Token;
use td_limits::NAME_BYTES;

fn is_folded_byte(b: u8) -> bool
    ensures { result ≡ is_folded_byte b }
{
    (b.is_ascii_alphanumeric() || b == b'_') && b.to_ascii_lowercase() == b
}

fn is_folded(bytes: &[u8]) -> bool
    ensures { result ≡ list_all is_folded_byte bytes.now }
{
    bytes.iter().all(|b| is_folded_byte(*b))
}

/// Whether bytes are a word that is folded to lower case.
fn is_word(bytes: &[u8]) -> bool
    ensures { result ≡ is_word bytes.now }
{
    match bytes {
        [] => false,
        [b, ..] => (b.is_ascii_alphabetic() || *b == b'_') && is_folded(bytes),
    }
}

/// Whether bytes are a name that isn't too long.
#[tactic(auto, using(std::proofs::lemmas::Bool::Decides::nat_tests))]
fn is_name(alloc: Global, bytes: &[u8]) -> Result<bool, NoMem>
    ensures { IfOk result (λ b. b ≡ is_short_name bytes.now) }
{
    if NAME_BYTES < bytes.len() || !is_word(bytes) {
        return Ok(false);
    }
    let token = Token::Word(Seq::of_bytes(alloc, bytes)?);
    let kind = kind_of(&token);
    Ok(NAMES.low <= kind && kind <= NAMES.high)
}

/// A name: a length of 16 bits, and so many bytes.
#[tactic(auto, unfolding(td_codec::specs::Values::text, td_codec::specs::Fields::string_read))]
pub(crate) fn name_of(alloc: Global, bytes: &[u8]) -> Result<(Name, &[u8]), ReadFault>
    ensures { Gives (λ x. (x.0, x.1.now)) result ((text is_short_name).read bytes.now) }
{
    let (size, rest) = u16_of(bytes)?;
    let size = size as usize;
    if rest.len() < size {
        return Err(ReadFault::Broken(bytes.len()));
    }
    let (front, rest) = rest.split_at(size);
    if !is_name(alloc, front)? {
        return Err(ReadFault::Broken(bytes.len()));
    }
    let name = Seq::of_bytes(alloc, front)?;
    Ok((name, rest))
}

/// The names of supertables and tables so far, in their order.
#[derive(Drop)]
pub(crate) struct Names {
    alloc: Global,
    set: IndexSet<Vec<u8>>,
}

impl Model for Names {
    ghost use Rattle.std.specs.Prelude.{ℕ, List, map};

    ghost Value = { List (List ℕ) };

    ghost view = { λ n. map (λ k. k.items) n.set.keys };
}

impl Names {
    /// No names.
    pub(crate) fn new(alloc: Global) -> Names
        ensures { result ≡ [] }
    {
        Names {
            alloc,
            set: IndexSet::new(alloc),
        }
    }

    /// Adds a name, and says whether it is new; one that isn't is not added again.
    fn add(&mut self, name: &[u8]) -> Result<bool, NoMem>
        ensures new { IfOk result (λ new. new ≡ not (is_among name.now self.old)) }
        ensures added { IfOk result (λ new. new ≡ true → self.new ≡ self.old ++ name.now ∷ []) }
    {
        let key = Vec::from_slice(self.alloc, name)?;
        let added = self.set.insert(key)?;
        Ok(added)
    }
}

/// A name that isn't taken; it is then.
#[tactic(auto, unfolding(crate::specs::Names::new_name))]
pub(crate) fn free_name_of<'a>(
    alloc: Global,
    names: &mut Names,
    bytes: &'a [u8],
) -> Result<(Name, &'a [u8]), ReadFault>
    ensures read { Gives (λ x. (x.0, x.1.now)) result ((new_name (λ name. is_among name names.old)).read bytes.now) }
    ensures taken { IfOk result (λ x. names.new ≡ names.old ++ x.0 ∷ []) }
{
    let (name, rest) = name_of(alloc, bytes)?;
    if !names.add(name.as_slice())? {
        return Err(ReadFault::Broken(bytes.len()));
    }
    Ok((name, rest))
}

/// The files of file sets so far, in their order.
#[derive(Drop)]
pub(crate) struct Files {
    set: IndexSet<u64>,
}

impl Model for Files {
    ghost use Rattle.std.specs.Prelude.{ℕ, List};

    ghost Value = { List ℕ };

    ghost view = { λ f. f.set.keys };
}

impl Files {
    /// No files.
    pub(crate) fn new(alloc: Global) -> Files
        ensures { result ≡ [] }
    {
        Files {
            set: IndexSet::new(alloc),
        }
    }

    /// Adds a file, and says whether it is new; one that isn't is not added again.
    pub(crate) fn add(&mut self, file: u64) -> Result<bool, NoMem>
        ensures new { IfOk result (λ new. new ≡ not (is_used file self.old)) }
        ensures added { IfOk result (λ new. new ≡ true → self.new ≡ self.old ++ file ∷ []) }
    {
        let added = self.set.insert(file)?;
        Ok(added)
    }
}
