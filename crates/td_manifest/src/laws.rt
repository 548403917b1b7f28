//! Laws of heads: bytes are one head at most, or break the form of a head at one place, and a head has one spelling.
ghost use Rattle.std.specs.Prelude.{◌≡◌, ℕ, List};
ghost use Rattle.td_manifest.specs.declared.head.Head.{Head as Said};
ghost use Rattle.td_manifest.specs.Heads.{IsHead, BreaksAt};
ghost use Rattle.td_manifest.specs.Places.{FilesStandThere, StreamStandsThere};

/// For bytes as a head there is one answer: the head, or the place of a fault. And a head is spelled in one way.
pub fn one_head()
    ensures head { (bytes : List ℕ) (a b : Said) → IsHead bytes a → IsHead bytes b → a ≡ b }
    ensures apart { (bytes : List ℕ) (a : Said) (at : ℕ) → IsHead bytes a → BreaksAt bytes at → ⊥ }
    ensures fault { (bytes : List ℕ) (at other : ℕ) → BreaksAt bytes at → BreaksAt bytes other → at ≡ other }
    ensures spelling { (a b : List ℕ) (head : Said) → IsHead a head → IsHead b head → a ≡ b }
{}

/// In a head's bytes the number of each file stands at its place.
pub fn files_stand_at_their_places()
    ensures { FilesStandThere }
{}

/// In a head's bytes the text of the first stream stands at its place.
pub fn a_stream_stands_at_its_place()
    ensures { StreamStandsThere }
{}
