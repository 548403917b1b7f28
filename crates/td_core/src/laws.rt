//! Laws of stores: an image stands for one state at most, breaks at one place at most, and never does both.
ghost use Rattle.std.specs.Prelude.{◌≡◌, ℕ};
ghost use Rattle.td_model.specs.State.{State};
ghost use Rattle.td_outside.specs.Image.{Image};
ghost use Rattle.td_core.specs.declared.causes.FileId.{FileId as File};
ghost use Rattle.td_core.specs.Stands.{Stands};
ghost use Rattle.td_core.specs.Breaks.{BreaksFirst};

/// An image stands for one state at most.
pub fn one_state()
    ensures { (image : Image) (a b : State) → Stands image a → Stands image b → a ≡ b }
{}

/// An image that stands for a state breaks nowhere.
pub fn stands_or_breaks()
    ensures { (image : Image) (s : State) (file : File) (at : ℕ) → Stands image s → BreaksFirst image file at → ⊥ }
{}

/// An image breaks first at one place at most.
pub fn one_place()
    ensures { (image : Image) (file other : File) (a b : ℕ) → BreaksFirst image file a → BreaksFirst image other b
        → (file ≡ other) × (a ≡ b) }
{}
