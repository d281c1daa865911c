// What an atomic step tells the pass that makes it. These types are for the proofs alone.
ghost use Rattle.std.specs.Prelude.{◌≡◌, ℕ};
ghost use Rattle.record_rule.specs.Beginnings.{IsOneHistory};

use atomic_table::Play;
use record_memory::View;
use std::marker::{Brand, PhantomData};

// What a step tells: of the view before, the value that it found, and the view after. Each call picks it.
pub(crate) trait Tells {
    ghost use Rattle.std.specs.Prelude.{ℕ};
    ghost use Rattle.record_memory.specs.declared.books.View.{View};

    ghost tells: { View → ℕ → View → Type 0 };
}

impl Tells for Brand {
    ghost tells = { λ v n w. w ≡ v };
}

// A step that gives what it found.
pub(crate) struct Telling<M> {
    marker: PhantomData<M>,
}

impl<M: Tells> Play<(), View> for Telling<M> {
    ghost then = { λ s m n w. M.tells m.0 n w.0 × (w.1 ≡ m.1) };
}

// A store, which doesn't give what it found.
pub(crate) struct Stores<M> {
    marker: PhantomData<M>,
}

impl<M: Tells> Play<(), View> for Stores<M> {
    ghost then = { λ s m n w. (found : ℕ) × (M.tells m.0 found w.0 × (w.1 ≡ m.1)) };
}

// A load that nobody asks the value of: a pass looks whether what it knows is one history.
pub(crate) struct Looks;

impl Play<(), View> for Looks {
    ghost then = { λ s m n w. (w ≡ m) × IsOneHistory m.0 };
}
