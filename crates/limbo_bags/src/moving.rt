// Freed records go in front of a chain, one by one or a whole chain of them.
ghost use Rattle.std.specs.Prelude.{◌≡◌, ◌≢◌, ◌≤◌, ◌+◌, ◌^◌, ◌∷◌, ◌++◌, None, cond, length, reverse};
ghost use Rattle.std.specs.List.{All, count_by, filter};
ghost use Rattle.row_words.specs.Refs.{RefParts};
ghost use Rattle.limbo_bags.specs.Chains.{IsChain, IsApart, IsKept, refs_of};
ghost use Rattle.limbo_bags.specs.Wholes.{AreApart, is_last, is_reusable, KeepsTimes};

use crate::ends::{pop, push};
use row_words::{Chain, ChainWords, Freed, Ref};

// Puts `r` in front of `free`, or in no chain where it is at the last generation, and counts it.
pub(crate) fn set_free<W: ChainWords>(words: &mut W, free: &mut Chain, r: Ref, freed: &mut Freed)
    requires list { IsChain (W.owns words.old) (W.row_of words.old) free.old }
    requires owned { W.owns words.old r }
    requires apart { IsApart r (refs_of (W.row_of words.old) free.old) }
    requires room { (freed.old.freed ≤ 2 ^ 20) × (freed.old.spent ≤ 2 ^ 20) }
    ensures refs { refs_of (W.row_of words.new) free.new ≡ cond (is_reusable r) (r ∷ refs_of (W.row_of words.old) free.old) (refs_of (W.row_of words.old) free.old) }
    ensures list { IsChain (W.owns words.new) (W.row_of words.new) free.new }
    ensures freed { freed.new.freed ≡ freed.old.freed + 1 }
    ensures spent { freed.new.spent ≡ freed.old.spent + cond (is_last r) 1 0 }
    ensures times { KeepsTimes (W.row_of words.old r) (W.row_of words.new r) }
    ensures others { (q : RefParts) → q.index ≢ r.index → W.row_of words.new q ≡ W.row_of words.old q }
    ensures owns { (q : RefParts) → W.owns words.old q → W.owns words.new q }
    ensures chains { (other : Chain) → IsChain (W.owns words.old) (W.row_of words.old) other
        → IsApart r (refs_of (W.row_of words.old) other)
        → IsKept (W.owns words.new) (W.row_of words.old) (W.row_of words.new) other }
    ensures same { W.same words.old words.new }
{
    freed.freed += 1;
    if r.generation.next().is_none() {
        freed.spent += 1;
    } else {
        push(words, free, r);
    }
}

/// Frees all records of `from`, which is empty afterwards: each goes in front of `to`, but one at the
/// last generation goes in no chain. It counts both. No record is in both chains before.
pub fn move_all<W: ChainWords>(words: &mut W, from: &mut Chain, to: &mut Chain) -> Freed
    requires from { IsChain (W.owns words.old) (W.row_of words.old) from.old }
    requires to { IsChain (W.owns words.old) (W.row_of words.old) to.old }
    requires apart { AreApart (refs_of (W.row_of words.old) from.old) (refs_of (W.row_of words.old) to.old) }
    ensures empty { (from.new.head ≡ None) × (from.new.count ≡ 0) }
    ensures refs { refs_of (W.row_of words.new) to.new ≡ reverse (filter is_reusable (refs_of (W.row_of words.old) from.old)) ++ refs_of (W.row_of words.old) to.old }
    ensures list { IsChain (W.owns words.new) (W.row_of words.new) to.new }
    ensures freed { result.freed ≡ length (refs_of (W.row_of words.old) from.old) }
    ensures spent { result.spent ≡ count_by is_last (refs_of (W.row_of words.old) from.old) }

    // The records of `from` keep their births and stamps, and all other rows stay.
    ensures times { All (λ r. KeepsTimes (W.row_of words.old r) (W.row_of words.new r)) (refs_of (W.row_of words.old) from.old) }
    ensures others { (q : RefParts) → IsApart q (refs_of (W.row_of words.old) from.old) → W.row_of words.new q ≡ W.row_of words.old q }
    ensures owns { (q : RefParts) → W.owns words.old q → W.owns words.new q }

    // A chain without records of `from` stays the same list.
    ensures chains { (other : Chain) → IsChain (W.owns words.old) (W.row_of words.old) other
        → AreApart (refs_of (W.row_of words.old) other) (refs_of (W.row_of words.old) from.old)
        → IsKept (W.owns words.new) (W.row_of words.old) (W.row_of words.new) other }
    ensures same { W.same words.old words.new }
{
    let mut freed = Freed { freed: 0, spent: 0 };
    while let Some(r) = pop(words, from) {
        set_free(words, to, r, &mut freed);
    }
    freed
}
