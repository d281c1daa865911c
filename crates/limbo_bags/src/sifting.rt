// A bag is sifted: a test says which of its records stay.
ghost use Rattle.std.specs.Prelude.{◌≡◌, ◌≢◌, ◌≤◌, ◌+◌, ◌^◌, ◌∷◌, ◌++◌, ℕ, Bool, cond, reverse};
ghost use Rattle.std.specs.List.{All, count_by, filter};
ghost use Rattle.row_words.specs.Refs.{RefParts};
ghost use Rattle.limbo_bags.specs.Chains.{IsChain, IsApart, IsKept, refs_of};
ghost use Rattle.limbo_bags.specs.Wholes.{AreApart, KeepsTimes, passes, is_freed, is_returned, is_spent};

use crate::ends::{pop, push};
use crate::moving::set_free;
use row_words::{Chain, ChainWords, Freed, Ref};

/// Which records stay in a bag.
pub trait Keeps {
    // Whether the record of this birth and this stamp stays.
    ghost kept: { Self → RefParts → ℕ → ℕ → Bool };

    /// Whether `r` stays. It was handed out at `birth`, and `stamp` is what it was retired with.
    fn keeps(&self, r: Ref, birth: u64, stamp: u64) -> bool
        ensures { result ≡ kept self.now r birth stamp };
}

// Whether the test keeps `r`, by the birth and the stamp in its row.
fn is_kept<W: ChainWords, T: Keeps>(words: &mut W, test: &T, r: Ref) -> bool
    requires owned { W.owns words.old r }
    ensures kept { result ≡ passes (T.kept test.now) (W.row_of words.old) r }
    ensures rows { (q : RefParts) → W.row_of words.new q ≡ W.row_of words.old q }
    ensures owns { (q : RefParts) → W.owns words.old q → W.owns words.new q }
    ensures chains { (other : Chain) → IsChain (W.owns words.old) (W.row_of words.old) other
        → IsKept (W.owns words.new) (W.row_of words.old) (W.row_of words.new) other }
    ensures same { W.same words.old words.new }
{
    let birth = words.load_birth(r);
    let stamp = words.load_stamp(r);
    test.keeps(r, birth, stamp)
}

// Puts `r` in front of `kept` where the test keeps it, and else sets it free.
fn sort_one<W: ChainWords, T: Keeps>(
    words: &mut W,
    kept: &mut Chain,
    free: &mut Chain,
    r: Ref,
    test: &T,
    freed: &mut Freed,
)
    requires kept_list { IsChain (W.owns words.old) (W.row_of words.old) kept.old }
    requires free_list { IsChain (W.owns words.old) (W.row_of words.old) free.old }
    requires owned { W.owns words.old r }
    requires kept_apart { IsApart r (refs_of (W.row_of words.old) kept.old) }
    requires free_apart { IsApart r (refs_of (W.row_of words.old) free.old) }
    requires room { (freed.old.freed ≤ 2 ^ 20) × (freed.old.spent ≤ 2 ^ 20) }
    ensures kept { refs_of (W.row_of words.new) kept.new ≡ cond (passes (T.kept test.now) (W.row_of words.old) r) (r ∷ refs_of (W.row_of words.old) kept.old) (refs_of (W.row_of words.old) kept.old) }
    ensures free { refs_of (W.row_of words.new) free.new ≡ cond (is_returned (T.kept test.now) (W.row_of words.old) r) (r ∷ refs_of (W.row_of words.old) free.old) (refs_of (W.row_of words.old) free.old) }
    ensures kept_list { IsChain (W.owns words.new) (W.row_of words.new) kept.new }
    ensures free_list { IsChain (W.owns words.new) (W.row_of words.new) free.new }
    ensures freed { freed.new.freed ≡ freed.old.freed + cond (is_freed (T.kept test.now) (W.row_of words.old) r) 1 0 }
    ensures spent { freed.new.spent ≡ freed.old.spent + cond (is_spent (T.kept test.now) (W.row_of words.old) r) 1 0 }
    ensures times { KeepsTimes (W.row_of words.old r) (W.row_of words.new r) }
    ensures others { (q : RefParts) → q.index ≢ r.index → W.row_of words.new q ≡ W.row_of words.old q }
    ensures owns { (q : RefParts) → W.owns words.old q → W.owns words.new q }
    ensures same { W.same words.old words.new }
{
    if is_kept(words, test, r) {
        push(words, kept, r);
    } else {
        set_free(words, free, r, freed);
    }
}

/// Takes the records that the test doesn't keep out of `bag`. Each goes in front of `free`, but one at
/// the last generation goes in no chain. It counts both. No record is in both chains before. Those that
/// the test keeps stay in `bag`, in reverse order.
pub fn sift<W: ChainWords, T: Keeps>(
    words: &mut W,
    bag: &mut Chain,
    test: &T,
    free: &mut Chain,
) -> Freed
    requires bag { IsChain (W.owns words.old) (W.row_of words.old) bag.old }
    requires free { IsChain (W.owns words.old) (W.row_of words.old) free.old }
    requires apart { AreApart (refs_of (W.row_of words.old) bag.old) (refs_of (W.row_of words.old) free.old) }
    ensures kept { refs_of (W.row_of words.new) bag.new ≡ reverse (filter (passes (T.kept test.now) (W.row_of words.old)) (refs_of (W.row_of words.old) bag.old)) }
    ensures free { refs_of (W.row_of words.new) free.new ≡ reverse (filter (is_returned (T.kept test.now) (W.row_of words.old)) (refs_of (W.row_of words.old) bag.old)) ++ refs_of (W.row_of words.old) free.old }
    ensures bag_list { IsChain (W.owns words.new) (W.row_of words.new) bag.new }
    ensures free_list { IsChain (W.owns words.new) (W.row_of words.new) free.new }
    ensures apart { AreApart (refs_of (W.row_of words.new) bag.new) (refs_of (W.row_of words.new) free.new) }
    ensures freed { result.freed ≡ count_by (is_freed (T.kept test.now) (W.row_of words.old)) (refs_of (W.row_of words.old) bag.old) }
    ensures spent { result.spent ≡ count_by (is_spent (T.kept test.now) (W.row_of words.old)) (refs_of (W.row_of words.old) bag.old) }

    // The records of `bag` keep their births and stamps, and all other rows stay.
    ensures times { All (λ r. KeepsTimes (W.row_of words.old r) (W.row_of words.new r)) (refs_of (W.row_of words.old) bag.old) }
    ensures others { (q : RefParts) → IsApart q (refs_of (W.row_of words.old) bag.old) → W.row_of words.new q ≡ W.row_of words.old q }
    ensures owns { (q : RefParts) → W.owns words.old q → W.owns words.new q }

    // A chain without records of `bag` stays the same list.
    ensures chains { (other : Chain) → IsChain (W.owns words.old) (W.row_of words.old) other
        → AreApart (refs_of (W.row_of words.old) other) (refs_of (W.row_of words.old) bag.old)
        → IsKept (W.owns words.new) (W.row_of words.old) (W.row_of words.new) other }
    ensures same { W.same words.old words.new }
{
    let mut kept = Chain::new();
    let mut freed = Freed { freed: 0, spent: 0 };
    while let Some(r) = pop(words, bag) {
        sort_one(words, &mut kept, free, r, test, &mut freed);
    }
    *bag = kept;
    freed
}
