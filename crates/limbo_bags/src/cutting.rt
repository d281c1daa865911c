// A chain is cut in two.
ghost use Rattle.std.specs.Prelude.{◌≡◌, ◌≢◌, ◌<◌, ◌≤◌, ◌++◌, slice_index_or};
ghost use Rattle.std.specs.List.{All};
ghost use Rattle.row_words.specs.Refs.{RefParts};
ghost use Rattle.limbo_bags.specs.Chains.{IsChain, IsKept, refs_of};
ghost use Rattle.limbo_bags.specs.Wholes.{AreApart, KeepsTimes};

use row_words::{Chain, ChainWords, Ref};

/// How many records `cut` takes off.
pub const CUT: u32 = 32;

// The record that is so many records after the first one.
fn record_after<W: ChainWords>(words: &mut W, chain: &Chain, steps: u32) -> Ref
    requires list { IsChain (W.owns words.old) (W.row_of words.old) chain.now }
    requires steps { steps < chain.now.count }
    ensures place { slice_index_or (refs_of (W.row_of words.old) chain.now) steps result ≡ result }
    ensures rows { (q : RefParts) → W.row_of words.new q ≡ W.row_of words.old q }
    ensures owns { (q : RefParts) → W.owns words.old q → W.owns words.new q }
    ensures same { W.same words.old words.new }
{
    let mut r = chain.head.unwrap();
    for _step in 0..steps {
        r = words.load_chain(r).unwrap();
    }
    r
}

/// Takes the first 32 records off, as a chain of their own in the same order. `chain` has at least 32.
pub fn cut<W: ChainWords>(words: &mut W, chain: &mut Chain) -> Chain
    requires list { IsChain (W.owns words.old) (W.row_of words.old) chain.old }
    requires enough { 32 ≤ chain.old.count }
    ensures refs { refs_of (W.row_of words.old) chain.old ≡ refs_of (W.row_of words.new) result ++ refs_of (W.row_of words.new) chain.new }
    ensures count { result.count ≡ 32 }
    ensures first { IsChain (W.owns words.new) (W.row_of words.new) result }
    ensures rest { IsChain (W.owns words.new) (W.row_of words.new) chain.new }
    ensures apart { AreApart (refs_of (W.row_of words.new) result) (refs_of (W.row_of words.new) chain.new) }

    // The row of the 32nd record keeps its birth and stamp, and all other rows stay.
    ensures times { All (λ r. KeepsTimes (W.row_of words.old r) (W.row_of words.new r)) (refs_of (W.row_of words.old) chain.old) }
    ensures others { (q : RefParts) → q.index ≢ (slice_index_or (refs_of (W.row_of words.old) chain.old) 31 q).index → W.row_of words.new q ≡ W.row_of words.old q }
    ensures owns { (q : RefParts) → W.owns words.old q → W.owns words.new q }

    // A chain without records of this one stays the same list.
    ensures chains { (other : Chain) → IsChain (W.owns words.old) (W.row_of words.old) other
        → AreApart (refs_of (W.row_of words.old) other) (refs_of (W.row_of words.old) chain.old)
        → IsKept (W.owns words.new) (W.row_of words.old) (W.row_of words.new) other }
    ensures same { W.same words.old words.new }
{
    let last = record_after(words, chain, CUT - 1);
    let first = Chain {
        head: chain.head,
        count: CUT,
    };
    chain.head = words.load_chain(last);
    chain.count -= CUT;
    words.store_chain(last, None);
    first
}
