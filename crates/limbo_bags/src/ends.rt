// A chain grows and shrinks at its head.
ghost use Rattle.std.specs.Prelude.{◌≡◌, ◌≢◌, ◌∷◌, [], IfNone, IfSome, MatchOption};
ghost use Rattle.row_words.specs.Refs.{RefParts};
ghost use Rattle.row_words.specs.Rows.{with_next};
ghost use Rattle.limbo_bags.specs.Chains.{IsChain, IsApart, IsKept, refs_of};

use row_words::{Chain, ChainWords, Ref};

/// Puts `r` first. The caller owns its chain word, and it is in no chain.
pub fn push<W: ChainWords>(words: &mut W, chain: &mut Chain, r: Ref)
    requires list { IsChain (W.owns words.old) (W.row_of words.old) chain.old }
    requires owned { W.owns words.old r }
    requires apart { IsApart r (refs_of (W.row_of words.old) chain.old) }
    ensures refs { refs_of (W.row_of words.new) chain.new ≡ r ∷ refs_of (W.row_of words.old) chain.old }
    ensures list { IsChain (W.owns words.new) (W.row_of words.new) chain.new }
    ensures stored { W.row_of words.new r ≡ with_next (W.row_of words.old r) chain.old.head }
    ensures others { (q : RefParts) → q.index ≢ r.index → W.row_of words.new q ≡ W.row_of words.old q }
    ensures owns { (q : RefParts) → W.owns words.old q → W.owns words.new q }

    // A chain that `r` isn't in stays the same list.
    ensures chains { (other : Chain) → IsChain (W.owns words.old) (W.row_of words.old) other
        → IsApart r (refs_of (W.row_of words.old) other)
        → IsKept (W.owns words.new) (W.row_of words.old) (W.row_of words.new) other }
    // It makes one store and no other step.
    ensures made { W.stores words.old r chain.old.head words.new }
    ensures same { W.same words.old words.new }
{
    // A reference is in range, so a chain of records that differ has room for one more.
    let _index = r.index;
    words.store_chain(r, chain.head);
    chain.head = Some(r);
    chain.count += 1;
}

/// Takes the first record off. `None` exactly where the chain is empty.
pub fn pop<W: ChainWords>(words: &mut W, chain: &mut Chain) -> Option<Ref>
    requires list { IsChain (W.owns words.old) (W.row_of words.old) chain.old }
    ensures refs { MatchOption result
        (refs_of (W.row_of words.old) chain.old ≡ [])
        (λ r. refs_of (W.row_of words.old) chain.old ≡ r ∷ refs_of (W.row_of words.new) chain.new) }
    ensures list { IsChain (W.owns words.new) (W.row_of words.new) chain.new }
    ensures empty { IfNone result (chain.new ≡ chain.old) }
    ensures owned { IfSome result (W.owns words.new) }
    ensures apart { IfSome result (λ r. IsApart r (refs_of (W.row_of words.new) chain.new)) }
    ensures rows { (q : RefParts) → W.row_of words.new q ≡ W.row_of words.old q }
    ensures owns { (q : RefParts) → W.owns words.old q → W.owns words.new q }

    // Every chain stays the same list.
    ensures chains { (other : Chain) → IsChain (W.owns words.old) (W.row_of words.old) other
        → IsKept (W.owns words.new) (W.row_of words.old) (W.row_of words.new) other }
    // It makes one load, or no step where the chain is empty.
    ensures made { MatchOption result (words.new ≡ words.old) (λ r. W.loads words.old r words.new) }
    ensures same { W.same words.old words.new }
{
    let first = chain.head?;
    chain.head = words.load_chain(first);
    chain.count -= 1;
    Some(first)
}
