// The words of rows that chains need, as a caller sees them.
ghost use Rattle.std.specs.Prelude.{◌≡◌, ◌≢◌, ℕ, Option};
ghost use Rattle.row_words.specs.Refs.{RefParts};
ghost use Rattle.row_words.specs.Rows.{Row, with_next};

use crate::Ref;

/// The rows of records as one caller sees them. Each call asks that the caller owns the record's
/// chain word, which its steps alone change, so it knows what stands there. Births and stamps are
/// read and never written.
pub trait ChainWords {
    // Whether the caller owns the record's chain word.
    ghost owns: { Self → RefParts → Type 0 };

    // What stands in the row of a record whose chain word it owns.
    ghost row_of: { Self → RefParts → Row };

    // What no call of these changes beside the rows. The implementor says what that is.
    ghost same: { Self → Self → Type 0 };

    // What one load of the record's chain word leaves, and one store.
    ghost loads: { Self → RefParts → Self → Type 0 };

    ghost stores: { Self → RefParts → Option RefParts → Self → Type 0 };

    // What one load of another word of the record's row leaves: word 0 is its birth, word 2 its stamp.
    ghost looks: { Self → RefParts → ℕ → Self → Type 0 };

    /// The record that comes after `r` in its chain.
    fn load_chain(&mut self, r: Ref) -> Option<Ref>
        requires owned { owns self.old r }
        ensures next { result ≡ (row_of self.old r).next }
        ensures rows { (q : RefParts) → row_of self.new q ≡ row_of self.old q }
        ensures owned { (q : RefParts) → owns self.old q → owns self.new q }
        ensures made { loads self.old r self.new }
        ensures same { same self.old self.new };

    /// Makes `next` the record that comes after `r`, or lets its chain end there.
    fn store_chain(&mut self, r: Ref, next: Option<Ref>)
        requires owned { owns self.old r }
        ensures stored { row_of self.new r ≡ with_next (row_of self.old r) next }
        ensures others { (q : RefParts) → q.index ≢ r.index → row_of self.new q ≡ row_of self.old q }
        ensures owned { (q : RefParts) → owns self.old q → owns self.new q }
        ensures made { stores self.old r next self.new }
        ensures same { same self.old self.new };

    /// The epoch at which the record was handed out.
    fn load_birth(&mut self, r: Ref) -> u64
        requires owned { owns self.old r }
        ensures birth { result ≡ (row_of self.old r).birth }
        ensures rows { (q : RefParts) → row_of self.new q ≡ row_of self.old q }
        ensures owned { (q : RefParts) → owns self.old q → owns self.new q }
        ensures made { looks self.old r 0 self.new }
        ensures same { same self.old self.new };

    /// The stamp that the record was retired with.
    fn load_stamp(&mut self, r: Ref) -> u64
        requires owned { owns self.old r }
        ensures stamp { result ≡ (row_of self.old r).stamp }
        ensures rows { (q : RefParts) → row_of self.new q ≡ row_of self.old q }
        ensures owned { (q : RefParts) → owns self.old q → owns self.new q }
        ensures made { looks self.old r 2 self.new }
        ensures same { same self.old self.new };

    // Making no call changes nothing, and what two calls keep stays over both.
    ghost same_start: { (w : Self) → same w w };

    ghost same_then: { (u v w : Self) → same u v → same v w → same u w };
}
