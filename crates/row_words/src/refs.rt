// References to records: an index into the table and the generation that the reference is to.
ghost use Rattle.std.specs.Prelude.{◌≡◌, ◌+◌, ◌<◌, ◌≤◌, ◌^◌, ◌⊎◌, MatchOption};
ghost use Rattle.row_words.specs.Refs.{IsGeneration, IsIndex, IsRef, LAST_GENERATION, refer};

use std::marker::Model;

/// How many times a record was handed out, from 1 to 1,048,575. Each word of a record carries its
/// own record's generation, and a reference carries its target's.
#[derive(Clone, Copy, Debug, PartialEq, Eq)]
pub struct Generation {
    number: u32,
}

impl Model for Generation {
    ghost use Rattle.std.specs.Prelude.{ℕ};
    ghost use Rattle.row_words.specs.Refs.{IsGeneration};

    ghost Value = { ℕ };

    ghost view = { λ g. g.number };

    ghost invariant = { λ g. IsGeneration g.number };

    ghost inverse = { λ n. record { number = n } };
}

impl Generation {
    /// The last generation. A record that is freed at it is spent and is handed out no more.
    const LAST: u32 = 1_048_575;

    /// The generation of this number. `None` exactly where it is 0 or above 1,048,575.
    pub fn new(n: u32) -> Option<Generation>
        ensures { MatchOption result ((n ≡ 0) ⊎ (LAST_GENERATION < n)) (λ g. (g ≡ n) × IsGeneration n) }
    {
        if n == 0 || n > Generation::LAST {
            None
        } else {
            Some(Generation { number: n })
        }
    }

    /// Its number, from 1 to 1,048,575.
    pub fn get(self) -> u32
        ensures number { result ≡ self }
        ensures in_range { IsGeneration self }
    {
        self.number
    }

    /// The generation after it. `None` exactly at the last one.
    pub fn next(self) -> Option<Generation>
        ensures { MatchOption result (self ≡ LAST_GENERATION) (λ g. (g ≡ self + 1) × IsGeneration g) }
    {
        if self.number == Generation::LAST {
            None
        } else {
            Some(Generation {
                number: self.number + 1,
            })
        }
    }
}

/// A record by its index in the table, from 1 to 1,048,575, and the generation that is meant. Once
/// the record is handed out anew, the reference names it no more.
#[derive(Clone, Copy, Debug, PartialEq, Eq)]
pub struct Ref {
    /// The record's index, from 1 to 1,048,575.
    pub index: u32,
    /// The generation of the record that is meant.
    pub generation: Generation,
}

impl Model for Ref {
    ghost use Rattle.row_words.specs.Refs.{RefParts, refer, IsRef};

    ghost Value = { RefParts };

    ghost view = { λ r. refer r.index r.generation };

    ghost invariant = { λ r. IsRef (refer r.index r.generation) };

    ghost inverse = { λ p. record { index = p.index; generation = p.generation } };
}

impl Ref {
    /// The reference to the record at `index`, from 1 to 1,048,575, at this generation.
    pub fn new(index: u32, generation: Generation) -> Ref
        requires { IsIndex index }
        ensures parts { result ≡ refer index generation }
        ensures in_range { IsRef result }
    {
        let _number = generation.number;
        Ref { index, generation }
    }
}
