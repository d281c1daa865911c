// What a call answers, be it an insertion, a removal or a search.
ghost use Rattle.std.specs.Prelude.{◌≡◌};
ghost use Rattle.set_api.specs.Answers.{of_insertion, of_look};

use set_model::{InsertAnswer, LookAnswer};

/// What a call on a concurrent set answers.
#[derive(Clone, Copy, Debug, PartialEq, Eq)]
pub enum Answer {
    /// An insertion added the key, a removal took it away, a search found it; or it did not.
    Done(bool),
    /// An insertion found no record left: the one draw of this call found this. Nothing changed.
    Full {
        /// The value of the word that shows it.
        found: u64,
    },
    /// The call needs a further hop and has made as many as its budget allows. Nothing changed, and the
    /// call may be made again.
    Again {
        /// How many hops it made: its budget.
        hops: u32,
    },
}

impl From<InsertAnswer> for Answer {
    ghost from_gives = { λ given answer. answer ≡ of_insertion given };

    fn from(given: InsertAnswer) -> Answer {
        match given {
            InsertAnswer::Done(added) => Answer::Done(added),
            InsertAnswer::Full { found } => Answer::Full { found },
            InsertAnswer::Again { hops } => Answer::Again { hops },
        }
    }
}

impl From<LookAnswer> for Answer {
    ghost from_gives = { λ given answer. answer ≡ of_look given };

    fn from(given: LookAnswer) -> Answer {
        match given {
            LookAnswer::Done(was) => Answer::Done(was),
            LookAnswer::Again { hops } => Answer::Again { hops },
        }
    }
}
