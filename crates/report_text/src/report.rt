// The report of a run.
ghost use Rattle.std.specs.Prelude.{◌≡◌, length};

use listed::Listed;
use set_model::{Call, Counts, ReclaimerName, Reply, SetName};

/// The calls of one caller, and the reply to each.
#[derive(Debug, Drop)]
pub struct Played {
    /// The calls, in order.
    pub calls: Listed<Call>,
    /// The reply to each of them.
    pub replies: Listed<Reply>,
    pub ghost paired: { length calls ≡ length replies },
}

/// What a run has to tell.
#[derive(Debug, Drop)]
pub struct Report {
    /// Which set was played.
    pub set: SetName,
    /// Under which reclaimer.
    pub reclaimer: ReclaimerName,
    /// What each caller played, in order of the callers' numbers.
    pub callers: Listed<Played>,
    /// How many keys were in the set in the end.
    pub size: u64,
    /// The sum of these keys.
    pub sum: u64,
    /// What became of the records.
    pub counts: Counts,
}

/// What printing came to.
#[derive(Clone, Copy, Debug, PartialEq, Eq)]
pub enum Printed {
    /// The sink got the whole text.
    Done,
    /// A put failed. The sink got a front of the text.
    WriteFault,
}
