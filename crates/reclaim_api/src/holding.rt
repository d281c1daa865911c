// What a try to hold a record answers.
use record_table::Held;
use row_words::Link;

/// What a try to hold what a link leads to answers.
#[derive(Clone, Copy, Debug, PartialEq, Eq)]
pub enum Holding {
    /// The link leads nowhere.
    Null,
    /// What it leads to is held.
    Held(Held),
    /// The link has a mark, so its record's key is no longer in the set.
    Marked(Link),
    /// The link, or the epoch, changed while it was tried: this was found.
    Moved {
        /// The link's word, or the epoch.
        found: u64,
    },
}
