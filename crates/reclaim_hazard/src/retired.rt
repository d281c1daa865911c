// What a caller keeps for itself between its calls.
use row_words::Chain;

/// What a caller keeps for itself between its calls: whose it is, and what that caller retired.
#[derive(Drop)]
pub struct Retired {
    /// Its caller's number, from 0.
    pub caller: u32,
    /// How many callers there are, at most 64.
    pub callers: u32,
    /// The records that it retired and that no scan has freed.
    pub bag: Chain,
}
