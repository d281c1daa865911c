// How many keys, and their sums.

/// How many keys some calls added and took away, and the sums of these keys.
#[derive(Clone, Copy, Debug, PartialEq, Eq)]
pub struct Tally {
    /// How many insertions were answered `Yes`.
    pub added: u64,
    /// How many removals were answered `Yes`.
    pub removed: u64,
    /// The sum of the keys of those insertions.
    pub added_sum: u128,
    /// The sum of the keys of those removals.
    pub removed_sum: u128,
}
