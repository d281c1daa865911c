// What a caller keeps for itself between its calls.
use row_words::Chain;

/// What a caller keeps for itself between its calls: whose it is, the upper end of its interval, how many records
/// became its own and how many it retired, and those of them that no scan has freed.
#[derive(Drop)]
pub struct Interval {
    /// Its caller's number, from 0.
    pub caller: u32,
    /// How many callers there are, at most 64.
    pub callers: u32,
    /// The upper end that it announced last, an epoch; 0 before it first entered.
    pub upper: u64,
    /// How many births it was answered, modulo 16.
    pub births: u8,
    /// How many records it retired, modulo 16.
    pub retired: u8,
    /// The records that it retired and that no scan has freed.
    pub bag: Chain,
}
