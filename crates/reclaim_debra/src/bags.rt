// What a caller keeps for itself between its calls.
use row_words::Chain;

/// What a caller keeps for itself between its calls: its last reading of the epoch, how far its scan has
/// come, and a bag of retired records for each of its last three readings.
#[derive(Drop)]
pub struct Bags {
    /// The epoch that it read last, from 1 to 17,592,186,044,415.
    pub reading: u64,
    /// How many callers its scan has passed since.
    pub place: u32,
    /// The records that it retired since its last reading.
    pub current: Chain,
    /// Those that it retired between the reading before and its last one.
    pub second: Chain,
    /// Those that it retired before the reading before, and after the one before that.
    pub third: Chain,
}
