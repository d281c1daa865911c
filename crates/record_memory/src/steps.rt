// The words of the table by name, and the atomic steps that callers made on them.
use row_words::Ref;

/// A word of the table, by what it is for.
pub enum Word {
    /// How many records were drawn from the front, the roots among them.
    Drawn,
    /// The epoch.
    Epoch,
    /// The lock of the pool: 0, or its holder's number plus 1.
    Lock,
    /// A word that holds 0.
    Blank,
    /// A shelf of the pool, from 0.
    Shelf(u64),
    /// An announcement word. Caller `c` has the four from `4 * c`.
    Announced(u64),
    /// How many records this caller drew from its own range.
    Cursor(u64),
    /// A word, from 0 to 7, of the record with this index, from 1.
    Field(u64, u64),
}

/// What an atomic step does to its word.
pub enum StepKind {
    /// It leaves it.
    Load,
    /// It stores a value.
    Store,
    /// It stores a value and gives the one that it found.
    Swap,
    /// It adds 1 and gives the value that it found.
    Add,
    /// It stores a value where it finds the one that it expects.
    Exchange,
}

/// One atomic step that a caller made.
pub struct Step {
    /// What it does.
    pub kind: StepKind,
    /// On which word.
    pub word: Word,
    /// For a step on a held record, the reference by which the caller holds it.
    pub held: Option<Ref>,
    /// The value that the word had.
    pub found: u64,
    /// The value that the word has afterwards.
    pub left: u64,
    /// How many records were free or spare of this caller just before.
    pub idle: u64,
}
