// What the lines before a line tell of it.

/// What the lines up to some line of a caller tell of the one behind it.
#[derive(Clone, Copy, Debug)]
pub struct Seen {
    /// The version of the text, 1 or 2.
    pub version: u8,
    /// How many callers there are, 1 to 64.
    pub callers: u32,
    /// The caller whose line came last, from 0.
    pub caller: u32,
    /// How many calls there were, of all callers together, up to 1,000,000.
    pub calls: u32,
    /// How many lines `phase` this caller had, up to 1,000.
    pub phases: u32,
    /// How many the first caller had.
    pub first_phases: u32,
}
