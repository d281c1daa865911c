// The parts of the record manager that the command words and reports name.

/// A set.
#[derive(Clone, Copy, Debug, PartialEq, Eq)]
pub enum SetName {
    /// A sorted vector without records, played one caller after another.
    Plain,
    /// Michael's list in buckets.
    Michael,
    /// The lazy list of Heller and others.
    Lazy,
}

/// A reclaimer. `Nothing` never frees.
#[derive(Clone, Copy, Debug, PartialEq, Eq)]
pub enum ReclaimerName {
    /// No reclamation: what is retired stays in limbo.
    Nothing,
    /// Brown's DEBRA, epochs by caller.
    Debra,
    /// Michael's hazard pointers.
    Hazard,
    /// 2GEIBR, intervals of epochs (Wen and others).
    Ibr,
}

/// An allocator.
#[derive(Clone, Copy, Debug, PartialEq, Eq)]
pub enum AllocatorName {
    /// One shared word that counts the records drawn.
    Bump,
    /// A range of records for each caller.
    Once,
}
