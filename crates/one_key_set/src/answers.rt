// What an insertion is answered.

/// What an insertion is answered.
#[derive(Clone, Copy, Debug, PartialEq, Eq)]
pub enum Added {
    /// Whether the key was added. It wasn't where it was there.
    Done(bool),
    /// The key was absent, and there was no record left to add it with. The set is as it was.
    Full {
        /// What the allocator's draw found, as its `NoRecord` says.
        found: u64,
    },
    /// A word had changed at each of the tries that the call was given. The set is as it was.
    Again,
}
