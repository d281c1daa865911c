// Commands and their settings, as words give them.

use set_model::{AllocatorName, ReclaimerName, SetName};

/// What the words of `play` choose. The set and the reclaimer may be a pair that isn't lawful.
#[derive(Clone, Copy, Debug, PartialEq, Eq)]
pub struct PlayWords {
    /// The set that is played.
    pub set: SetName,
    /// The reclaimer under which it is played.
    pub reclaimer: ReclaimerName,
    /// The allocator that draws its records.
    pub allocator: AllocatorName,
    /// How many buckets a hash table has, 1 to 4,096.
    pub buckets: u32,
    /// How many records there are, 1 to 1,048,575, where the words say so.
    pub records: Option<u32>,
}

/// What the words of `generate` and `trial` choose: which workload is made.
#[derive(Clone, Copy, Debug, PartialEq, Eq)]
pub struct Workloads {
    /// How many callers it has, 1 to 64.
    pub callers: u32,
    /// How many calls each of them makes. All together are at most 1,000,000.
    pub calls: u32,
    /// How many keys a caller draws from, 1 to 268,435,456.
    pub keys: u32,
    /// What the draws start from.
    pub seed: u64,
    /// Whether callers share their keys.
    pub shared: bool,
}

/// What the words of `trial` choose.
#[derive(Clone, Copy, Debug, PartialEq, Eq)]
pub struct TrialWords {
    /// The set that is played.
    pub set: SetName,
    /// The reclaimer under which it is played.
    pub reclaimer: ReclaimerName,
    /// The workload that is made and played. Its callers share no key.
    pub workload: Workloads,
}

/// A command.
#[derive(Clone, Copy, Debug, PartialEq, Eq)]
pub enum Command {
    /// Play the workload that is read, and print its report.
    Play(PlayWords),
    /// Read a workload, and print how large it is.
    Check,
    /// Make a workload, and print its text.
    Generate(Workloads),
    /// Make a workload, play it, and print a summary.
    Trial(TrialWords),
}

/// The first word of a command.
#[derive(Clone, Copy, Debug, PartialEq, Eq)]
pub enum Mode {
    /// That of `Command::Play`.
    Play,
    /// That of `Command::Check`.
    Check,
    /// That of `Command::Generate`.
    Generate,
    /// That of `Command::Trial`.
    Trial,
}
