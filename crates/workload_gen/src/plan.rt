// What a generated workload is to be.
ghost use Rattle.std.specs.Prelude.{◌*◌, ◌≤◌};

/// The sizes and the seed of a workload that is made by pseudorandom numbers.
#[derive(Clone, Copy, Debug, PartialEq, Eq)]
pub struct GenPlan {
    /// How many callers there are, 1 to 64.
    pub callers: u32,
    /// How many calls each of them makes. All callers together make at most 1,000,000.
    pub calls: u32,
    /// How many keys a caller chooses from, 1 to 268,435,456.
    pub keys: u32,
    /// The seed.
    pub seed: u64,
    /// Whether the callers share their keys. If not, no two callers have a key in common.
    pub shared: bool,
    pub ghost some_caller: { 1 ≤ callers },
    pub ghost few_callers: { callers ≤ 64 },
    pub ghost few_calls: { callers * calls ≤ 1000000 },
    pub ghost some_key: { 1 ≤ keys },
    pub ghost few_keys: { keys ≤ 268435456 },
}
