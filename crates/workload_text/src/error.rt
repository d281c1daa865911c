// Why a workload can't be read.
ghost use Rattle.std.specs.Prelude.{◌≡◌};
ghost use Rattle.workload_text.specs.declared.error.WorkloadError.TheVariants.{OutOfMemory};

use std::alloc::AllocFailed;
use thiserror::Error;

/// Why bytes were not read as a workload: which line of them is the first that may not stand where
/// it stands. Lines are numbered from 1.
#[derive(Clone, Copy, Debug, PartialEq, Eq, Error)]
pub enum WorkloadError {
    /// Line 1 is neither `setbench 1` nor `setbench 2`.
    #[error("line {line}: header")]
    Header { line: u32 },
    /// Line 2 isn't `callers N` with N from 1 to 64.
    #[error("line {line}: callers")]
    Callers { line: u32 },
    /// A later line may not stand there, for none of the reasons below; or bytes stand behind the
    /// line `end`, which are named by the number of the next line.
    #[error("line {line}: bad line")]
    BadLine { line: u32 },
    /// A call may stand there, and the line is one but for its key above 1,099,511,627,773.
    #[error("line {line}: key out of range")]
    KeyRange { line: u32 },
    /// Every line may stand where it stands, and none is `end`.
    #[error("no end")]
    NoEnd,
    /// A call may stand there, and the line is one, but 1,000,000 calls came before it.
    #[error("line {line}: too many calls")]
    TooManyCalls { line: u32 },
    /// Memory ran out. No clause says that it doesn't.
    #[error("out of memory")]
    OutOfMemory,
}

impl<T: Drop> From<AllocFailed<T>> for WorkloadError {
    ghost from_gives = { λ _ e. e ≡ OutOfMemory };

    fn from(_e: AllocFailed<T>) -> WorkloadError {
        WorkloadError::OutOfMemory
    }
}
