// Reading a source to its end.
ghost use Rattle.std.specs.Prelude.{◌≡◌, ◌≢◌, ◌≤◌, length, IfOk, IfErr, IsErrOf};
ghost use Rattle.outside.specs.Faults.{one_more};
ghost use Rattle.bench_core.specs.Reading.{GaveAll, GaveTooMany, GaveFew};
ghost use Rattle.bench_core.specs.declared.reading.ReadError.TheVariants.{OutOfMemory};

use outside::{Source, Taking};
use std::alloc::{AllocError, Global};

/// How many bytes are taken at most in one piece.
const PIECE_SIZE: usize = 4096;
/// How many bytes a workload has at most.
const MOST_BYTES: usize = 67_108_864;

/// Why a source was not read to its end.
#[derive(Clone, Copy, Debug, PartialEq, Eq)]
pub enum ReadError {
    /// The source failed.
    Fault,
    /// The source gave more bytes than a workload has.
    TooLong,
    /// Memory ran out.
    OutOfMemory,
}

impl From<AllocError> for ReadError {
    ghost from_gives = { λ _ e. e ≡ OutOfMemory };

    fn from(_e: AllocError) -> ReadError {
        ReadError::OutOfMemory
    }
}

/// Reads all that the source gives, at most 67,108,864 bytes, in pieces of at most 4,096. The first fault ends it, and so does the
/// first byte too many.
pub fn read_all<S: Source>(alloc: Global, source: &mut S) -> Result<Vec<u8>, ReadError>
    ensures all { IfOk result (λ bytes. GaveAll S.left source.old source.new bytes.items) }
    ensures most { IfOk result (λ bytes. length bytes.items ≤ 67108864) }
    ensures fault { IsErrOf result ReadError.Fault → S.faults source.new ≡ one_more (S.faults source.old) }
    ensures kept { IfOk result (λ _. S.faults source.new ≡ S.faults source.old) }
    ensures kept_at_error { IfErr result (λ e. e ≢ ReadError.Fault → S.faults source.new ≡ S.faults source.old) }
    ensures too_long { IsErrOf result ReadError.TooLong
        → GaveTooMany S.left source.old source.new }
    ensures fault_within { IsErrOf result ReadError.Fault → GaveFew S.left source.old source.new }
    ensures memory_within { IsErrOf result ReadError.OutOfMemory → GaveFew S.left source.old source.new }
{
    let mut bytes = Vec::new(alloc);
    let mut piece = [0u8; PIECE_SIZE];
    'pieces: loop {
        match source.take(&mut piece) {
            Taking::Bytes(count) => {
                if count > MOST_BYTES - bytes.len() {
                    return Err(ReadError::TooLong);
                }
                bytes.extend_from_slice(&piece[..count])?;
            }
            Taking::End => return Ok(bytes),
            Taking::Failed => return Err(ReadError::Fault),
        }
    }
}
