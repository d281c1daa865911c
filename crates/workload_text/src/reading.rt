// Reading a workload from its text, in one pass.
ghost use Rattle.std.specs.Prelude.{◌≡◌, ◌≢◌, ℕ, ◌+◌, ◌-◌, ◌^◌, ◌<◌, ◌≤◌, ◌⊎◌, List, [], ◌∷◌, ◌++◌, IfOk, IfErr, Ok, Err};
ghost use Rattle.text_lines.specs.Lines.{line};
ghost use Rattle.workload_text.specs.declared.error.WorkloadError.{WorkloadError};
ghost use Rattle.workload_text.specs.Limits.{Plan, IsWorkload};
ghost use Rattle.workload_text.specs.Text.{Line, version_line, callers_line, caller_line, spelled, workload_lines, text_of, IsTextOf};
ghost use Rattle.workload_text.specs.Following.{at_start, behind_version, behind_callers, behind_end, MayFollow, MayAllFollow, place_after_all};
ghost use Rattle.workload_text.specs.Refusals.{Refuses, IsRefused};
ghost use Rattle.workload_text.specs.Progress.{IsHead, IsEnded};

use crate::error::WorkloadError;
use crate::lines::{number_behind, split_line};
use crate::progress::Progress;
use crate::seen::Seen;
use crate::turns::{Turn, turn_at};
use crate::workload::{MOST_CALLERS, Workload};
use std::alloc::Global;

/// The version that line 1 tells, and the bytes behind the line.
fn version_at(bytes: &[u8]) -> Result<(u8, &[u8]), WorkloadError>
    ensures may { IfOk result (λ x. MayFollow at_start (version_line x.0)) }
    ensures same { IfOk result (λ x. bytes.now ≡ line (spelled (version_line x.0)) ++ x.1.now) }
    ensures refused { IfErr result (λ e. Refuses at_start 1 bytes.now e) }
{
    let Some((text, rest)) = split_line(bytes) else {
        return Err(WorkloadError::NoEnd);
    };
    let Some(version) = number_behind(text, b"setbench", 2) else {
        return Err(WorkloadError::Header { line: 1 });
    };
    if version == 0 {
        return Err(WorkloadError::Header { line: 1 });
    }
    Ok((version as u8, rest))
}

/// The number of callers that line 2 tells, and the bytes behind the line.
fn callers_at(version: u8, bytes: &[u8]) -> Result<(u32, &[u8]), WorkloadError>
    ensures may { IfOk result (λ x. MayFollow (behind_version version) (callers_line x.0)) }
    ensures same { IfOk result (λ x. bytes.now ≡ line (spelled (callers_line x.0)) ++ x.1.now) }
    ensures refused { IfErr result (λ e. Refuses (behind_version version) 2 bytes.now e) }
{
    let Some((text, rest)) = split_line(bytes) else {
        return Err(WorkloadError::NoEnd);
    };
    let Some(callers) = number_behind(text, b"callers", u64::from(MOST_CALLERS)) else {
        return Err(WorkloadError::Callers { line: 2 });
    };
    if callers == 0 {
        return Err(WorkloadError::Callers { line: 2 });
    }
    Ok((callers as u32, rest))
}

/// The bytes behind the line of the first caller.
fn behind_first_caller(version: u8, callers: u32, bytes: &[u8]) -> Result<&[u8], WorkloadError>
    ensures same { IfOk result (λ rest. bytes.now ≡ line (spelled (caller_line 0)) ++ rest.now) }
    ensures refused { IfErr result (λ e. Refuses (behind_callers version callers) 3 bytes.now e) }
{
    let Some((text, rest)) = split_line(bytes) else {
        return Err(WorkloadError::NoEnd);
    };
    match number_behind(text, b"caller", 0) {
        Some(_) => Ok(rest),
        None => Err(WorkloadError::BadLine { line: 3 }),
    }
}

/// What the lines up to the first caller's tell, and the bytes behind them.
fn read_head(bytes: &[u8]) -> Result<(Seen, &[u8]), WorkloadError>
    ensures head { IfOk result (λ x. IsHead bytes.now x.0 x.1.now) }
    ensures refused { IfErr result (λ e. IsRefused bytes.now e) }
{
    let (version, rest) = version_at(bytes)?;
    let (callers, rest) = callers_at(version, rest)?;
    let rest = behind_first_caller(version, callers, rest)?;
    let seen = Seen {
        version,
        callers,
        caller: 0,
        calls: 0,
        phases: 0,
        first_phases: 0,
    };
    Ok((seen, rest))
}

/// The workload that was read up to its line `end`, which nothing may follow.
fn end_at(progress: Progress, rest: &[u8]) -> Result<Workload, WorkloadError>
    requires lines { progress.lines < 2 ^ 32 - 2 }
    requires ended { (bytes : List ℕ) × IsEnded bytes progress rest.now }
    ensures found { IfOk result (λ workload. (bytes : List ℕ) → IsEnded bytes progress rest.now
        → IsTextOf bytes workload) }
    ensures refused { IfErr result (λ e. (bytes : List ℕ) → IsEnded bytes progress rest.now
        → (e ≡ WorkloadError.OutOfMemory) ⊎ IsRefused bytes e) }
{
    if !rest.is_empty() {
        let line = progress.lines + 2;
        return Err(WorkloadError::BadLine { line });
    }
    progress.finish()
}

/// The workload whose text the bytes are, or the first of their lines that may not follow.
fn read_all(alloc: Global, bytes: &[u8]) -> Result<Workload, WorkloadError>
    ensures found { IfOk result (λ workload. IsTextOf bytes.now workload) }
    ensures refused { IfErr result (λ e. (e ≡ WorkloadError.OutOfMemory) ⊎ IsRefused bytes.now e) }
{
    let (seen, mut rest) = read_head(bytes)?;
    let mut progress = Progress::start(alloc, seen);
    loop {
        let (read, behind) = progress.read_calls(rest)?;
        let (turn, after) = turn_at(read.seen, read.lines + 1, behind)?;
        rest = after;
        progress = match turn {
            Turn::Phase => read.next_phase()?,
            Turn::Caller => read.next_caller(alloc)?,
            Turn::End => return end_at(read, rest),
        };
    }
}

/// Reads the text of a workload, all of the bytes, in one pass that keeps nothing but the calls and
/// the places of the lines `phase`. A refusal names the first line that may not follow the lines
/// before it, or tells that there is no further one and none was `end`.
pub fn read_workload(alloc: Global, bytes: &[u8]) -> Result<Workload, WorkloadError>
    // What is read is written so.
    ensures found { IfOk result (λ workload. IsTextOf bytes.now workload) }
    // What is refused is refused for the cause that is told.
    ensures refused { IfErr result (λ e. (e ≡ WorkloadError.OutOfMemory) ⊎ IsRefused bytes.now e) }
    // What is written so is read, unless memory runs out.
    ensures text { (plan : Plan) → IsTextOf bytes.now plan
        → (result ≡ Ok plan) ⊎ (result ≡ Err WorkloadError.OutOfMemory) }
    // Where there is a cause to refuse, that refusal comes, unless memory runs out.
    ensures cause { (e : WorkloadError) → IsRefused bytes.now e
        → (result ≡ Err e) ⊎ (result ≡ Err WorkloadError.OutOfMemory) }
{
    read_all(alloc, bytes)
}

/// The lines of a workload may each follow those before them, up to `end`; and lines that may are
/// those of a workload.
pub fn table_tells_workloads()
    ensures admitted { (plan : Plan) → IsWorkload plan → MayAllFollow at_start (workload_lines plan) }
    ensures ended { (plan : Plan) → IsWorkload plan
        → place_after_all at_start (workload_lines plan) ≡ behind_end }
    ensures lawful { (lines : List Line) → MayAllFollow at_start lines
        → place_after_all at_start lines ≡ behind_end
        → (plan : Plan) × IsWorkload plan × (lines ≡ workload_lines plan) }
{}

/// A text is that of one workload alone.
pub fn text_tells_workload()
    ensures { (a b : Plan) → IsWorkload a → IsWorkload b → text_of a ≡ text_of b → a ≡ b }
{}
