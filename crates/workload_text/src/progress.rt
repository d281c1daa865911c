// What was read of a text, from the first caller's line on.
ghost use Rattle.std.specs.Prelude.{◌≡◌, ◌≢◌, ℕ, ◌+◌, ◌-◌, ◌^◌, ◌<◌, ◌≤◌, ◌⊎◌, List, [], ◌++◌, length, IfOk, IfErr};
ghost use Rattle.set_model.specs.declared.calls.Call.{Call};
ghost use Rattle.text_lines.specs.Lines.{line};
ghost use Rattle.workload_text.specs.declared.turns.Turn.TheVariants.{Phase, Caller};
ghost use Rattle.workload_text.specs.Limits.{HasLawfulKey};
ghost use Rattle.text_lines.specs.Calls.{call_text};
ghost use Rattle.workload_text.specs.Text.{spelled, IsTextOf};
ghost use Rattle.workload_text.specs.Following.{in_caller, MayFollow};
ghost use Rattle.workload_text.specs.Turns.{line_of};
ghost use Rattle.workload_text.specs.Progress.{AreRead, IsHead, IsProgress, IsEnded};

use crate::error::WorkloadError;
use crate::lines::call_at;
use crate::seen::Seen;
use crate::workload::{MOST_CALLS, Workload};
use set_model::Call;
use std::alloc::Global;

/// What was read of a text, from the first caller's line on.
#[derive(Debug, Drop)]
pub struct Progress {
    /// What tells which line may follow.
    pub seen: Seen,
    /// How many lines were read.
    pub lines: u32,
    /// The calls of each caller that was read.
    pub lists: Vec<Vec<Call>>,
    /// Where they are cut into phases.
    pub cuts: Vec<Vec<u32>>,
    /// The calls so far of the caller that is read.
    pub calls: Vec<Call>,
    /// Where they are cut.
    pub open_cuts: Vec<u32>,
}

/// Reads the calls of the lines at the front, as many as there are and at most `room`, and puts them
/// behind others. It tells how many there were, and the bytes behind them.
fn calls_at<'a>(
    calls: &mut Vec<Call>,
    room: u32,
    bytes: &'a [u8],
) -> Result<(u32, &'a [u8]), WorkloadError>
    ensures read { IfOk result (λ x. AreRead calls.old.items calls.new.items bytes.now x.0 x.1.now) }
    ensures room { IfOk result (λ x. x.0 ≤ room) }
    ensures all { IfOk result (λ x. x.0 < room → (call : Call) (rest : List ℕ) → HasLawfulKey call
        → x.1.now ≢ line (call_text call) ++ rest) }
    ensures memory { IfErr result (λ e. e ≡ WorkloadError.OutOfMemory) }
{
    let mut rest = bytes;
    for count in 0..room {
        let Some((call, behind)) = call_at(rest) else {
            return Ok((count, rest));
        };
        calls.push(call)?;
        rest = behind;
    }
    Ok((room, rest))
}

impl Progress {
    /// What was read up to the first caller's line.
    pub fn start(alloc: Global, seen: Seen) -> Progress
        ensures seen { result.seen ≡ seen }
        ensures progress { (bytes rest : List ℕ) → IsHead bytes seen rest → IsProgress bytes result rest }
    {
        Progress {
            seen,
            lines: 3,
            lists: Vec::new(alloc),
            cuts: Vec::new(alloc),
            calls: Vec::new(alloc),
            open_cuts: Vec::new(alloc),
        }
    }

    /// Reads the calls at the front, up to 1,000,000 together with those before.
    pub fn read_calls(mut self, bytes: &[u8]) -> Result<(Progress, &[u8]), WorkloadError>
        requires calls { self.seen.calls ≤ 1000000 }
        requires lines { self.lines + 1000000 < 2 ^ 32 }
        ensures progress { IfOk result (λ x. (text : List ℕ) → IsProgress text self bytes.now
            → IsProgress text x.0 x.1.now) }
        ensures shorter { IfOk result (λ x. length x.1.now ≤ length bytes.now) }
        ensures all { IfOk result (λ x. x.0.seen.calls < 1000000 → (call : Call) (rest : List ℕ)
            → HasLawfulKey call → x.1.now ≢ line (call_text call) ++ rest) }
        ensures memory { IfErr result (λ e. e ≡ WorkloadError.OutOfMemory) }
    {
        let room = MOST_CALLS - self.seen.calls;
        let (count, rest) = calls_at(&mut self.calls, room, bytes)?;
        self.seen.calls += count;
        self.lines += count;
        Ok((self, rest))
    }

    /// Goes on to the caller's next phase.
    pub fn next_phase(mut self) -> Result<Progress, WorkloadError>
        requires few { length self.calls.items ≤ 1000000 }
        requires room { (self.lines < 2 ^ 32 - 1) × (self.seen.phases < 1000) × (self.seen.first_phases ≤ 1000) }
        ensures progress { IfOk result (λ next. (bytes rest behind : List ℕ) → IsProgress bytes self rest
            → MayFollow (in_caller self.seen) (line_of self.seen Phase)
            → rest ≡ line (spelled (line_of self.seen Phase)) ++ behind → IsProgress bytes next behind) }
        ensures memory { IfErr result (λ e. e ≡ WorkloadError.OutOfMemory) }
    {
        self.open_cuts.push(self.calls.len() as u32)?;
        self.lines += 1;
        self.seen.phases += 1;
        if self.seen.caller == 0 {
            self.seen.first_phases += 1;
        }
        Ok(self)
    }

    /// Goes on to the next caller.
    pub fn next_caller(self, alloc: Global) -> Result<Progress, WorkloadError>
        requires room { (self.lines < 2 ^ 32 - 1) × (self.seen.caller < 64) }
        ensures progress { IfOk result (λ next. (bytes rest behind : List ℕ) → IsProgress bytes self rest
            → MayFollow (in_caller self.seen) (line_of self.seen Caller)
            → rest ≡ line (spelled (line_of self.seen Caller)) ++ behind → IsProgress bytes next behind) }
        ensures memory { IfErr result (λ e. e ≡ WorkloadError.OutOfMemory) }
    {
        let Progress {
            mut seen,
            lines,
            mut lists,
            mut cuts,
            calls,
            open_cuts,
        } = self;
        lists.push(calls)?;
        cuts.push(open_cuts)?;
        seen.caller += 1;
        seen.phases = 0;
        Ok(Progress {
            seen,
            lines: lines + 1,
            lists,
            cuts,
            calls: Vec::new(alloc),
            open_cuts: Vec::new(alloc),
        })
    }

    /// The workload that was read, up to its line `end`.
    pub fn finish(self) -> Result<Workload, WorkloadError>
        requires { (bytes : List ℕ) × (rest : List ℕ) × IsEnded bytes self rest }
        ensures text { IfOk result (λ workload. (bytes : List ℕ) → IsEnded bytes self [] → IsTextOf bytes workload) }
        ensures memory { IfErr result (λ e. e ≡ WorkloadError.OutOfMemory) }
    {
        let Progress {
            seen,
            lines: _,
            mut lists,
            mut cuts,
            calls,
            open_cuts,
        } = self;
        lists.push(calls)?;
        if seen.version == 1 {
            return Ok(Workload::of(lists));
        }
        cuts.push(open_cuts)?;
        Ok(Workload::cut(lists, cuts))
    }
}
