// The lines behind the calls of a phase: a next phase, a next caller, the end, or what is refused.
ghost use Rattle.std.specs.Prelude.{◌≡◌, ◌≢◌, ℕ, ◌+◌, ◌<◌, ◌≤◌, ◌↔◌, List, ◌++◌, codes, IsTrue, IfSome, IfNone, IfOk, IfErr};
ghost use Rattle.set_model.specs.declared.calls.Call.{Call};
ghost use Rattle.text_lines.specs.Lines.{line};
ghost use Rattle.workload_text.specs.declared.seen.Seen.{Seen};
ghost use Rattle.workload_text.specs.Limits.{HasLawfulKey};
ghost use Rattle.text_lines.specs.Calls.{call_text};
ghost use Rattle.workload_text.specs.Text.{Line, spelled};
ghost use Rattle.workload_text.specs.Following.{in_caller, HasPhaseLeft, HasAllPhases, MayFollow};
ghost use Rattle.workload_text.specs.Refusals.{IsAsked, IsKind, Refuses};
ghost use Rattle.workload_text.specs.Turns.{line_of, IsNoCall};

use crate::error::WorkloadError;
use crate::lines::{number_behind, split_line};
use crate::seen::Seen;
use crate::workload::{MOST_CALLERS, MOST_KEY, MOST_PHASE_LINES};
use text_lines::{Number, read_number};

/// What a line is that stands behind the calls of a phase.
#[derive(Clone, Copy, Debug)]
pub enum Turn {
    /// The caller's next phase begins.
    Phase,
    /// The next caller begins.
    Caller,
    /// The workload ends.
    End,
}

/// Whether the caller may go on to a next phase.
fn has_phase_left(seen: Seen) -> bool
    ensures { IsTrue result ↔ HasPhaseLeft seen }
{
    if seen.caller == 0 {
        seen.phases < MOST_PHASE_LINES
    } else {
        seen.phases < seen.first_phases
    }
}

/// Whether the caller has as many phases as the first.
fn has_all_phases(seen: Seen) -> bool
    ensures { IsTrue result ↔ HasAllPhases seen }
{
    seen.caller == 0 || seen.phases == seen.first_phases
}

/// What the line with this text is, where it may stand here and is no call.
fn turn_of(seen: Seen, text: &[u8]) -> Option<Turn>
    requires { seen.callers ≤ 64 }
    ensures found { IfSome result (λ turn. MayFollow (in_caller seen) (line_of seen turn)
        × (text.now ≡ spelled (line_of seen turn))) }
    ensures none { IfNone result ((next : Line) → IsNoCall next → MayFollow (in_caller seen) next
        → text.now ≢ spelled next) }
{
    if text == b"phase".as_slice() {
        let may = seen.version == 2 && has_phase_left(seen);
        return if may { Some(Turn::Phase) } else { None };
    }
    if !has_all_phases(seen) {
        return None;
    }
    if text == b"end".as_slice() {
        let is_last = u64::from(seen.caller) + 1 == u64::from(seen.callers);
        return if is_last { Some(Turn::End) } else { None };
    }
    let caller = number_behind(text, b"caller", u64::from(MOST_CALLERS))?;
    if caller != u64::from(seen.caller) + 1 {
        return None;
    }
    if caller < u64::from(seen.callers) {
        Some(Turn::Caller)
    } else {
        None
    }
}

/// The bytes behind a call's letter and a blank. None where the text doesn't start so.
fn digits_asked(text: &[u8]) -> Option<&[u8]>
    ensures found { IfSome result (λ digits. IsAsked text.now digits.now) }
    ensures none { IfNone result ((digits : List ℕ) → ¬ (IsAsked text.now digits)) }
{
    match text {
        [b'i', b' ', digits @ ..] => Some(digits),
        [b'r', b' ', digits @ ..] => Some(digits),
        [b's', b' ', digits @ ..] => Some(digits),
        _ => None,
    }
}

/// Of what kind a line is that may not stand among calls.
fn kind_of(text: &[u8], line: u32) -> WorkloadError
    ensures { (seen : Seen) → IsKind (in_caller seen) text.now line result }
{
    let Some(digits) = digits_asked(text) else {
        return WorkloadError::BadLine { line };
    };
    match read_number(digits, MOST_KEY) {
        Number::Value(_) => WorkloadError::TooManyCalls { line },
        Number::TooLarge => WorkloadError::KeyRange { line },
        Number::NoNumber => WorkloadError::BadLine { line },
    }
}

/// What the line at the front is, which has this number and is no call that may stand here; and the
/// bytes behind it.
pub fn turn_at(seen: Seen, number: u32, bytes: &[u8]) -> Result<(Turn, &[u8]), WorkloadError>
    requires callers { seen.callers ≤ 64 }
    requires no_call { seen.calls < 1000000 → (call : Call) (rest : List ℕ) → HasLawfulKey call
        → bytes.now ≢ line (call_text call) ++ rest }
    ensures may { IfOk result (λ x. MayFollow (in_caller seen) (line_of seen x.0)) }
    ensures same { IfOk result (λ x. bytes.now ≡ line (spelled (line_of seen x.0)) ++ x.1.now) }
    ensures refused { IfErr result (λ e. Refuses (in_caller seen) number bytes.now e) }
{
    let Some((text, rest)) = split_line(bytes) else {
        return Err(WorkloadError::NoEnd);
    };
    match turn_of(seen, text) {
        Some(turn) => Ok((turn, rest)),
        None => Err(kind_of(text, number)),
    }
}
