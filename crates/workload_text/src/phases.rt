// The phases of a caller, joined to one list and cut again.
ghost use Rattle.std.specs.Prelude.{◌≡◌, ◌+◌, ◌-◌, ◌^◌, ◌<◌, ◌≤◌, List, [], ◌∷◌, ◌++◌, length, slice_get, sum_by, Some, IfOk};
ghost use Rattle.workload_text.specs.Limits.{lists_of};
ghost use Rattle.workload_text.specs.Cuts.{AreCuts, cut_at};

use set_model::{Call, OutOfMemory};
use std::alloc::Global;

/// All calls of a caller, and how many of them come before each of its phases but the first.
#[derive(Debug, Drop)]
pub struct JoinedPhases {
    pub calls: Vec<Call>,
    pub cuts: Vec<u32>,
}

/// Joins the phases of a caller, of which there is at least one.
pub fn join_phases(alloc: Global, phases: &[Vec<Call>]) -> Result<JoinedPhases, OutOfMemory>
    requires some { 1 ≤ length phases.now }
    requires few { sum_by length (lists_of phases.now) < 2 ^ 32 }
    ensures phases { IfOk result (λ one. cut_at one.cuts.items one.calls.items ≡ lists_of phases.now) }
    ensures cuts { IfOk result (λ one. AreCuts 0 one.cuts.items (length one.calls.items)) }
{
    let mut calls = Vec::new(alloc);
    let mut cuts = Vec::new(alloc);
    for (i, phase) in phases.iter().enumerate() {
        if i > 0 {
            cuts.push(calls.len() as u32)?;
        }
        calls.extend_from_slice(phase)?;
    }
    Ok(JoinedPhases { calls, cuts })
}

/// Where a phase starts.
fn start_of(cuts: &[u32], phase: usize) -> usize
    requires { phase ≤ length cuts.now }
    ensures { slice_get (0 ∷ cuts.now) phase ≡ Some result }
{
    if phase == 0 {
        return 0;
    }
    cuts[phase - 1] as usize
}

/// Where a phase ends, of a caller with so many calls.
fn end_of(cuts: &[u32], phase: usize, calls: usize) -> usize
    requires { phase ≤ length cuts.now }
    ensures { slice_get (cuts.now ++ calls ∷ []) phase ≡ Some result }
{
    if phase == cuts.len() {
        return calls;
    }
    cuts[phase] as usize
}

/// The calls of one phase.
pub fn phase_of<'a>(calls: &'a [Call], cuts: &[u32], phase: usize) -> &'a [Call]
    requires cuts { AreCuts 0 cuts.now (length calls.now) }
    requires within { phase ≤ length cuts.now }
    ensures { slice_get (cut_at cuts.now calls.now) phase ≡ Some result.now }
{
    let start = start_of(cuts, phase);
    let end = end_of(cuts, phase, calls.len());
    &calls[start..end]
}
