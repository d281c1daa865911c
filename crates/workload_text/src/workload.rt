// A workload: lists of calls, within limits that every reader and every set counts on.
ghost use Rattle.std.specs.Prelude.{◌≡◌, ◌+◌, ◌<◌, ◌≤◌, List, ◌∷◌, [], length, slice_get, sum_by, Some, IfOk};
ghost use Rattle.set_model.specs.declared.calls.Call.{Call};
ghost use Rattle.workload_text.specs.Limits.{IsWorkload, joined, total_of, phase_lines, lists_of, plan_of, phases_held, phased_plan};
ghost use Rattle.workload_text.specs.Cuts.{plan_held, IsHeld, cuts_of};

use crate::phases::{join_phases, phase_of};
use set_model::{Call, OutOfMemory};
use std::alloc::Global;
use std::marker::Model;

/// The most callers of a workload. It has at least one.
pub const MOST_CALLERS: u32 = 64;
/// The most calls of a workload, of all callers together.
pub const MOST_CALLS: u32 = 1_000_000;
/// The greatest key of a call.
pub const MOST_KEY: u64 = 1_099_511_627_773;
/// The most lines `phase` of a caller, which has one phase more than that.
pub const MOST_PHASE_LINES: u32 = 1_000;

/// What each caller asks of a set, in order: for each of 1 to 64 callers a list of phases, all of
/// them as many, 1 to 1,001, and each phase a list of calls, 1,000,000 calls at most together, with
/// keys of at most 1,099,511,627,773. In version 1 there is one phase. Contracts see the version
/// and the lists. All calls of a phase come before all calls of the next one.
#[derive(Debug, Drop)]
pub struct Workload {
    // The calls of each caller, of all its phases.
    lists: Vec<Vec<Call>>,
    // How many calls of the caller come before each of its phases but the first; in version 1 none.
    cuts: Option<Vec<Vec<u32>>>,
}

/// The list of one caller.
fn list_at(lists: &[Vec<Call>], caller: u32) -> &[Call]
    requires { caller < length lists.now }
    ensures { slice_get (lists_of lists.now) caller ≡ Some result.now }
{
    lists[caller as usize].as_slice()
}

/// The cuts of one caller.
fn cuts_at(cuts: &[Vec<u32>], caller: u32) -> &[u32]
    requires { caller < length cuts.now }
    ensures { slice_get (cuts_of cuts.now) caller ≡ Some result.now }
{
    cuts[caller as usize].as_slice()
}

/// How many calls there are in all lists.
fn total_of_all(lists: &[Vec<Call>]) -> u32
    requires { sum_by length (lists_of lists.now) ≤ 1000000 }
    ensures { result ≡ sum_by length (lists_of lists.now) }
{
    let mut total = 0;
    for calls in lists {
        total += calls.len() as u32;
    }
    total
}

impl Model for Workload {
    ghost use Rattle.workload_text.specs.Limits.{Plan};
    ghost use Rattle.workload_text.specs.Cuts.{plan_held, IsHeld};

    ghost Value = { Plan };

    ghost view = { λ a. plan_held a.lists.items a.cuts };

    ghost invariant = { λ a. IsHeld a.lists.items a.cuts };
}

impl Workload {
    /// The workload of version 1 of these lists, one for each caller. They are within the limits.
    pub fn of(lists: Vec<Vec<Call>>) -> Workload
        requires { IsWorkload (plan_of (lists_of lists.items)) }
        ensures plan { result ≡ plan_of (lists_of lists.items) }
        ensures limits { IsWorkload result }
    {
        Workload { lists, cuts: None }
    }

    /// The workload of version 2 of callers, their phases and the calls of these. They are within
    /// the limits, and all callers have as many phases. It joins the phases of each caller.
    pub fn with_phases(alloc: Global, lists: Vec<Vec<Vec<Call>>>) -> Result<Workload, OutOfMemory>
        requires { IsWorkload (phased_plan (phases_held lists.items)) }
        ensures plan { IfOk result (λ workload. workload ≡ phased_plan (phases_held lists.items)) }
        ensures limits { IfOk result (λ workload. IsWorkload workload) }
    {
        let mut joined_lists = Vec::new(alloc);
        let mut cut_lists = Vec::new(alloc);
        for phases in &lists {
            let one = join_phases(alloc, phases)?;
            joined_lists.push(one.calls)?;
            cut_lists.push(one.cuts)?;
        }
        Ok(Workload::cut(joined_lists, cut_lists))
    }

    /// The workload of version 2 of joined lists and their cuts.
    pub(crate) fn cut(lists: Vec<Vec<Call>>, cuts: Vec<Vec<u32>>) -> Workload
        requires { IsHeld lists.items (Some cuts) }
        ensures { result ≡ plan_held lists.items (Some cuts) }
    {
        Workload {
            lists,
            cuts: Some(cuts),
        }
    }

    /// The version of its text, 1 or 2.
    pub fn version(&self) -> u8
        ensures version { result ≡ self.now.version }
        ensures limits { IsWorkload self.now }
    {
        match self.cuts {
            None => 1,
            Some(_) => 2,
        }
    }

    /// How many callers it has, 1 to 64.
    pub fn callers(&self) -> u32
        ensures count { result ≡ length self.now.lists }
        ensures limits { IsWorkload self.now }
    {
        self.lists.len() as u32
    }

    /// How many lines `phase` each caller has, 0 to 1,000: one fewer than it has phases.
    pub fn phases(&self) -> u32
        ensures count { result ≡ phase_lines self.now.lists }
        ensures limits { IsWorkload self.now }
    {
        match &self.cuts {
            None => 0,
            Some(cuts) => cuts_at(cuts, 0).len() as u32,
        }
    }

    /// The calls of one caller in all its phases, in order. Callers are numbered from 0.
    pub fn calls_of(&self, caller: u32) -> &[Call]
        requires { caller < length self.now.lists }
        ensures calls { slice_get (joined self.now.lists) caller ≡ Some result.now }
        ensures limits { IsWorkload self.now }
    {
        list_at(&self.lists, caller)
    }

    /// The calls of one caller in one phase, in order. Callers and phases are numbered from 0.
    pub fn calls_in(&self, caller: u32, phase: u32) -> &[Call]
        requires caller { caller < length self.now.lists }
        requires phase { phase ≤ phase_lines self.now.lists }
        ensures calls { (phases : List (List Call)) → slice_get self.now.lists caller ≡ Some phases
            → slice_get phases phase ≡ Some result.now }
        ensures limits { IsWorkload self.now }
    {
        let calls = list_at(&self.lists, caller);
        match &self.cuts {
            None => calls,
            Some(cuts) => phase_of(calls, cuts_at(cuts, caller), phase as usize),
        }
    }

    /// How many calls it has, of all callers together, 0 to 1,000,000.
    pub fn total(&self) -> u32
        ensures sum { result ≡ total_of self.now.lists }
        ensures limits { IsWorkload self.now }
    {
        total_of_all(&self.lists)
    }

    /// Gives the calls back, one list for each caller, all its phases joined. Takes no memory.
    pub fn into_lists(self) -> Vec<Vec<Call>>
        ensures lists { lists_of result.items ≡ joined self.lists }
        ensures limits { IsWorkload self }
    {
        self.lists
    }
}
