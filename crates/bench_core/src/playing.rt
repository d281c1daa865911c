// Playing a workload on a plain set, phase by phase, and in each phase one caller after another.
ghost use Rattle.std.specs.Prelude.{◌≡◌, ◌+◌, ◌≤◌, [], ◌++◌, length, sum_by, vec_capacity, IfOk};
ghost use Rattle.set_model.specs.Keys.{empty, size_of};
ghost use Rattle.set_model.specs.Machine.{insertions_in, keys_after_all, replies_of};
ghost use Rattle.workload_text.specs.Limits.{joined};
ghost use Rattle.bench_core.specs.Plays.{order_of, called, keys_left, AreReady, AreTold, IsPlainRun};

use outside::Gate;
use paired_replies::pair_up;
use report_text::{Played, Report};
use set_model::{Call, OutOfMemory, PlainSet, ReclaimerName, Reply, SetName};
use set_runs::NO_COUNTS;
use std::alloc::Global;
use workload_text::Workload;

/// All memory of a run: the set, the replies to each caller and what is reported of the callers.
#[derive(Debug, Drop)]
struct Memory {
    /// It has room for each insertion.
    set: PlainSet,
    /// Of each caller, with room for each of its calls.
    replies: Vec<Vec<Reply>>,
    /// It has room for each caller.
    callers: Vec<Played>,
}

/// How many of the calls insert.
fn insertions_in(calls: &[Call]) -> usize
    ensures { result ≡ insertions_in calls.now }
{
    calls
        .iter()
        .filter(|call| matches!(call, Call::Insert(_)))
        .count()
}

/// How many calls of the workload insert, all together: 1,000,000 at most.
pub fn insertions_of(workload: &Workload) -> usize
    ensures count { result ≡ sum_by insertions_in (joined workload.now.lists) }
    ensures few { result ≤ 1000000 }
{
    let mut total = 0;
    for caller in 0..workload.callers() {
        total += insertions_in(workload.calls_of(caller));
    }
    total
}

/// Takes the list of the replies to each caller, with room for all of them.
fn take_replies(alloc: Global, workload: &Workload) -> Result<Vec<Vec<Reply>>, OutOfMemory>
    ensures { IfOk result (λ replies. AreReady workload.now.lists replies.items) }
{
    let mut replies = Vec::with_capacity(alloc, workload.callers() as usize)?;
    for caller in 0..workload.callers() {
        let own = Vec::with_capacity(alloc, workload.calls_of(caller).len())?;
        replies.push(own)?;
    }
    Ok(replies)
}

/// Takes all memory that a run of the workload needs.
fn take_memory(alloc: Global, workload: &Workload) -> Result<Memory, OutOfMemory>
    ensures keys { IfOk result (λ memory. memory.set.keys ≡ empty) }
    ensures room { IfOk result (λ memory. insertions_in (called (order_of workload.now.lists)) ≤ memory.set.room) }
    ensures replies { IfOk result (λ memory. AreReady workload.now.lists memory.replies.items) }
    ensures none { IfOk result (λ memory. memory.callers.items ≡ []) }
    ensures callers { IfOk result (λ memory. length workload.now.lists ≤ vec_capacity memory.callers) }
{
    let set = PlainSet::with_room(alloc, insertions_of(workload))?;
    let replies = take_replies(alloc, workload)?;
    let callers = Vec::with_capacity(alloc, workload.callers() as usize)?;
    Ok(Memory {
        set,
        replies,
        callers,
    })
}

/// Makes the calls in order, and notes the reply to each behind those to the calls before them. There
/// is room for each reply. The gate is told of each call before and after it, with its number among
/// all calls of the caller.
fn play_calls<G: Gate>(
    gate: &G,
    caller: u32,
    set: &mut PlainSet,
    calls: &[Call],
    replies: &mut Vec<Reply>,
)
    requires few_calls { length replies.old.items + length calls.now ≤ 1000000 }
    requires room { size_of set.old.keys + insertions_in calls.now ≤ set.old.room }
    requires room_for_replies { length replies.old.items + length calls.now ≤ vec_capacity replies.old }
    ensures replies { replies.new.items ≡ replies.old.items ++ replies_of calls.now set.old.keys }
    ensures same_capacity { vec_capacity replies.old ≤ vec_capacity replies.new }
    ensures keys { set.new.keys ≡ keys_after_all calls.now set.old.keys }
    ensures same_room { set.new.room ≡ set.old.room }
{
    for call in calls {
        let number = replies.len() as u32 + 1;
        gate.before(caller, number);
        replies.push(Reply::from(set.apply(*call))).unwrap();
        gate.after(caller, number);
    }
}

/// Plays the workload phase by phase, and in each phase one caller after another, in order of number.
/// It takes no memory.
fn play_phases<G: Gate>(
    gate: &G,
    workload: &Workload,
    set: &mut PlainSet,
    replies: &mut [Vec<Reply>],
)
    requires empty { set.old.keys ≡ empty }
    requires room { insertions_in (called (order_of workload.now.lists)) ≤ set.old.room }
    requires ready { AreReady workload.now.lists replies.old }
    ensures told { AreTold workload.now.lists replies.new }
    ensures keys { set.new.keys ≡ keys_left workload.now.lists }
{
    let callers = workload.callers();
    for phase in 0..workload.phases() + 1 {
        for caller in 0..callers {
            let calls = workload.calls_in(caller, phase);
            play_calls(gate, caller, set, calls, &mut replies[caller as usize]);
        }
    }
}

/// What is reported of a workload that was played. It takes no memory.
fn report_of(workload: Workload, memory: Memory) -> Report
    requires told { AreTold workload.lists memory.replies.items }
    requires keys { memory.set.keys ≡ keys_left workload.lists }
    requires none { memory.callers.items ≡ [] }
    requires room { length workload.lists ≤ vec_capacity memory.callers }
    ensures { IsPlainRun workload result }
{
    let Memory {
        set,
        replies,
        callers,
    } = memory;
    Report {
        set: SetName::Plain,
        reclaimer: ReclaimerName::Nothing,
        callers: pair_up(workload.into_lists(), replies, callers),
        size: set.len() as u64,
        sum: set.sum() as u64,
        counts: NO_COUNTS,
    }
}

/// Plays a workload on a plain set, which starts empty.
pub fn play_plain<G: Gate>(
    alloc: Global,
    gate: &G,
    workload: Workload,
) -> Result<Report, OutOfMemory>
    ensures { IfOk result (IsPlainRun workload) }
{
    let mut memory = take_memory(alloc, &workload)?;
    play_phases(gate, &workload, &mut memory.set, &mut memory.replies);
    Ok(report_of(workload, memory))
}
