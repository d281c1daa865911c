// The commands, each by itself, without words.
ghost use Rattle.std.specs.Prelude.{◌≡◌, false, true};
ghost use Rattle.command_words.specs.Commands.{is_built};
ghost use Rattle.command_words.specs.declared.command.Command.TheVariants as command;
ghost use Rattle.bench_core.specs.Ending.{EndsMade, EndsRead};
ghost use Rattle.bench_core.specs.Settings.{AreSettings, made_words, play_words, trial_words};
ghost use Rattle.bench_core.specs.Sizes.{AreSizes};
ghost use Rattle.bench_core.specs.declared.ending.Ended.{Ended};

use crate::ending::{Ended, conclude};
use crate::judging::{find_checked, find_generated, find_played, find_tried};
use crate::settings::{Settings, play_words};
use command_words::{TrialWords, Workloads};
use lawful_pairs::Pair;
use outside::{Gate, Sink, Source};
use std::alloc::Global;
use std::sync::Wait;
use std::thread::Threads;
use workload_gen::GenPlan;

/// What words would choose for this plan.
fn made_words(plan: &GenPlan) -> Workloads
    ensures words { result ≡ made_words plan.now }
    ensures sizes { AreSizes result }
{
    Workloads {
        callers: plan.callers,
        calls: plan.calls,
        keys: plan.keys,
        seed: plan.seed,
        shared: plan.shared,
    }
}

/// The end of `check`.
#[tactic(auto, using(crate::proofs::Clauses::in_text))]
fn end_checked<S: Source, K: Sink>(alloc: Global, source: &mut S, sink: &mut K) -> Ended
    ensures { EndsRead S.left S.faults K.got K.faults command.Check source.old source.new sink.old sink.new result }
{
    let found = find_checked(alloc, source);
    conclude(found, sink)
}

/// Reads a workload, and prints how large it is or why it is refused: what the words `check` do. The
/// status is 0, 3, 6, 7, 8 or 9, as the top call's clauses say of this command.
pub fn check_run<S: Source, K: Sink>(alloc: Global, source: &mut S, sink: &mut K) -> u8
    ensures { (ended : Ended) × (ended.status ≡ result)
        × EndsRead S.left S.faults K.got K.faults command.Check source.old source.new sink.old sink.new ended }
{
    end_checked(alloc, source, sink).status
}

/// The end of `generate`.
#[tactic(auto, using(crate::proofs::Clauses::made_text))]
fn end_generated<K: Sink>(alloc: Global, plan: &GenPlan, sink: &mut K) -> Ended
    ensures { EndsMade K.got K.faults (command.Generate (made_words plan.now)) sink.old sink.new result }
{
    let found = find_generated(alloc, made_words(plan));
    conclude(found, sink)
}

/// Makes the workload of the plan and prints its text: what the words `generate` do. The status is 0,
/// 7 or 8.
pub fn generate_run<K: Sink>(alloc: Global, plan: &GenPlan, sink: &mut K) -> u8
    ensures { (ended : Ended) × (ended.status ≡ result)
        × EndsMade K.got K.faults (command.Generate (made_words plan.now)) sink.old sink.new ended }
{
    end_generated(alloc, plan, sink).status
}

/// Reads a workload, plays it and prints its report: what the words `play` do. The status is one that
/// the top call has for a lawful pair.
#[tactic(auto, using(crate::proofs::Clauses::in_text))]
pub fn play_run<T: Threads + Wait + Sync, S: Source, K: Sink, G: Gate + Sync>(
    rt: &T,
    alloc: Global,
    settings: Settings,
    source: &mut S,
    sink: &mut K,
    gate: &G,
) -> Ended
    requires { AreSettings settings }
    ensures { EndsRead S.left S.faults K.got K.faults (command.Play (play_words settings)) source.old source.new sink.old sink.new result }
{
    let found = find_played(alloc, rt, gate, play_words(settings), source);
    conclude(found, sink)
}

/// Makes the workload of the plan, plays it and prints a summary: what the words `trial` do. The
/// status is 0, 5, 7 or 8.
#[tactic(auto, using(crate::proofs::Clauses::made_text))]
pub fn trial_run<T: Threads + Wait + Sync, K: Sink, G: Gate + Sync>(
    rt: &T,
    alloc: Global,
    pair: Pair,
    plan: &GenPlan,
    sink: &mut K,
    gate: &G,
) -> Ended
    requires built { is_built pair.set pair.reclaimer ≡ true }
    requires own_keys { plan.now.shared ≡ false }
    ensures { EndsMade K.got K.faults (command.Trial (trial_words pair plan.now)) sink.old sink.new result }
{
    let workload = made_words(plan);
    let found = find_tried(
        alloc,
        rt,
        gate,
        TrialWords {
            set: pair.set,
            reclaimer: pair.reclaimer,
            workload,
        },
    );
    conclude(found, sink)
}
