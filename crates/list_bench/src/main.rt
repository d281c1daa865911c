//! Plays the calls of a generated workload of one caller on Michael's list, as the one bucket of a hash table, and prints
//! how many were answered yes. The arguments are the number of calls, the number of keys, and the reclaimer: `none`, `debra`,
//! `hazard` or `2geibr`.
#![tactic(auto)]

ghost use Rattle.std.specs.Prelude.{◌<◌, ◌≤◌, All, IfSome};
ghost use Rattle.michael_hash.specs.Callers.{IsWholeCallerOf};

use alloc_bump::Bump;
use manager::Caller;
use michael_hash::MichaelHash;
use michael_list::MichaelShape;
use pool::NoPool;
use reclaim_api::Scheme;
use reclaim_debra::Debra;
use reclaim_hazard::Hazard;
use reclaim_ibr::Ibr;
use reclaim_none::NoReclaim;
use row_words::Generation;
use set_api::{Answer, ConcurrentSet};
use set_model::{Call, ReclaimerName};
use std::alloc::Global;
use std::env;
use std::process::ExitCode;
use workload_gen::{GenPlan, generate};

// The greatest key that a list takes.
const MOST_KEY: u64 = 1_099_511_627_773;

// The last of these callers, where there is one.
fn last<R: Scheme>(
    hash: &MichaelHash<R, Bump, NoPool>,
    callers: &mut Vec<Caller<MichaelShape, R>>,
) -> Option<Caller<MichaelShape, R>>
    requires all { All (IsWholeCallerOf R.is_local hash.now.lists.manager.table) callers.old.items }
    ensures last { IfSome result (IsWholeCallerOf R.is_local hash.now.lists.manager.table) }
{
    callers.pop()
}

// Whether the call was answered yes.
fn play_one<R: Scheme>(
    hash: &MichaelHash<R, Bump, NoPool>,
    caller: &mut Caller<MichaelShape, R>,
    call: Call,
) -> bool
    requires caller { IsWholeCallerOf R.is_local hash.now.lists.manager.table caller.old }
    ensures caller { IsWholeCallerOf R.is_local hash.now.lists.manager.table caller.new }
{
    let (Call::Insert(key) | Call::Remove(key) | Call::Search(key)) = call;
    if key > MOST_KEY {
        return false;
    }
    hash.play(caller, call, u32::MAX) == Answer::Done(true)
}

// How many of the calls were.
fn play<R: Scheme>(
    hash: &MichaelHash<R, Bump, NoPool>,
    mut caller: Caller<MichaelShape, R>,
    calls: &[Call],
) -> u64
    requires caller { IsWholeCallerOf R.is_local hash.now.lists.manager.table caller }
{
    let mut yes: u64 = 0;
    for call in calls {
        if play_one(hash, &mut caller, *call) {
            yes = yes.saturating_add(1);
        }
    }
    yes
}

// How many of the calls of the workload with these numbers were, where memory is there.
fn count<R: Scheme>(alloc: Global, calls: u32, keys: u32) -> Option<u64>
    requires calls { calls ≤ 1000000 }
    requires keys { (0 < keys) × (keys ≤ 268435456) }
{
    let plan = GenPlan {
        callers: 1,
        calls,
        keys,
        seed: 7,
        shared: false,
    };
    let workload = generate(alloc, &plan).ok()?;
    let first = Generation::new(1)?;
    let made = MichaelHash::<R, Bump, NoPool>::prepare(alloc, calls + 1, 1, first, 1);
    let Ok((hash, mut callers)) = made else {
        return None;
    };
    let caller = last(&hash, &mut callers)?;
    if workload.callers() == 0 {
        return None;
    }
    Some(play(&hash, caller, workload.calls_of(0)))
}

fn number(rt: &(impl std::rt::Env + AllocGlobal), place: usize) -> Option<u32> {
    env::args(rt).ok()?.nth(place)?.as_str().parse::<u32>().ok()
}

// The reclaimer that the third argument names.
fn reclaimer(rt: &(impl std::rt::Env + AllocGlobal)) -> Option<ReclaimerName> {
    match env::args(rt).ok()?.nth(3)?.as_str() {
        "none" => Some(ReclaimerName::Nothing),
        "debra" => Some(ReclaimerName::Debra),
        "hazard" => Some(ReclaimerName::Hazard),
        "2geibr" => Some(ReclaimerName::Ibr),
        _ => None,
    }
}

fn main(rt: HostRuntime) -> ExitCode {
    let (Some(calls), Some(keys), Some(name)) = (number(&rt, 1), number(&rt, 2), reclaimer(&rt))
    else {
        return ExitCode::from(2);
    };
    if calls > 1_000_000 || keys == 0 || keys > 268_435_456 {
        return ExitCode::from(2);
    }
    let count = match name {
        ReclaimerName::Nothing => count::<NoReclaim>(rt.alloc(), calls, keys),
        ReclaimerName::Debra => count::<Debra>(rt.alloc(), calls, keys),
        ReclaimerName::Hazard => count::<Hazard>(rt.alloc(), calls, keys),
        ReclaimerName::Ibr => count::<Ibr>(rt.alloc(), calls, keys),
    };
    match count {
        Some(yes) => match println!(rt; "yes {yes}") {
            Ok(()) => ExitCode::from(0),
            Err(_) => ExitCode::from(7),
        },
        None => ExitCode::from(8),
    }
}
