// Making calls from pseudorandom words.
ghost use Rattle.std.specs.Prelude.{◌≡◌, ◌<◌, IfOk};
ghost use Rattle.rand_pcg.specs.Lcg.{Lcg};
ghost use Rattle.workload_text.specs.Limits.{lists_of};
ghost use Rattle.workload_gen.specs.Generated.{call_by, key_by, caller_calls, generated};

use crate::plan::GenPlan;
use rand_core::utils::NextWord;
use rand_pcg::Lcg64Xsh32;
use set_model::{Call, OutOfMemory};
use std::alloc::Global;

/// The call that a word gives, on this key.
fn call_by(word: u32, key: u64) -> Call
    ensures { result ≡ call_by word key }
{
    match word % 4 {
        0 | 1 => Call::Insert(key),
        2 => Call::Remove(key),
        _ => Call::Search(key),
    }
}

/// The key that a word gives a caller.
fn key_by(plan: &GenPlan, caller: u32, word: u32) -> u64
    requires { caller < plan.now.callers }
    ensures { result ≡ key_by plan.now caller word }
{
    let place = u64::from(word % plan.keys);
    if plan.shared {
        place
    } else {
        place * u64::from(plan.callers) + u64::from(caller)
    }
}

/// The calls of one caller.
fn caller_calls(alloc: Global, plan: &GenPlan, caller: u32) -> Result<Vec<Call>, OutOfMemory>
    requires { caller < plan.now.callers }
    ensures { IfOk result (λ calls. calls.items ≡ caller_calls plan.now caller) }
{
    let mut words = Lcg64Xsh32::new(plan.seed, u64::from(caller));
    let mut calls = Vec::with_capacity(alloc, plan.calls as usize)?;
    for made in 0..plan.calls {
        let kind = words.next_word();
        let key = key_by(plan, caller, words.next_word());
        calls.push(call_by(kind, key))?;
    }
    Ok(calls)
}

/// The calls of each caller.
pub fn generated(alloc: Global, plan: &GenPlan) -> Result<Vec<Vec<Call>>, OutOfMemory>
    ensures { IfOk result (λ lists. lists_of lists.items ≡ generated plan.now) }
{
    let mut lists = Vec::with_capacity(alloc, plan.callers as usize)?;
    for caller in 0..plan.callers {
        lists.push(caller_calls(alloc, plan, caller)?)?;
    }
    Ok(lists)
}
