// Generating a workload.
ghost use Rattle.std.specs.Prelude.{◌≡◌, IfOk};
ghost use Rattle.workload_text.specs.Limits.{plan_of};
ghost use Rattle.workload_gen.specs.Generated.{generated};

use crate::making::generated;
use crate::plan::GenPlan;
use set_model::OutOfMemory;
use std::alloc::Global;
use workload_text::Workload;

/// The workload of the plan, of version 1. Only want of memory stops it.
pub fn generate(alloc: Global, plan: &GenPlan) -> Result<Workload, OutOfMemory>
    ensures { IfOk result (λ workload. workload ≡ plan_of (generated plan.now)) }
{
    Ok(Workload::of(generated(alloc, plan)?))
}
