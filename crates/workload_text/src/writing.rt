// Writing a workload's text.
ghost use Rattle.std.specs.Prelude.{◌≡◌, ◌+◌, ◌<◌, ◌≤◌, List, ◌++◌, ◌∷◌, [], length, slice_get, Some, map, decimal, IfOk};
ghost use Rattle.text_lines.specs.Lines.{line, numbered};
ghost use Rattle.workload_text.specs.Limits.{HasLawfulKey, AreLawful};
ghost use Rattle.text_lines.specs.Calls.{call_text};
ghost use Rattle.workload_text.specs.Text.{call_line, phase_line, caller_line, end_line, spelled_lines, callers_lines, phases_lines, later_lines, text_of};

use crate::workload::Workload;
use itoa::Buffer;
use set_model::{Call, OutOfMemory};
use std::alloc::Global;
use text_lines::write_call;

/// The most bytes of a call's line: its letter, a blank, 13 digits and a line feed.
const CALL_BYTES: usize = 16;

/// Writes a line of a word and a number.
fn write_numbered(out: &mut Vec<u8>, word: &[u8], number: u64) -> Result<(), OutOfMemory>
    ensures { IfOk result (λ _. out.new.items ≡ out.old.items ++ line (numbered word.now number)) }
{
    out.extend_from_slice(word)?;
    out.push(b' ')?;
    out.extend_from_slice(Buffer::new().format(number).as_bytes())?;
    out.push(b'\n')?;
    Ok(())
}

/// Writes the lines of calls.
fn write_calls(out: &mut Vec<u8>, calls: &[Call]) -> Result<(), OutOfMemory>
    ensures { IfOk result (λ _. out.new.items ≡ out.old.items ++ spelled_lines (map call_line calls.now)) }
{
    let mut buffer = [0; 32];
    for call in calls {
        out.extend_from_slice(write_call(*call, b"\n", &mut buffer))?;
    }
    Ok(())
}

/// Writes the lines of a caller.
fn write_caller(out: &mut Vec<u8>, workload: &Workload, caller: u32) -> Result<(), OutOfMemory>
    requires { caller < length workload.now.lists }
    ensures { IfOk result (λ _. (phases : List (List Call)) → slice_get workload.now.lists caller ≡ Some phases
        → out.new.items ≡ out.old.items ++ spelled_lines (caller_line caller ∷ phases_lines phases)) }
{
    write_numbered(out, b"caller", u64::from(caller))?;
    write_calls(out, workload.calls_in(caller, 0))?;
    for phase in 0..workload.phases() {
        out.extend_from_slice(b"phase\n")?;
        write_calls(out, workload.calls_in(caller, phase + 1))?;
    }
    Ok(())
}

/// Writes the one text of the workload.
pub fn write_workload(alloc: Global, workload: &Workload) -> Result<Vec<u8>, OutOfMemory>
    ensures { IfOk result (λ text. text.items ≡ text_of workload.now) }
{
    let mut out = Vec::with_capacity(alloc, workload.total() as usize * CALL_BYTES)?;
    write_numbered(&mut out, b"setbench", u64::from(workload.version()))?;
    write_numbered(&mut out, b"callers", u64::from(workload.callers()))?;
    for caller in 0..workload.callers() {
        write_caller(&mut out, workload, caller)?;
    }
    out.extend_from_slice(b"end\n")?;
    Ok(out)
}
