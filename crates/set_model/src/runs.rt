// Whether replies are those of the set machine, and what is true of all histories.
ghost use Rattle.std.specs.Prelude.{◌≡◌, ◌↔◌, ◌<◌, IfOk, IsTrue, List, length, ℕ, false};
ghost use Rattle.set_model.specs.declared.calls.Update.{Update};
ghost use Rattle.set_model.specs.Explained.{IsExplained};
ghost use Rattle.set_model.specs.Keys.{contains, empty, size_of};
ghost use Rattle.set_model.specs.Histories.{IsBalanced, IsLegalHistory, TakeTurns, keys_of, last_added};
ghost use Rattle.set_model.specs.Machine.{IsLegalReply, IsLegalRun, keys_after_reply};

use crate::calls::{Call, OutOfMemory, Reply};
use crate::plain_set::PlainSet;
use std::alloc::Global;

/// Whether the set machine, which starts empty, gives these replies to these calls. A call that was
/// answered `Full` changed nothing: it is passed over.
pub fn legal_run(alloc: Global, calls: &[Call], replies: &[Reply]) -> Result<bool, OutOfMemory>
    requires { length replies.now ≡ length calls.now }
    ensures machine { IfOk result (λ legal. IsTrue legal ↔ IsLegalRun calls.now replies.now empty) }

    // Without any set: each reply tells what the last call that changed its key did.
    ensures explained { IfOk result (λ legal. IsTrue legal ↔ IsExplained calls.now replies.now) }
{
    let mut set = PlainSet::with_room(alloc, calls.len())?;
    for (call, reply) in calls.iter().zip(replies) {
        if !is_legal_reply(&mut set, *call, *reply) {
            return Ok(false);
        }
    }
    Ok(true)
}

// Whether the set gives this reply. It makes the call, unless the reply is `Full`.
fn is_legal_reply(set: &mut PlainSet, call: Call, reply: Reply) -> bool
    requires { size_of set.old.keys < set.old.room }
    ensures legal { IsTrue result ↔ IsLegalReply call reply set.old.keys }
    ensures keys { set.new.keys ≡ keys_after_reply call reply set.old.keys }
    ensures room { set.new.room ≡ set.old.room }
{
    match reply {
        Reply::Full => true,
        Reply::Yes => set.apply(call),
        Reply::No => !set.apply(call),
    }
}

/// Holds of all histories, and does nothing. A history is legal exactly where the updates of each key
/// take turns, an addition first. A key is in the set where the last of its updates added it. The number
/// of keys is that of the additions less that of the removals, and the sums of keys likewise.
pub fn updates_take_turns()
    ensures turns { (updates : List Update) → IsLegalHistory updates ↔ ((key : ℕ) → TakeTurns key false updates) }
    ensures present { (updates : List Update) (key : ℕ) → contains (keys_of updates) key ≡ last_added key false updates }
    ensures balance { (updates : List Update) → IsLegalHistory updates → IsBalanced updates }
{}
