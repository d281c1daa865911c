// A look at what a root leads to.
ghost use Rattle.std.specs.Prelude.{◌<◌, List};
ghost use Rattle.record_table.specs.Handles.{setup_of, view};
ghost use Rattle.record_table.specs.Nodes.{HoldsThere};
ghost use Rattle.record_pieces.specs.Events.{Event};
ghost use Rattle.manager.specs.Guards.{IsAtWork, DidAll};
ghost use Rattle.set_calls.specs.Going.{GoesOn};
ghost use Rattle.one_key_set.specs.Knowing.{HoldsKey, KnowsMark, IsSeen};
ghost use Rattle.one_key_set.specs.Pieces.{TakesOut, Reads, Looks, shown_by};

use crate::shape::OneKeyShape;
use alloc_api::Allocator;
use manager::Guard;
use pool::Pool;
use reclaim_api::{Holding, Scheme};
use record_memory::LINK;
use record_table::{Held, Node};
use row_words::Link;
use set_calls::same_held;

/// What a look at a root came to.
#[derive(Debug, PartialEq, Eq, Drop)]
pub enum Seen {
    /// The root leads nowhere: its key is absent.
    Absent,
    /// It leads to a record without a mark: its key is present.
    Present(Held),
    /// A word had changed, or the record had a mark and was taken out.
    Changed,
}

// Takes a marked record out behind its root, and retires it. Another caller may be first.
pub(crate) fn take_out<'a, R: Scheme, A: Allocator, P: Pool>(
    guard: &mut Guard<'a, OneKeyShape, R, A, P>,
    key: u32,
    gone: Held,
)
    requires at_work { IsAtWork guard.old }
    requires key { key < (setup_of guard.old.manager.now.table).roots }
    requires gone { HoldsThere guard.old.caller.now.pass gone }
    requires marked { KnowsMark guard.old.caller.now.pass gone }
    ensures at_work { IsAtWork guard.new }
    ensures on { GoesOn guard.old guard.new }
    ensures did { (es : List Event) × TakesOut key gone es × DidAll guard.old es guard.new }
{
    match guard.unlink(Node::Root(key), LINK, gone, Link::to(None)) {
        Ok(taken) => guard.retire(taken),
        Err(_) => {}
    }
}

// Looks at the mark of the record that a root led to, and takes the record out where it has one.
fn look_at<'a, R: Scheme, A: Allocator, P: Pool>(
    guard: &mut Guard<'a, OneKeyShape, R, A, P>,
    key: u32,
    at: Held,
) -> Seen
    requires at_work { IsAtWork guard.old }
    requires key { key < (setup_of guard.old.manager.now.table).roots }
    requires at { HoldsKey guard.old.caller.now.pass key at }
    ensures at_work { IsAtWork guard.new }
    ensures on { GoesOn guard.old guard.new }
    ensures seen { IsSeen guard.new.caller.now.pass key result }
    ensures did { (es : List Event) × Reads key at result (shown_by (view guard.new.caller.now.pass).own.updates_seen result) es × DidAll guard.old es guard.new }
{
    let link = guard.load_link(Node::At(same_held(&at)), LINK);
    if link.is_marked() {
        take_out(guard, key, at);
        return Seen::Changed;
    }
    Seen::Present(at)
}

// Looks at what the root of a key leads to.
pub(crate) fn look<'a, R: Scheme, A: Allocator, P: Pool>(
    guard: &mut Guard<'a, OneKeyShape, R, A, P>,
    key: u32,
) -> Seen
    requires at_work { IsAtWork guard.old }
    requires key { key < (setup_of guard.old.manager.now.table).roots }
    ensures at_work { IsAtWork guard.new }
    ensures on { GoesOn guard.old guard.new }
    ensures seen { IsSeen guard.new.caller.now.pass key result }
    ensures did { (es : List Event) × Looks key result (shown_by (view guard.new.caller.now.pass).own.updates_seen result) es × DidAll guard.old es guard.new }
{
    match guard.hold(0, Node::Root(key), LINK) {
        Holding::Null => Seen::Absent,
        Holding::Held(at) => look_at(guard, key, at),
        Holding::Marked(_) => Seen::Changed,
        Holding::Moved { found: _ } => Seen::Changed,
    }
}
