// The table as a set that callers share.
ghost use Rattle.std.specs.Prelude.{◌≡◌, All, map};
ghost use Rattle.record_rule.specs.World.{StartsWith};
ghost use Rattle.list_facts.specs.Michael.{michael};
ghost use Rattle.record_table.specs.Handles as handles;
ghost use Rattle.record_table.specs.Closing.{closed_setup, closed_books, history_of, numbers_from, IsClosedBy};
ghost use Rattle.manager.specs.Made.{AreAddedUp};
ghost use Rattle.manager.specs.Manners.{manner};
ghost use Rattle.michael_hash.specs.Callers.{IsWholeCallerOf};
ghost use Rattle.michael_hash.specs.Pieces.{MakesPiece};

use crate::hash::MichaelHash;
use alloc_api::Allocator;
use manager::Caller;
use michael_list::MichaelShape;
use pool::Pool;
use reclaim_api::Scheme;
use record_table::Closed;
use set_api::{Answer, ConcurrentSet};
use set_model::{Call, Counts};

impl<R: Scheme, A: Allocator, P: Pool> ConcurrentSet for MichaelHash<R, A, P> {
    type Caller = Caller<MichaelShape, R>;

    ghost facts = { michael };

    ghost cover = { R.facts };

    ghost setup = { λ set. handles.setup_of set.lists.manager.table };

    ghost has = { λ set. IsWholeCallerOf R.is_local set.lists.manager.table };

    ghost view = { λ caller. handles.view caller.pass };

    ghost steps = { MakesPiece (manner R.enters R.leaves R.bears R.reaches R.puts_away A.draws A.refuses P.SHELVES P.busy) };

    fn play(&self, caller: &mut Caller<MichaelShape, R>, call: Call, budget: u32) -> Answer {
        match call {
            Call::Insert(key) => return Answer::from(self.insert(caller, key, budget)),
            Call::Remove(key) => return Answer::from(self.remove(caller, key, budget)),
            Call::Search(key) => return Answer::from(self.search(caller, key, budget)),
        }
    }

    fn meet(&self, from: &mut Caller<MichaelShape, R>, into: &mut Caller<MichaelShape, R>) {
        self.lists.meet(from, into);
    }

    fn counts(&self, caller: &Caller<MichaelShape, R>) -> Counts {
        self.lists.counts(caller)
    }

    fn close(self, callers: Vec<Caller<MichaelShape, R>>) -> Closed
        requires has { All (IsWholeCallerOf R.is_local self.lists.manager.table) callers.items }
        requires order { map (λ caller. (handles.view caller.pass).own.caller) callers.items ≡ numbers_from 0 (handles.setup_of self.lists.manager.table).callers }
        ensures setup { closed_setup result ≡ handles.setup_of self.lists.manager.table }
        ensures books { closed_books result ≡ map (λ caller. (handles.view caller.pass).own) callers.items }
        ensures fronts { All (λ caller. StartsWith (history_of result) (handles.view caller.pass).front) callers.items }
        ensures fits { IsClosedBy michael R.facts result }
        ensures moves { AreAddedUp result }
    {
        let MichaelHash { lists } = self;
        lists.close(callers)
    }
}
