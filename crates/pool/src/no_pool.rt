// The pool that keeps nothing.
ghost use Rattle.std.specs.Prelude.{◌≡◌};
ghost use Rattle.record_table.specs.Handles.{view, IsPassOf, IsSamePass};
ghost use Rattle.pool.specs.Calls.{IsFull, Takes, Gives};
ghost use Rattle.pool.specs.declared.Taken.TheVariants.{None as FoundNone};
ghost use Rattle.pool.specs.declared.Given.TheVariants.{Kept};

use crate::{Given, Pool, Taken};
use record_table::{Cover, Pass, Shape, Table};
use row_words::Chain;

/// A pool without shelves. It makes no step: `take` answers `None` and `give` hands the chain back.
pub struct NoPool;

impl Pool for NoPool {
    const SHELVES: u32 = 0;

    ghost SHELVES = { 0 };

    ghost busy = { λ steps. ⊥ };

    fn take<S: Shape, R: Cover>(_table: &Table<S, R>, _pass: &mut Pass<S, R>) -> Taken
        requires pass { IsPassOf _table.now _pass.old }
        ensures pass { IsSamePass _pass.old _pass.new }
        ensures takes { Takes 0 (λ steps. ⊥) (view _pass.old) (view _pass.new) result }
        ensures none { result ≡ FoundNone }
        ensures still { view _pass.new ≡ view _pass.old }
    {
        Taken::None
    }

    fn give<S: Shape, R: Cover>(_table: &Table<S, R>, _pass: &mut Pass<S, R>, chain: Chain) -> Given
        requires pass { IsPassOf _table.now _pass.old }
        ensures pass { IsSamePass _pass.old _pass.new }
        ensures gives { Gives 0 (λ steps. ⊥) (view _pass.old) (view _pass.new) chain result }
        ensures kept { result ≡ Kept chain }
        ensures still { view _pass.new ≡ view _pass.old }
    {
        Given::Kept(chain)
    }
}
