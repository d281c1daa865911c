// The pool whose shelves need no lock.
ghost use Rattle.std.specs.Prelude.{◌≡◌};
ghost use Rattle.record_table.specs.Handles.{view, IsPassOf, IsSamePass};
ghost use Rattle.pool.specs.Calls.{IsFull, Takes, Gives};

use crate::{Given, Pool, Taken};
use record_memory::shelf as word_of;
use record_table::{Cover, Pass, Shape, Table};
use row_words::Chain;

/// How many records a chain on a shelf has.
const CHAIN: u32 = 32;

/// A pool of 16 shelves. A chain is put on a shelf by one step, and taken from one by one step, so a pool that is in
/// use by another caller is no case of its own. `take` swaps no shelf that it finds empty: it loads each before.
pub struct ShelfPool;

impl Pool for ShelfPool {
    const SHELVES: u32 = 16;

    ghost SHELVES = { 16 };

    ghost busy = { λ steps. ⊥ };

    fn take<S: Shape, R: Cover>(table: &Table<S, R>, pass: &mut Pass<S, R>) -> Taken
        requires pass { IsPassOf table.now pass.old }
        ensures pass { IsSamePass pass.old pass.new }
        ensures takes { Takes 16 (λ steps. ⊥) (view pass.old) (view pass.new) result }
    {
        for shelf in 0..16 {
            if table.load_control(pass, word_of(shelf)) == 0 {
                continue;
            }
            if let Some(head) = table.take_shelf(pass, shelf) {
                return Taken::Some(Chain {
                    head: Some(head),
                    count: CHAIN,
                });
            }
        }
        Taken::None
    }

    fn give<S: Shape, R: Cover>(table: &Table<S, R>, pass: &mut Pass<S, R>, chain: Chain) -> Given
        requires pass { IsPassOf table.now pass.old }
        requires full { IsFull (view pass.old) chain }
        ensures pass { IsSamePass pass.old pass.new }
        ensures gives { Gives 16 (λ steps. ⊥) (view pass.old) (view pass.new) chain result }
    {
        let Some(head) = chain.head else {
            unreachable!()
        };
        for shelf in 0..16 {
            if let Ok(()) = table.give_shelf(pass, shelf, head) {
                return Given::Done;
            }
        }
        Given::Kept(chain)
    }
}
