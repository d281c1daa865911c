// A table is shared by threads, and a pass goes to another one.
ghost use Rattle.std.specs.Prelude.{◌≡◌};
ghost use Rattle.record_table.specs.Handles.{view, IsPassOf, IsSamePass};

use crate::{Cover, Pass, Shape, Table};
use record_memory::EPOCH;
use std::thread;
use std::thread::Threads;

// Makes a step on the table in another thread, which gives the pass back.
fn look_elsewhere<S: Shape + Send, R: Cover + Send>(
    rt: &impl Threads,
    table: &Table<S, R>,
    pass: Pass<S, R>,
) -> Pass<S, R>
    requires { IsPassOf table.now pass }
    ensures { IsSamePass pass result }
{
    thread::join(rt, || look(table, pass), || ()).0
}

fn look<S: Shape, R: Cover>(table: &Table<S, R>, mut pass: Pass<S, R>) -> Pass<S, R>
    requires { IsPassOf table.now pass }
    ensures { IsSamePass pass result }
{
    let _epoch = table.load_control(&mut pass, EPOCH);
    pass
}
