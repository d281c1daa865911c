// The manager, its callers and their operations.
ghost use Rattle.std.specs.Prelude.{◌≡◌};
ghost use Rattle.record_table.specs.Handles.{setup_of, IsPassOf};

use alloc_api::Allocator;
use pool::Pool;
use reclaim_api::Scheme;
use record_table::{Pass, Shape, Table};
use row_words::Chain;
use std::marker::PhantomData;

/// One table, whose records are reclaimed by `R`, drawn by `A`, and wait in `P` while they are free.
#[derive(Drop)]
pub struct Manager<S: Shape, R: Scheme, A: Allocator, P> {
    pub(crate) table: Table<S, R>,
    pub(crate) marker: PhantomData<(A, P)>,
    pub ghost allocator: { (setup_of table).allocator ≡ A.NAME },
}

/// How many moves of records a caller made over all its steps, and how many of its records are spent. Each
/// count stands still at its type's end.
#[derive(Clone, Copy)]
pub(crate) struct Moved {
    pub(crate) drawn: u64,
    pub(crate) reused: u64,
    pub(crate) retired: u64,
    pub(crate) freed: u64,
    pub(crate) spent: u64,
}

/// One caller of a manager's table.
#[derive(Drop)]
pub struct Caller<S: Shape, R: Scheme> {
    pub(crate) pass: Pass<S, R>,
    pub(crate) local: R::Local,
    // Its free records, and the own ones that it set aside.
    pub(crate) free: Chain,
    pub(crate) spare: Chain,
    pub(crate) moved: Moved,
}

/// An operation of a caller, from `begin` to `finish`, which must spend it.
pub struct Guard<'a, S: Shape, R: Scheme, A: Allocator, P: Pool> {
    pub(crate) caller: &'a mut Caller<S, R>,
    pub(crate) manager: &'a Manager<S, R, A, P>,
    pub ghost of: { IsPassOf manager.now.table caller.now.pass },
}
