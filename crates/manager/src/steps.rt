// A caller's steps on the words of roots, of records that it holds and of own ones.
ghost use Rattle.std.specs.Prelude.{◌≡◌, ◌≢◌, ◌+◌, ◌<◌, ◌≤◌, ◌^◌, ◌⊎◌, ℕ, List, Option, Some, None, MatchResult, drop};
ghost use Rattle.row_words.specs.Refs.{LinkParts};
ghost use Rattle.row_words.specs.Packing.{key_in, link_in, packed_number, IsLink, IsPackedRef};
ghost use Rattle.record_rule.specs.Facts.{Near, clean};
ghost use Rattle.record_rule.specs.Kinds.{stored};
ghost use Rattle.record_rule.specs.HandingOut.{HasOwn, IsOwnOf};
ghost use Rattle.record_rule.specs.Links.{LoadedKey, LoadedLink, ExchangedLink, PublishedLink, UnlinkedRecord, near_of, IsNextOf, Decides};
ghost use Rattle.record_rule.specs.LockedLinks.{IsUnlocked};
ghost use Rattle.record_table.specs.Handles.{setup_of, view, IsPassOf, IsSamePass};
ghost use Rattle.record_table.specs.Nodes.{origin, origin_held, HoldsThere, HoldsNode, HasStarted, is_first, MayPlaceIn, IsRefused};
ghost use Rattle.record_rule.specs.Placing.{placed_view};
ghost use Rattle.reclaim_api.specs.Holds.{KeepsHeld, KeepsButLink};
ghost use Rattle.record_pieces.specs.Events.{KeepsStock};
ghost use Rattle.manager.specs.Callers.{IsWorking, AnswersNone, KeepsOwn, KeepsOwnBut};

use crate::types::Caller;
use reclaim_api::Scheme;
use record_table::{Found, Held, Node, Own, Shape, Table, TakenOut};
use row_words::Link;
use set_model::Call;

pub(crate) fn load_key<S: Shape, R: Scheme>(
    table: &Table<S, R>,
    caller: &mut Caller<S, R>,
    node: Held,
) -> u64
    requires of { IsPassOf table.now caller.old.pass }
    requires caller { IsWorking R.is_local caller.old }
    requires held { HoldsThere caller.old.pass node }
    ensures of { IsPassOf table.now caller.new.pass }
    ensures caller { IsWorking R.is_local caller.new }
    ensures pass { IsSamePass caller.old.pass caller.new.pass }
    ensures keeps { KeepsHeld caller.old.pass caller.new.pass }
    ensures answers { AnswersNone (view caller.old.pass) (view caller.new.pass) }
    ensures owns { KeepsOwn (view caller.old.pass) (view caller.new.pass) }
    ensures stock { KeepsStock (view caller.old.pass).own (view caller.new.pass).own }
    ensures step { (n : ℕ) × (result ≡ key_in n) × LoadedKey (view caller.old.pass) node.place node.target n (view caller.new.pass) }
{
    table.load_key(&mut caller.pass, node)
}

pub(crate) fn load_link<S: Shape, R: Scheme>(
    table: &Table<S, R>,
    caller: &mut Caller<S, R>,
    node: Node,
    field: u8,
) -> Link
    requires of { IsPassOf table.now caller.old.pass }
    requires caller { IsWorking R.is_local caller.old }
    requires node { HoldsNode caller.old.pass node }
    requires field { field ≡ 3 }
    ensures of { IsPassOf table.now caller.new.pass }
    ensures caller { IsWorking R.is_local caller.new }
    ensures pass { IsSamePass caller.old.pass caller.new.pass }
    ensures keeps { KeepsHeld caller.old.pass caller.new.pass }
    ensures answers { AnswersNone (view caller.old.pass) (view caller.new.pass) }
    ensures owns { KeepsOwn (view caller.old.pass) (view caller.new.pass) }
    ensures stock { KeepsStock (view caller.old.pass).own (view caller.new.pass).own }
    ensures step { (n : ℕ) × (result ≡ link_in n) × LoadedLink S.facts R.facts (view caller.old.pass) (origin node) 3 (is_first caller.old.pass) n (view caller.new.pass) }
{
    table.load_link(&mut caller.pass, node, field)
}

pub(crate) fn exchange_link<S: Shape, R: Scheme>(
    table: &Table<S, R>,
    caller: &mut Caller<S, R>,
    node: Node,
    field: u8,
    expected: Link,
    new: Link,
    decides: Option<Call>,
) -> Result<(), Found>
    requires of { IsPassOf table.now caller.old.pass }
    requires caller { IsWorking R.is_local caller.old }
    requires node { HoldsNode caller.old.pass node }
    requires field { field ≡ 3 }
    requires links { IsLink expected × IsLink new }
    requires unlocked { IsUnlocked S.facts 3 expected }
    requires decides { Decides S.facts (view caller.old.pass) decides }
    requires allowed { S.facts.may_exchange (setup_of table.now) (near_of (view caller.old.pass) (origin node)) 3 expected new decides }
    ensures of { IsPassOf table.now caller.new.pass }
    ensures caller { IsWorking R.is_local caller.new }
    ensures pass { IsSamePass caller.old.pass caller.new.pass }
    ensures keeps { MatchResult result (λ _. KeepsButLink (origin node) caller.old.pass caller.new.pass) (λ _. KeepsHeld caller.old.pass caller.new.pass) }
    ensures answers { MatchResult result (λ _. decides ≡ None → AnswersNone (view caller.old.pass) (view caller.new.pass)) (λ _. AnswersNone (view caller.old.pass) (view caller.new.pass)) }
    ensures owns { KeepsOwn (view caller.old.pass) (view caller.new.pass) }
    ensures stock { KeepsStock (view caller.old.pass).own (view caller.new.pass).own }
    ensures step { MatchResult result
        (λ _. ExchangedLink S.facts (view caller.old.pass) (origin node) 3 expected new decides (view caller.new.pass))
        (λ found. IsRefused (view caller.old.pass) (origin node) expected found.link (view caller.new.pass)) }
{
    table.exchange_link(&mut caller.pass, node, field, expected, new, decides)
}

pub(crate) fn publish<S: Shape, R: Scheme>(
    table: &Table<S, R>,
    caller: &mut Caller<S, R>,
    node: Node,
    field: u8,
    expected: Link,
    own: Own,
    decides: Option<Call>,
) -> Result<(), (Own, Found)>
    requires of { IsPassOf table.now caller.old.pass }
    requires caller { IsWorking R.is_local caller.old }
    requires node { HoldsNode caller.old.pass node }
    requires field { field ≡ 3 }
    requires link { IsLink expected }
    requires unlocked { IsUnlocked S.facts 3 expected }
    requires decides { Decides S.facts (view caller.old.pass) decides }
    requires allowed { (row : List ℕ) × (next : Option Near) × HasOwn (view caller.old.pass) own row × IsNextOf (view caller.old.pass) expected.target next
        × S.facts.may_publish (setup_of table.now) (near_of (view caller.old.pass) (origin node)) 3 expected (drop 3 row) next decides }
    ensures of { IsPassOf table.now caller.new.pass }
    ensures caller { IsWorking R.is_local caller.new }
    ensures pass { IsSamePass caller.old.pass caller.new.pass }
    ensures keeps { MatchResult result (λ _. KeepsButLink (origin node) caller.old.pass caller.new.pass) (λ _. KeepsHeld caller.old.pass caller.new.pass) }
    ensures answers { MatchResult result (λ _. decides ≡ None → AnswersNone (view caller.old.pass) (view caller.new.pass)) (λ _. AnswersNone (view caller.old.pass) (view caller.new.pass)) }
    ensures owns { MatchResult result (λ _. KeepsOwnBut own.index (view caller.old.pass) (view caller.new.pass)) (λ _. KeepsOwn (view caller.old.pass) (view caller.new.pass)) }
    ensures stock { KeepsStock (view caller.old.pass).own (view caller.new.pass).own }
    ensures step { MatchResult result
        (λ _. PublishedLink S.facts (view caller.old.pass) (origin node) 3 expected own decides (view caller.new.pass))
        (λ back. (back.0 ≡ own) × IsRefused (view caller.old.pass) (origin node) expected back.1.link (view caller.new.pass)) }
{
    table.publish(&mut caller.pass, node, field, expected, own, decides)
}

pub(crate) fn unlink<S: Shape, R: Scheme>(
    table: &Table<S, R>,
    caller: &mut Caller<S, R>,
    node: Node,
    field: u8,
    gone: Held,
    new: Link,
) -> Result<TakenOut, Found>
    requires of { IsPassOf table.now caller.old.pass }
    requires caller { IsWorking R.is_local caller.old }
    requires node { HoldsNode caller.old.pass node }
    requires gone { HoldsThere caller.old.pass gone }
    requires field { field ≡ 3 }
    requires link { IsLink new }
    requires allowed { S.facts.may_unlink (setup_of table.now) (near_of (view caller.old.pass) (origin node)) 3 (clean gone.target) (near_of (view caller.old.pass) (origin_held gone)) new None None }
    ensures of { IsPassOf table.now caller.new.pass }
    ensures caller { IsWorking R.is_local caller.new }
    ensures pass { IsSamePass caller.old.pass caller.new.pass }
    ensures keeps { MatchResult result (λ _. KeepsButLink (origin node) caller.old.pass caller.new.pass) (λ _. KeepsHeld caller.old.pass caller.new.pass) }
    ensures answers { AnswersNone (view caller.old.pass) (view caller.new.pass) }
    ensures owns { KeepsOwn (view caller.old.pass) (view caller.new.pass) }
    ensures stock { KeepsStock (view caller.old.pass).own (view caller.new.pass).own }
    ensures step { MatchResult result
        (λ taken. (taken ≡ gone.target) × UnlinkedRecord S.facts (view caller.old.pass) (origin node) 3 gone.target new (view caller.new.pass))
        (λ found. IsRefused (view caller.old.pass) (origin node) (clean gone.target) found.link (view caller.new.pass)) }
{
    table.unlink(&mut caller.pass, node, field, gone, new)
}

pub(crate) fn place<S: Shape, R: Scheme>(
    table: &Table<S, R>,
    caller: &mut Caller<S, R>,
    call: Call,
    reply: bool,
)
    ghost position: { ℕ }
    requires of { IsPassOf table.now caller.old.pass }
    requires caller { IsWorking R.is_local caller.old }
    requires started { HasStarted caller.old.pass }
    requires allowed { MayPlaceIn S.facts (view caller.old.pass) position call reply }
    ensures of { IsPassOf table.now caller.new.pass }
    ensures caller { IsWorking R.is_local caller.new }
    ensures pass { IsSamePass caller.old.pass caller.new.pass }
    ensures keeps { KeepsHeld caller.old.pass caller.new.pass }
    ensures owns { KeepsOwn (view caller.old.pass) (view caller.new.pass) }
    ensures stock { KeepsStock (view caller.old.pass).own (view caller.new.pass).own }
    ensures placed { (found : ℕ) × (view caller.new.pass ≡ placed_view (view caller.old.pass) 0 found position call reply) }
{
    set_history::place(table, &mut caller.pass, call, reply);
}

pub(crate) fn store_own<S: Shape, R: Scheme>(
    table: &Table<S, R>,
    caller: &mut Caller<S, R>,
    own: &mut Own,
    word: u8,
    payload: u64,
)
    requires of { IsPassOf table.now caller.old.pass }
    requires caller { IsWorking R.is_local caller.old }
    requires own { IsOwnOf (view caller.old.pass) own.old }
    requires word { (3 ≤ word) × (word < 8) }
    requires payload { payload < 2 ^ 44 }
    requires link { word ≡ 3 → IsPackedRef payload }
    ensures of { IsPassOf table.now caller.new.pass }
    ensures caller { IsWorking R.is_local caller.new }
    ensures pass { IsSamePass caller.old.pass caller.new.pass }
    ensures record { own.new ≡ own.old }
    ensures own { IsOwnOf (view caller.new.pass) own.old }
    ensures keeps { KeepsHeld caller.old.pass caller.new.pass }
    ensures answers { AnswersNone (view caller.old.pass) (view caller.new.pass) }
    ensures owns { KeepsOwn (view caller.old.pass) (view caller.new.pass) }
    ensures stock { KeepsStock (view caller.old.pass).own (view caller.new.pass).own }
    ensures step { view caller.new.pass ≡ stored (view caller.old.pass) own.old.index word (packed_number own.old.generation payload) }
{
    table.store_own(&mut caller.pass, own, word, payload);
}
