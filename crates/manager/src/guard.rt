// The operations of callers.
ghost use Rattle.std.specs.Prelude.{◌≡◌, ◌≢◌, ◌+◌, ◌<◌, ◌≤◌, ◌^◌, ◌∷◌, ◌++◌, [], ℕ, List, Option, Some, None, MatchResult, IfOk, drop};
ghost use Rattle.record_memory.specs.declared.steps.Step.{Step};
ghost use Rattle.record_memory.specs.declared.books.Share.{Share};
ghost use Rattle.row_words.specs.Refs.{LinkParts};
ghost use Rattle.row_words.specs.Packing.{key_in, link_in, packed_number, IsLink, IsPackedRef};
ghost use Rattle.record_rule.specs.Facts.{Near, clean};
ghost use Rattle.record_rule.specs.Kinds.{stored};
ghost use Rattle.record_rule.specs.Links.{near_of, locks_after, LoadedKey, LoadedLink, ExchangedLink, PublishedLink, UnlinkedRecord, IsNextOf, Decides, HasTaken};
ghost use Rattle.record_rule.specs.LockedLinks.{IsUnlocked};
ghost use Rattle.record_rule.specs.HandingOut.{HasOwn, IsOwnOf};
ghost use Rattle.record_rule.specs.Makes.{Makes};
ghost use Rattle.record_table.specs.Handles.{setup_of, view, IsPassOf, IsSamePass};
ghost use Rattle.record_table.specs.Nodes.{origin, origin_held, HoldsNode, HoldsThere, HasStarted, is_first, MayPlaceIn, IsRefused};
ghost use Rattle.reclaim_api.specs.Guarding.{Enters, Leaves};
ghost use Rattle.reclaim_api.specs.Frames.{LeavesRest, LeavesRecords};
ghost use Rattle.reclaim_api.specs.Holds.{IsElsewhere, HasReached, KeepsElse, KeepsHeld, KeepsButLink};
ghost use Rattle.record_pieces.specs.Spares.{IsSpareIn};
ghost use Rattle.record_pieces.specs.Events.{Does, begun, hopped, keyed, looked, exchanged, published, unlinked, stored_own, took, refused, gave_back, retired, placed, ended};
ghost use Rattle.record_rule.specs.Placing.{placed_view};
ghost use Rattle.manager.specs.Callers.{IsWorking, IsResting, AnswersNone, KeepsOwn, KeepsOwnBut, KeepsLocks};
ghost use Rattle.manager.specs.Guards.{IsAtWork, Did};
ghost use Rattle.manager.specs.Manners.{manner};

use crate::callers::{enter, leave, reach};
use crate::records::{fresh, put_away, set_spare};
use crate::steps::{exchange_link, load_key, load_link, place, publish, store_own, unlink};
use crate::types::{Caller, Guard, Manager};
use alloc_api::{Allocator, NoRecord};
use pool::Pool;
use reclaim_api::{Holding, Scheme};
use record_table::{Found, Held, Node, Own, Shape, TakenOut};
use row_words::Link;
use set_model::Call;

impl<S: Shape, R: Scheme, A: Allocator, P: Pool> Manager<S, R, A, P> {
    /// Begins an operation of this caller. Records of its limbo may become free; then chains of 32 of its free
    /// records go to the pool, while it has 64 and the pool takes them. The guard must be spent by `finish`, so a
    /// caller is inside at most one operation. At first it has no word locked.
    pub fn begin<'a>(&'a self, caller: &'a mut Caller<S, R>) -> Guard<'a, S, R, A, P>
        requires of { IsPassOf self.now.table caller.old.pass }
        requires caller { IsResting R.is_local caller.old }
        ensures same_reference { result.caller.ghost_name ≡ caller.entry.ghost_name }
        ensures manager { result.manager.now ≡ self.entry.now }
        ensures at_work { IsAtWork result }
        ensures pass { Enters caller.old.pass result.caller.now.pass }
        ensures rest { LeavesRest (view caller.old.pass) (view result.caller.now.pass) }
        ensures locks { (view result.caller.now.pass).own.locks ≡ [] }
        ensures did { Does (manner R.enters R.leaves R.bears R.reaches R.puts_away A.draws A.refuses P.SHELVES P.busy) (setup_of self.entry.now.table) begun (view caller.old.pass).own (view result.caller.now.pass).own }
    {
        enter::<S, R, P>(&self.table, caller);
        Guard {
            caller,
            manager: self,
        }
    }
}

impl<'a, S: Shape, R: Scheme, A: Allocator, P: Pool> Guard<'a, S, R, A, P> {
    /// Tries to hold, at `place`, what the link of `from` leads to. `place` is below the reclaimer's
    /// `PLACES` and isn't the place of `from`, and `field` is 3, the word that holds a set's link; the set
    /// says which links may be followed. `Held`: the record is held at that place from now on, until
    /// `finish` or the next use of the place. At every other answer that place holds nothing until it holds
    /// again. What other places hold stays.
    pub fn hold(&mut self, place: u32, from: Node, field: u8) -> Holding
        requires at_work { IsAtWork self.old }
        requires place { place < R.PLACES }
        requires from { HoldsNode self.old.caller.now.pass from }
        requires elsewhere { IsElsewhere (origin from) place }
        requires field { field ≡ 3 }
        requires link { S.facts.may_hold (near_of (view self.old.caller.now.pass) (origin from)) 3 }
        ensures same_reference { (self.new.caller.ghost_name ≡ self.old.caller.ghost_name) × (self.new.manager.now ≡ self.old.manager.now) }
        ensures at_work { IsAtWork self.new }
        ensures pass { IsSamePass self.old.caller.now.pass self.new.caller.now.pass }
        ensures rest { LeavesRecords (view self.old.caller.now.pass) (view self.new.caller.now.pass) }
        ensures reached { HasReached S.facts place (origin from) self.old.caller.now.pass result self.new.caller.now.pass }
        ensures keeps { KeepsElse place self.old.caller.now.pass self.new.caller.now.pass }
        ensures answers { AnswersNone (view self.old.caller.now.pass) (view self.new.caller.now.pass) }
        ensures owns { KeepsOwn (view self.old.caller.now.pass) (view self.new.caller.now.pass) }
        ensures locks { KeepsLocks (view self.old.caller.now.pass) (view self.new.caller.now.pass) }
        ensures did { Did self.old (hopped place from field result (view self.new.caller.now.pass).own.updates_seen) self.new }
    {
        reach(&self.manager.table, self.caller, place, from, field)
    }

    /// Takes an own record, to be linked or given back: the first spare one, else the first free one, else
    /// the first of a chain of the pool's, else one that is drawn. A record that was free gets its next
    /// generation. `NoRecord { found }`: no record was spare or free, the pool had no chain in its one
    /// look, and the one draw answered `found`.
    pub fn fresh(&mut self) -> Result<Own, NoRecord>
        requires at_work { IsAtWork self.old }
        ensures same_reference { (self.new.caller.ghost_name ≡ self.old.caller.ghost_name) × (self.new.manager.now ≡ self.old.manager.now) }
        ensures at_work { IsAtWork self.new }
        ensures pass { IsSamePass self.old.caller.now.pass self.new.caller.now.pass }
        ensures keeps { KeepsHeld self.old.caller.now.pass self.new.caller.now.pass }
        ensures answers { AnswersNone (view self.old.caller.now.pass) (view self.new.caller.now.pass) }
        ensures owns { KeepsOwn (view self.old.caller.now.pass) (view self.new.caller.now.pass) }
        ensures locks { KeepsLocks (view self.old.caller.now.pass) (view self.new.caller.now.pass) }
        ensures own { MatchResult result (λ own. IsOwnOf (view self.new.caller.now.pass) own) (λ _. Unit {0}) }
        ensures did { MatchResult result (λ own. Did self.old (took own) self.new) (λ none. Did self.old (refused none.found) self.new) }
    {
        fresh::<S, R, A, P>(&self.manager.table, self.caller)
    }

    /// Gives an own record back that isn't used. It is the first spare one then.
    pub fn give_back(&mut self, own: Own)
        requires at_work { IsAtWork self.old }
        requires own { IsOwnOf (view self.old.caller.now.pass) own }
        ensures same_reference { (self.new.caller.ghost_name ≡ self.old.caller.ghost_name) × (self.new.manager.now ≡ self.old.manager.now) }
        ensures at_work { IsAtWork self.new }
        ensures pass { IsSamePass self.old.caller.now.pass self.new.caller.now.pass }
        ensures keeps { KeepsHeld self.old.caller.now.pass self.new.caller.now.pass }
        ensures answers { AnswersNone (view self.old.caller.now.pass) (view self.new.caller.now.pass) }
        ensures owns { KeepsOwnBut own.index (view self.old.caller.now.pass) (view self.new.caller.now.pass) }
        ensures locks { KeepsLocks (view self.old.caller.now.pass) (view self.new.caller.now.pass) }
        ensures spare { IsSpareIn (view self.new.caller.now.pass).own own }
        ensures made { (steps : List Step) × Makes (view self.old.caller.now.pass) (view self.new.caller.now.pass) steps }
        ensures did { Did self.old (gave_back own) self.new }
    {
        set_spare(&self.manager.table, self.caller, own);
    }

    /// Retires a record that this caller took out. It is in its limbo from then on, until the reclaimer
    /// lets it go. Where records become free, chains of them go to the pool, as with `begin`.
    pub fn retire(&mut self, taken: TakenOut)
        requires at_work { IsAtWork self.old }
        requires taken { (h : Share) × HasTaken (view self.old.caller.now.pass) taken h }
        ensures same_reference { (self.new.caller.ghost_name ≡ self.old.caller.ghost_name) × (self.new.manager.now ≡ self.old.manager.now) }
        ensures at_work { IsAtWork self.new }
        ensures pass { IsSamePass self.old.caller.now.pass self.new.caller.now.pass }
        ensures keeps { KeepsHeld self.old.caller.now.pass self.new.caller.now.pass }
        ensures answers { AnswersNone (view self.old.caller.now.pass) (view self.new.caller.now.pass) }
        ensures owns { KeepsOwn (view self.old.caller.now.pass) (view self.new.caller.now.pass) }
        ensures locks { KeepsLocks (view self.old.caller.now.pass) (view self.new.caller.now.pass) }
        ensures did { Did self.old (retired taken) self.new }
    {
        put_away::<S, R, P>(&self.manager.table, self.caller, taken);
    }

    /// Ends the operation. Its caller has no word locked, and holds nothing afterwards.
    pub fn finish(self)
        requires at_work { IsAtWork self }
        requires unlocked { (view self.caller.now.pass).own.locks ≡ [] }
        ensures of { IsPassOf self.entry.manager.now.table self.exit.0.now.pass }
        ensures caller { IsResting R.is_local self.exit.0.now }
        ensures pass { Leaves self.entry.caller.now.pass self.exit.0.now.pass }
        ensures rest { LeavesRecords (view self.entry.caller.now.pass) (view self.exit.0.now.pass) }
        ensures did { Does (manner R.enters R.leaves R.bears R.reaches R.puts_away A.draws A.refuses P.SHELVES P.busy) (setup_of self.entry.manager.now.table) ended (view self.entry.caller.now.pass).own (view self.exit.0.now.pass).own }
    {
        let Guard { caller, manager } = self;
        leave(&manager.table, caller);
    }
}

impl<'a, S: Shape, R: Scheme, A: Allocator, P: Pool> Guard<'a, S, R, A, P> {
    /// Loads the key of a held record.
    pub fn load_key(&mut self, node: Held) -> u64
        requires at_work { IsAtWork self.old }
        requires held { HoldsThere self.old.caller.now.pass node }
        ensures same_reference { (self.new.caller.ghost_name ≡ self.old.caller.ghost_name) × (self.new.manager.now ≡ self.old.manager.now) }
        ensures at_work { IsAtWork self.new }
        ensures pass { IsSamePass self.old.caller.now.pass self.new.caller.now.pass }
        ensures keeps { KeepsHeld self.old.caller.now.pass self.new.caller.now.pass }
        ensures answers { AnswersNone (view self.old.caller.now.pass) (view self.new.caller.now.pass) }
        ensures owns { KeepsOwn (view self.old.caller.now.pass) (view self.new.caller.now.pass) }
        ensures locks { KeepsLocks (view self.old.caller.now.pass) (view self.new.caller.now.pass) }
        ensures step { (n : ℕ) × (result ≡ key_in n) × LoadedKey (view self.old.caller.now.pass) node.place node.target n (view self.new.caller.now.pass) }
        ensures did { Did self.old (keyed node.target result) self.new }
    {
        load_key(&self.manager.table, self.caller, node)
    }

    /// Loads a link of a root or of a held record. `field` is 3. The updates and the records taken out up
    /// to this load are noted, and the reclaimer's guard starts with it where it is the operation's first
    /// load of a link and the reclaimer has guards start so.
    pub fn load_link(&mut self, node: Node, field: u8) -> Link
        requires at_work { IsAtWork self.old }
        requires node { HoldsNode self.old.caller.now.pass node }
        requires field { field ≡ 3 }
        ensures same_reference { (self.new.caller.ghost_name ≡ self.old.caller.ghost_name) × (self.new.manager.now ≡ self.old.manager.now) }
        ensures at_work { IsAtWork self.new }
        ensures pass { IsSamePass self.old.caller.now.pass self.new.caller.now.pass }
        ensures keeps { KeepsHeld self.old.caller.now.pass self.new.caller.now.pass }
        ensures answers { AnswersNone (view self.old.caller.now.pass) (view self.new.caller.now.pass) }
        ensures owns { KeepsOwn (view self.old.caller.now.pass) (view self.new.caller.now.pass) }
        ensures locks { KeepsLocks (view self.old.caller.now.pass) (view self.new.caller.now.pass) }
        ensures step { (n : ℕ) × (result ≡ link_in n) × LoadedLink S.facts R.facts (view self.old.caller.now.pass) (origin node) 3 (is_first self.old.caller.now.pass) n (view self.new.caller.now.pass) }
        ensures did { Did self.old (looked node 3 result (view self.new.caller.now.pass).own.updates_seen) self.new }
    {
        load_link(&self.manager.table, self.caller, node, field)
    }

    /// Exchanges a link of a root or of a held record from `expected` to `new`, where the set allows
    /// that. `field` is 3. Where the set says that the word may be locked, `expected` hasn't the flag
    /// `LOCK`. `decides` names the call that the step decides where it succeeds. It is refused exactly
    /// where the word held another link, and then nothing changed.
    pub fn exchange_link(
        &mut self,
        node: Node,
        field: u8,
        expected: Link,
        new: Link,
        decides: Option<Call>,
    ) -> Result<(), Found>
        requires at_work { IsAtWork self.old }
        requires node { HoldsNode self.old.caller.now.pass node }
        requires field { field ≡ 3 }
        requires links { IsLink expected × IsLink new }
        requires unlocked { IsUnlocked S.facts 3 expected }
        requires decides { Decides S.facts (view self.old.caller.now.pass) decides }
        requires allowed { S.facts.may_exchange (setup_of self.old.manager.now.table) (near_of (view self.old.caller.now.pass) (origin node)) 3 expected new decides }
        ensures same_reference { (self.new.caller.ghost_name ≡ self.old.caller.ghost_name) × (self.new.manager.now ≡ self.old.manager.now) }
        ensures at_work { IsAtWork self.new }
        ensures pass { IsSamePass self.old.caller.now.pass self.new.caller.now.pass }
        ensures keeps { MatchResult result (λ _. KeepsButLink (origin node) self.old.caller.now.pass self.new.caller.now.pass) (λ _. KeepsHeld self.old.caller.now.pass self.new.caller.now.pass) }
        ensures answers { MatchResult result (λ _. decides ≡ None → AnswersNone (view self.old.caller.now.pass) (view self.new.caller.now.pass)) (λ _. AnswersNone (view self.old.caller.now.pass) (view self.new.caller.now.pass)) }
        ensures owns { KeepsOwn (view self.old.caller.now.pass) (view self.new.caller.now.pass) }
        ensures locks { MatchResult result (λ _. (view self.new.caller.now.pass).own.locks ≡ locks_after S.facts (view self.old.caller.now.pass) (origin node) 3 new) (λ _. KeepsLocks (view self.old.caller.now.pass) (view self.new.caller.now.pass)) }
        ensures step { MatchResult result
            (λ _. ExchangedLink S.facts (view self.old.caller.now.pass) (origin node) 3 expected new decides (view self.new.caller.now.pass))
            (λ found. IsRefused (view self.old.caller.now.pass) (origin node) expected found.link (view self.new.caller.now.pass)) }
        ensures did { MatchResult result (λ _. Did self.old (exchanged node 3 expected new decides None) self.new) (λ found. Did self.old (exchanged node 3 expected new decides (Some found.link)) self.new) }
    {
        exchange_link(
            &self.manager.table,
            self.caller,
            node,
            field,
            expected,
            new,
            decides,
        )
    }

    /// Links an own record behind a root or a held record, without flags, where the set allows that: an
    /// exchange of the node's link from `expected`. `field`, `expected` and `decides` are as for
    /// `exchange_link`. It is refused exactly where the word held another link, and hands `own` back.
    pub fn publish(
        &mut self,
        node: Node,
        field: u8,
        expected: Link,
        own: Own,
        decides: Option<Call>,
    ) -> Result<(), (Own, Found)>
        requires at_work { IsAtWork self.old }
        requires node { HoldsNode self.old.caller.now.pass node }
        requires field { field ≡ 3 }
        requires link { IsLink expected }
        requires unlocked { IsUnlocked S.facts 3 expected }
        requires decides { Decides S.facts (view self.old.caller.now.pass) decides }
        requires allowed { (row : List ℕ) × (next : Option Near) × HasOwn (view self.old.caller.now.pass) own row × IsNextOf (view self.old.caller.now.pass) expected.target next
            × S.facts.may_publish (setup_of self.old.manager.now.table) (near_of (view self.old.caller.now.pass) (origin node)) 3 expected (drop 3 row) next decides }
        ensures same_reference { (self.new.caller.ghost_name ≡ self.old.caller.ghost_name) × (self.new.manager.now ≡ self.old.manager.now) }
        ensures at_work { IsAtWork self.new }
        ensures pass { IsSamePass self.old.caller.now.pass self.new.caller.now.pass }
        ensures keeps { MatchResult result (λ _. KeepsButLink (origin node) self.old.caller.now.pass self.new.caller.now.pass) (λ _. KeepsHeld self.old.caller.now.pass self.new.caller.now.pass) }
        ensures answers { MatchResult result (λ _. decides ≡ None → AnswersNone (view self.old.caller.now.pass) (view self.new.caller.now.pass)) (λ _. AnswersNone (view self.old.caller.now.pass) (view self.new.caller.now.pass)) }
        ensures owns { MatchResult result (λ _. KeepsOwnBut own.index (view self.old.caller.now.pass) (view self.new.caller.now.pass)) (λ _. KeepsOwn (view self.old.caller.now.pass) (view self.new.caller.now.pass)) }
        ensures locks { KeepsLocks (view self.old.caller.now.pass) (view self.new.caller.now.pass) }
        ensures step { MatchResult result
            (λ _. PublishedLink S.facts (view self.old.caller.now.pass) (origin node) 3 expected own decides (view self.new.caller.now.pass))
            (λ back. (back.0 ≡ own) × IsRefused (view self.old.caller.now.pass) (origin node) expected back.1.link (view self.new.caller.now.pass)) }
        ensures did { MatchResult result (λ _. Did self.old (published node 3 expected own decides None) self.new) (λ back. Did self.old (published node 3 expected own decides (Some back.1.link)) self.new) }
    {
        publish(
            &self.manager.table,
            self.caller,
            node,
            field,
            expected,
            own,
            decides,
        )
    }

    /// Takes a held record out behind a root or a held record, where the set allows that: an exchange
    /// of the node's link from a clean one to `gone` to `new`. `field` is 3. It is refused exactly where
    /// the word held another link, and then nothing changed.
    pub fn unlink(
        &mut self,
        node: Node,
        field: u8,
        gone: Held,
        new: Link,
    ) -> Result<TakenOut, Found>
        requires at_work { IsAtWork self.old }
        requires node { HoldsNode self.old.caller.now.pass node }
        requires gone { HoldsThere self.old.caller.now.pass gone }
        requires field { field ≡ 3 }
        requires link { IsLink new }
        requires allowed { S.facts.may_unlink (setup_of self.old.manager.now.table) (near_of (view self.old.caller.now.pass) (origin node)) 3 (clean gone.target) (near_of (view self.old.caller.now.pass) (origin_held gone)) new None None }
        ensures same_reference { (self.new.caller.ghost_name ≡ self.old.caller.ghost_name) × (self.new.manager.now ≡ self.old.manager.now) }
        ensures at_work { IsAtWork self.new }
        ensures pass { IsSamePass self.old.caller.now.pass self.new.caller.now.pass }
        ensures keeps { MatchResult result (λ _. KeepsButLink (origin node) self.old.caller.now.pass self.new.caller.now.pass) (λ _. KeepsHeld self.old.caller.now.pass self.new.caller.now.pass) }
        ensures answers { AnswersNone (view self.old.caller.now.pass) (view self.new.caller.now.pass) }
        ensures owns { KeepsOwn (view self.old.caller.now.pass) (view self.new.caller.now.pass) }
        ensures locks { KeepsLocks (view self.old.caller.now.pass) (view self.new.caller.now.pass) }
        ensures step { MatchResult result
            (λ taken. (taken ≡ gone.target) × UnlinkedRecord S.facts (view self.old.caller.now.pass) (origin node) 3 gone.target new (view self.new.caller.now.pass))
            (λ found. IsRefused (view self.old.caller.now.pass) (origin node) (clean gone.target) found.link (view self.new.caller.now.pass)) }
        ensures taken { IfOk result (λ taken. (h : Share) × HasTaken (view self.new.caller.now.pass) taken h) }
        ensures did { MatchResult result (λ _. Did self.old (unlinked node 3 gone.target new None) self.new) (λ found. Did self.old (unlinked node 3 gone.target new (Some found.link)) self.new) }
    {
        unlink(&self.manager.table, self.caller, node, field, gone, new)
    }

    /// Places a read, as of a search or of a refused insertion: from this one load on it stands in the one
    /// history with its call and its reply, behind just so many of the updates that were noted as `position`
    /// says, which the author's proof chooses. That number is no less than when the reclaimer's guard
    /// started, and the sequential set answers so there. The guard has started with a load of this operation.
    pub fn place(&mut self, call: Call, reply: bool)
        ghost position: { ℕ }
        requires at_work { IsAtWork self.old }
        requires started { HasStarted self.old.caller.now.pass }
        requires allowed { MayPlaceIn S.facts (view self.old.caller.now.pass) position call reply }
        ensures same_reference { (self.new.caller.ghost_name ≡ self.old.caller.ghost_name) × (self.new.manager.now ≡ self.old.manager.now) }
        ensures at_work { IsAtWork self.new }
        ensures pass { IsSamePass self.old.caller.now.pass self.new.caller.now.pass }
        ensures keeps { KeepsHeld self.old.caller.now.pass self.new.caller.now.pass }
        ensures owns { KeepsOwn (view self.old.caller.now.pass) (view self.new.caller.now.pass) }
        ensures locks { KeepsLocks (view self.old.caller.now.pass) (view self.new.caller.now.pass) }
        ensures step { (found : ℕ) × (view self.new.caller.now.pass ≡ placed_view (view self.old.caller.now.pass) 0 found position call reply) }
        ensures did { Did self.old (placed call reply position) self.new }
    {
        place(&self.manager.table, self.caller, call, reply);
    }

    /// Stores one word of an own record under its generation. `word` is 3 to 7 and `payload` is below
    /// 2^44. In word 3 it is a link without flags.
    pub fn store_own(&mut self, own: &mut Own, word: u8, payload: u64)
        requires at_work { IsAtWork self.old }
        requires own { IsOwnOf (view self.old.caller.now.pass) own.old }
        requires word { (3 ≤ word) × (word < 8) }
        requires payload { payload < 2 ^ 44 }
        requires link { word ≡ 3 → IsPackedRef payload }
        ensures same_reference { (self.new.caller.ghost_name ≡ self.old.caller.ghost_name) × (self.new.manager.now ≡ self.old.manager.now) }
        ensures at_work { IsAtWork self.new }
        ensures pass { IsSamePass self.old.caller.now.pass self.new.caller.now.pass }
        ensures record { own.new ≡ own.old }
        ensures own { IsOwnOf (view self.new.caller.now.pass) own.old }
        ensures keeps { KeepsHeld self.old.caller.now.pass self.new.caller.now.pass }
        ensures answers { AnswersNone (view self.old.caller.now.pass) (view self.new.caller.now.pass) }
        ensures owns { KeepsOwn (view self.old.caller.now.pass) (view self.new.caller.now.pass) }
        ensures locks { KeepsLocks (view self.old.caller.now.pass) (view self.new.caller.now.pass) }
        ensures step { view self.new.caller.now.pass ≡ stored (view self.old.caller.now.pass) own.old.index word (packed_number own.old.generation payload) }
        ensures did { Did self.old (stored_own own.old word payload) self.new }
    {
        store_own(&self.manager.table, self.caller, own, word, payload);
    }
}
