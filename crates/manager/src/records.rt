// How a caller gets records, and puts them away.
ghost use Rattle.std.specs.Prelude.{◌≡◌, ◌+◌, ◌++◌, ℕ, List, [], ◌∷◌, IfSome, IfNone, MatchOption, MatchResult, None, true, false};
ghost use Rattle.record_memory.specs.declared.books.Book.{Book};
ghost use Rattle.record_memory.specs.declared.books.Share.{Share};
ghost use Rattle.record_memory.specs.declared.steps.Step.{Step};
ghost use Rattle.row_words.specs.declared.links.Freed.{Freed};
ghost use Rattle.record_rule.specs.HandingOut.{HasDrawn, IsOwnOf};
ghost use Rattle.record_rule.specs.Links.{HasTaken};
ghost use Rattle.record_rule.specs.Makes.{Makes};
ghost use Rattle.record_rule.specs.Standings.{is_spare};
ghost use Rattle.record_table.specs.Handles.{setup_of, view, IsPassOf, IsSamePass};
ghost use Rattle.reclaim_api.specs.Frames.{had};
ghost use Rattle.reclaim_api.specs.Holds.{KeepsHeld};
ghost use Rattle.record_pieces.specs.Hands.{in_hand};
ghost use Rattle.record_pieces.specs.OwnSteps.{OneStep, own_load, own_store};
ghost use Rattle.record_pieces.specs.Giving.{GivesChains};
ghost use Rattle.record_pieces.specs.Events.{HandsOut, KeepsStock, CountsBirth, CountsReuse, CountsDraw, SetsAside, TakesSpare, WasFree, Gets, FindsNone, Does, took, refused};
ghost use Rattle.pool.specs.Calls.{Takes};
ghost use Rattle.pool.specs.declared.Taken.TheVariants.{Some as Took, None as FoundNone};
ghost use Rattle.manager.specs.Manners.{gives_by, manner};
ghost use Rattle.manager.specs.Callers.{IsWorking, AnswersNone, KeepsOwn, KeepsOwnBut, KeepsLocks};

use crate::counting::raised;
use crate::giving::give_chains;
use crate::types::Caller;
use alloc_api::{Allocator, NoRecord};
use pool::{Pool, Taken};
use reclaim_api::Scheme;
use record_table::{Own, Shape, Table, TakenOut};
use row_words::Ref;

// The first spare record, where there is one. The reclaimer answers a birth for it, which isn't used: the record keeps the
// birth that it has.
fn take_spare<S: Shape, R: Scheme>(table: &Table<S, R>, caller: &mut Caller<S, R>) -> Option<Own>
    requires of { IsPassOf table.now caller.old.pass }
    requires caller { IsWorking R.is_local caller.old }
    ensures of { IsPassOf table.now caller.new.pass }
    ensures caller { IsWorking R.is_local caller.new }
    ensures pass { IsSamePass caller.old.pass caller.new.pass }
    ensures owns { KeepsOwn (view caller.old.pass) (view caller.new.pass) }
    ensures none { IfNone result ((caller.new ≡ caller.old) × (caller.old.spare.head ≡ None)) }
    ensures own { IfSome result (λ own. IsOwnOf (view caller.new.pass) own) }
    ensures keeps { IfSome result (λ _. KeepsHeld caller.old.pass caller.new.pass) }
    ensures answers { IfSome result (λ _. AnswersNone (view caller.old.pass) (view caller.new.pass)) }
    ensures locks { KeepsLocks (view caller.old.pass) (view caller.new.pass) }
    ensures does { IfSome result (λ own. (d : Book) × (birth : ℕ) × (n : ℕ) × R.bears (setup_of table.now) (view caller.old.pass).own birth d × OneStep d (own_load d own 1 n) (view caller.new.pass).own) }
    ensures stock { IfSome result (λ own. TakesSpare (view caller.old.pass).own own (view caller.new.pass).own) }
    ensures retired { IfSome result (λ _. (view caller.new.pass).own.moves.retired ≡ (view caller.old.pass).own.moves.retired) }
    ensures hand { IfSome result (λ _. in_hand (view caller.new.pass).own ≡ in_hand (view caller.old.pass).own + 1) }
{
    let first = caller.spare.head?;
    let _birth = R::birth(table, &mut caller.pass, &mut caller.local);
    let (own, next) = table.take_spare(&mut caller.pass, first);
    caller.spare.head = next;
    caller.spare.count -= 1;
    Some(own)
}

// Puts an own record in front of the spare ones.
pub(crate) fn set_spare<S: Shape, R: Scheme>(
    table: &Table<S, R>,
    caller: &mut Caller<S, R>,
    own: Own,
)
    requires of { IsPassOf table.now caller.old.pass }
    requires caller { IsWorking R.is_local caller.old }
    requires own { IsOwnOf (view caller.old.pass) own }
    ensures of { IsPassOf table.now caller.new.pass }
    ensures caller { IsWorking R.is_local caller.new }
    ensures pass { IsSamePass caller.old.pass caller.new.pass }
    ensures owns { KeepsOwnBut own.index (view caller.old.pass) (view caller.new.pass) }
    ensures made { (found : ℕ) × (left : ℕ) × Makes (view caller.old.pass) (view caller.new.pass) (own_store (view caller.old.pass).own own 1 found left ∷ []) }
    ensures stock { SetsAside (view caller.old.pass).own own (view caller.new.pass).own }
    ensures hand { in_hand (view caller.new.pass).own + 1 ≡ in_hand (view caller.old.pass).own }
{
    let r = table.set_aside(&mut caller.pass, own, caller.spare.head);
    let _index = r.index;
    caller.spare.head = Some(r);
    caller.spare.count += 1;
}

// Retires a record. What leaves limbo is free, and goes to the pool where it is much.
pub(crate) fn put_away<S: Shape, R: Scheme, P: Pool>(
    table: &Table<S, R>,
    caller: &mut Caller<S, R>,
    taken: TakenOut,
)
    requires of { IsPassOf table.now caller.old.pass }
    requires caller { IsWorking R.is_local caller.old }
    requires taken { (h : Share) × HasTaken (view caller.old.pass) taken h }
    ensures of { IsPassOf table.now caller.new.pass }
    ensures caller { IsWorking R.is_local caller.new }
    ensures pass { IsSamePass caller.old.pass caller.new.pass }
    ensures keeps { KeepsHeld caller.old.pass caller.new.pass }
    ensures answers { AnswersNone (view caller.old.pass) (view caller.new.pass) }
    ensures locks { KeepsLocks (view caller.old.pass) (view caller.new.pass) }
    ensures owns { KeepsOwn (view caller.old.pass) (view caller.new.pass) }
    ensures stock { KeepsStock (view caller.old.pass).own (view caller.new.pass).own }
    ensures retired { (view caller.new.pass).own.moves.retired ≡ (view caller.old.pass).own.moves.retired + 1 }
    ensures does { (d : Book) × (f : Freed) × R.puts_away (setup_of table.now) (view caller.old.pass).own taken f d × GivesChains P.SHELVES (gives_by P.SHELVES P.busy (setup_of table.now)) f d (view caller.new.pass).own }
    ensures hand { in_hand (view caller.new.pass).own + 1 ≡ in_hand (view caller.old.pass).own }
{
    let left = R::put_away(
        table,
        &mut caller.pass,
        &mut caller.local,
        taken,
        &mut caller.free,
    );
    caller.moved.retired = raised(caller.moved.retired, 1);
    caller.moved.freed = raised(caller.moved.freed, left.freed);
    caller.moved.spent = raised(caller.moved.spent, left.spent);
    give_chains::<S, R, P>(table, caller, left);
}

// A record that was never handed out.
fn draw<S: Shape, R: Scheme, A: Allocator>(
    table: &Table<S, R>,
    caller: &mut Caller<S, R>,
) -> Result<Ref, NoRecord>
    requires of { IsPassOf table.now caller.old.pass }
    requires caller { IsWorking R.is_local caller.old }
    requires allocator { (setup_of table.now).allocator ≡ A.NAME }
    ensures of { IsPassOf table.now caller.new.pass }
    ensures caller { IsWorking R.is_local caller.new }
    ensures pass { IsSamePass caller.old.pass caller.new.pass }
    ensures owns { KeepsOwn (view caller.old.pass) (view caller.new.pass) }
    ensures spare { caller.new.spare ≡ caller.old.spare }
    ensures made { (steps : List Step) × Makes (view caller.old.pass) (view caller.new.pass) steps }
    ensures drawn { MatchResult result (λ r. HasDrawn (view caller.new.pass) r) (λ _. Unit {0}) }
    ensures births { (view caller.new.pass).own.moves.births ≡ (view caller.old.pass).own.moves.births }
    ensures moves { MatchResult result (λ _. CountsDraw (view caller.old.pass).own (view caller.new.pass).own) (λ _. (view caller.new.pass).own.moves ≡ (view caller.old.pass).own.moves) }
    ensures does { MatchResult result (λ r. A.draws (view caller.old.pass) r (view caller.new.pass)) (λ none. A.refuses (view caller.old.pass) none.found (view caller.new.pass)) }
    ensures hand { MatchResult result (λ _. in_hand (view caller.new.pass).own ≡ in_hand (view caller.old.pass).own + 1) (λ _. in_hand (view caller.new.pass).own ≡ in_hand (view caller.old.pass).own) }
{
    let r = A::draw(table, &mut caller.pass)?;
    caller.moved.drawn = raised(caller.moved.drawn, 1);
    Ok(r)
}

// The first free record, to be handed out at its next generation.
fn take_free<S: Shape, R: Scheme>(table: &Table<S, R>, caller: &mut Caller<S, R>) -> Option<Ref>
    requires of { IsPassOf table.now caller.old.pass }
    requires caller { IsWorking R.is_local caller.old }
    ensures of { IsPassOf table.now caller.new.pass }
    ensures caller { IsWorking R.is_local caller.new }
    ensures pass { IsSamePass caller.old.pass caller.new.pass }
    ensures owns { KeepsOwn (view caller.old.pass) (view caller.new.pass) }
    ensures spare { caller.new.spare ≡ caller.old.spare }
    ensures none { IfNone result ((caller.new ≡ caller.old) × (caller.old.free.head ≡ None)) }
    ensures drawn { IfSome result (λ r. HasDrawn (view caller.new.pass) r) }
    ensures births { (view caller.new.pass).own.moves.births ≡ (view caller.old.pass).own.moves.births }
    ensures again { IfSome result (λ r. WasFree (view caller.old.pass).own r × CountsReuse (view caller.old.pass).own (view caller.new.pass).own) }
    ensures made { IfSome result (λ r. (n : ℕ) × Makes (view caller.old.pass) (view caller.new.pass) (own_load (view caller.old.pass).own r 1 n ∷ [])) }
    ensures hand { IfSome result (λ _. in_hand (view caller.new.pass).own ≡ in_hand (view caller.old.pass).own + 1) }
{
    let first = caller.free.head?;
    let (r, next) = table.take_free(&mut caller.pass, first);
    caller.free.head = next;
    caller.free.count -= 1;
    caller.moved.reused = raised(caller.moved.reused, 1);
    Some(r)
}

// A chain of the pool's, where there is one, when no record is free.
fn take_chain<S: Shape, R: Scheme, P: Pool>(table: &Table<S, R>, caller: &mut Caller<S, R>) -> bool
    requires of { IsPassOf table.now caller.old.pass }
    requires caller { IsWorking R.is_local caller.old }
    requires none { caller.old.free.head ≡ None }
    ensures of { IsPassOf table.now caller.new.pass }
    ensures caller { IsWorking R.is_local caller.new }
    ensures pass { IsSamePass caller.old.pass caller.new.pass }
    ensures owns { KeepsOwn (view caller.old.pass) (view caller.new.pass) }
    ensures spare { caller.new.spare ≡ caller.old.spare }
    ensures made { (steps : List Step) × Makes (view caller.old.pass) (view caller.new.pass) steps }
    ensures births { (view caller.new.pass).own.moves.births ≡ (view caller.old.pass).own.moves.births }
    ensures some { result ≡ true → Takes P.SHELVES P.busy (view caller.old.pass) (view caller.new.pass) (Took caller.new.free) }
    ensures none { result ≡ false → Takes P.SHELVES P.busy (view caller.old.pass) (view caller.new.pass) FoundNone × (caller.new.free ≡ caller.old.free) }
    ensures hand { in_hand (view caller.new.pass).own ≡ in_hand (view caller.old.pass).own }
{
    match P::take(table, &mut caller.pass) {
        Taken::Some(chain) => {
            caller.free = chain;
            true
        }
        Taken::None => false,
    }
}

// Hands a drawn record out.
fn hand_out<S: Shape, R: Scheme>(table: &Table<S, R>, caller: &mut Caller<S, R>, r: Ref) -> Own
    requires of { IsPassOf table.now caller.old.pass }
    requires caller { IsWorking R.is_local caller.old }
    requires drawn { HasDrawn (view caller.old.pass) r }
    ensures of { IsPassOf table.now caller.new.pass }
    ensures caller { IsWorking R.is_local caller.new }
    ensures pass { IsSamePass caller.old.pass caller.new.pass }
    ensures keeps { KeepsHeld caller.old.pass caller.new.pass }
    ensures answers { AnswersNone (view caller.old.pass) (view caller.new.pass) }
    ensures locks { KeepsLocks (view caller.old.pass) (view caller.new.pass) }
    ensures owns { KeepsOwn (view caller.old.pass) (view caller.new.pass) }
    ensures stock { (had is_spare (view caller.new.pass).own ≡ had is_spare (view caller.old.pass).own) × CountsBirth (view caller.old.pass).own (view caller.new.pass).own }
    ensures retired { (view caller.new.pass).own.moves.retired ≡ (view caller.old.pass).own.moves.retired }
    ensures own { IsOwnOf (view caller.new.pass) result }
    ensures record { result ≡ r }
    ensures does { (d : Book) × (birth : ℕ) × R.bears (setup_of table.now) (view caller.old.pass).own birth d × HandsOut r birth d (view caller.new.pass).own }
    ensures hand { in_hand (view caller.new.pass).own ≡ in_hand (view caller.old.pass).own }
{
    let birth = R::birth(table, &mut caller.pass, &mut caller.local);
    table.hand_out(&mut caller.pass, r, birth)
}

// The first free record, or the first of a chain of the pool's, or else one that is drawn. No record is spare.
fn take_next<S: Shape, R: Scheme, A: Allocator, P: Pool>(
    table: &Table<S, R>,
    caller: &mut Caller<S, R>,
) -> Result<Ref, NoRecord>
    requires of { IsPassOf table.now caller.old.pass }
    requires caller { IsWorking R.is_local caller.old }
    requires allocator { (setup_of table.now).allocator ≡ A.NAME }
    requires none { caller.old.spare.head ≡ None }
    ensures of { IsPassOf table.now caller.new.pass }
    ensures caller { IsWorking R.is_local caller.new }
    ensures pass { IsSamePass caller.old.pass caller.new.pass }
    ensures owns { KeepsOwn (view caller.old.pass) (view caller.new.pass) }
    ensures spare { caller.new.spare ≡ caller.old.spare }
    ensures made { (steps : List Step) × Makes (view caller.old.pass) (view caller.new.pass) steps }
    ensures drawn { MatchResult result (λ r. HasDrawn (view caller.new.pass) r) (λ _. Unit {0}) }
    ensures births { (view caller.new.pass).own.moves.births ≡ (view caller.old.pass).own.moves.births }
    ensures did { MatchResult result
        (λ r. Gets (manner R.enters R.leaves R.bears R.reaches R.puts_away A.draws A.refuses P.SHELVES P.busy) (setup_of table.now) (view caller.old.pass).own r (view caller.new.pass).own)
        (λ none. FindsNone (manner R.enters R.leaves R.bears R.reaches R.puts_away A.draws A.refuses P.SHELVES P.busy) (setup_of table.now) (view caller.old.pass).own none.found (view caller.new.pass).own) }
    ensures hand { MatchResult result (λ _. in_hand (view caller.new.pass).own ≡ in_hand (view caller.old.pass).own + 1) (λ _. in_hand (view caller.new.pass).own ≡ in_hand (view caller.old.pass).own) }
{
    if let Some(r) = take_free(table, caller) {
        return Ok(r);
    }
    if !take_chain::<S, R, P>(table, caller) {
        return draw::<S, R, A>(table, caller);
    }
    match take_free(table, caller) {
        Some(r) => Ok(r),
        None => unreachable!(),
    }
}

// A spare record, or else the next one, handed out.
pub(crate) fn fresh<S: Shape, R: Scheme, A: Allocator, P: Pool>(
    table: &Table<S, R>,
    caller: &mut Caller<S, R>,
) -> Result<Own, NoRecord>
    requires of { IsPassOf table.now caller.old.pass }
    requires caller { IsWorking R.is_local caller.old }
    requires allocator { (setup_of table.now).allocator ≡ A.NAME }
    ensures of { IsPassOf table.now caller.new.pass }
    ensures caller { IsWorking R.is_local caller.new }
    ensures pass { IsSamePass caller.old.pass caller.new.pass }
    ensures keeps { KeepsHeld caller.old.pass caller.new.pass }
    ensures answers { AnswersNone (view caller.old.pass) (view caller.new.pass) }
    ensures locks { KeepsLocks (view caller.old.pass) (view caller.new.pass) }
    ensures owns { KeepsOwn (view caller.old.pass) (view caller.new.pass) }
    ensures own { MatchResult result (λ own. IsOwnOf (view caller.new.pass) own) (λ _. Unit {0}) }
    ensures did { MatchResult result
        (λ own. Does (manner R.enters R.leaves R.bears R.reaches R.puts_away A.draws A.refuses P.SHELVES P.busy) (setup_of table.now) (took own) (view caller.old.pass).own (view caller.new.pass).own)
        (λ none. Does (manner R.enters R.leaves R.bears R.reaches R.puts_away A.draws A.refuses P.SHELVES P.busy) (setup_of table.now) (refused none.found) (view caller.old.pass).own (view caller.new.pass).own) }
{
    if let Some(own) = take_spare(table, caller) {
        return Ok(own);
    }
    let r = take_next::<S, R, A, P>(table, caller)?;
    Ok(hand_out(table, caller, r))
}
