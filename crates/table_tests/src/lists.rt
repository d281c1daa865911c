// A list of one record, by the table's steps on its nodes.
ghost use Rattle.std.specs.Prelude.{◌≡◌, ◌<◌, ◌^◌, [], true, false, IfSome, MatchOption};
ghost use Rattle.set_model.specs.declared.names.AllocatorName.TheVariants.{Bump as BumpName};
ghost use Rattle.record_rule.specs.ChainRows.{OwnsAway};
ghost use Rattle.record_table.specs.Handles.{setup_of, view, since, is_inside, IsPassOf, IsSamePass};
ghost use Rattle.table_tests.specs.First.{HasKey, HasMark, HoldsFirst, HoldsFound, HoldsMarked};

use crate::chains::push_and_pop;
use crate::closing::{close_lists, take_last};
use crate::first_look::look_first;
use crate::opening::open;
use crate::types::{ListPass, ListTable};
use alloc_api::Allocator;
use alloc_bump::Bump;
use record_memory::{KEY, LINK};
use record_table::{Held, Node};
use row_words::{Generation, Link, MARK, Ref};
use set_model::Call;
use std::test::Fail;

// A record that its caller marked: its key, and the link that it had.
#[derive(Drop)]
struct Marked {
    target: Ref,
    key: u64,
    link: Link,
}

// Adds the key where the list is empty, and says whether it did. Where it isn't, the exchange of the
// root's link is refused, and the record is set aside.
pub(crate) fn add_first(table: &ListTable, pass: &mut ListPass, key: u64) -> bool
    requires pass { IsPassOf table.now pass.old }
    requires allocator { (setup_of table.now).allocator ≡ BumpName }
    requires roots { (setup_of table.now).roots ≡ 1 }
    requires key { key < 2 ^ 40 }
    ensures pass { IsSamePass pass.old pass.new }
{
    let Ok(r) = Bump::draw(table, pass) else {
        return false;
    };
    let mut own = table.hand_out(pass, r, 0);
    table.store_own(pass, &mut own, KEY, key);
    let empty = Link::to(None);
    match table.publish(
        pass,
        Node::Root(0),
        LINK,
        empty,
        own,
        Some(Call::Insert(key)),
    ) {
        Ok(()) => true,
        Err((own, _)) => {
            table.set_aside(pass, own, None);
            false
        }
    }
}

// Removes the first key of the list, and says which it was and whether this caller took its record out.
fn remove_first(table: &ListTable, pass: &mut ListPass) -> Option<(u64, bool)>
    requires pass { IsPassOf table.now pass.old }
    requires whole { (view pass.old).others ≡ [] }
    requires outside { is_inside pass.old ≡ false }
    requires roots { (setup_of table.now).roots ≡ 1 }
    ensures pass { IsPassOf table.now pass.new }
    ensures caller { (view pass.new).own.caller ≡ (view pass.old).own.caller }
    ensures whole { (view pass.new).others ≡ [] }
    ensures outside { is_inside pass.new ≡ false }
{
    pass.begin_guard();
    let removed = match mark_first(table, pass) {
        Some(marked) => {
            let taken = take_out(table, pass, marked.target, marked.link).is_some();
            Some((marked.key, taken))
        }
        None => None,
    };
    pass.end_guard();
    removed
}

// The same, but another caller takes the record out before this one tries.
fn remove_helped(
    table: &ListTable,
    pass: &mut ListPass,
    helper: &mut ListPass,
) -> Option<(u64, bool)>
    requires pass { IsPassOf table.now pass.old }
    requires whole { (view pass.old).others ≡ [] }
    requires outside { is_inside pass.old ≡ false }
    requires helper { IsPassOf table.now helper.old }
    requires whole_helper { (view helper.old).others ≡ [] }
    requires outside_helper { is_inside helper.old ≡ false }
    requires roots { (setup_of table.now).roots ≡ 1 }
    ensures pass { IsPassOf table.now pass.new }
    ensures caller { (view pass.new).own.caller ≡ (view pass.old).own.caller }
    ensures whole { (view pass.new).others ≡ [] }
    ensures helper { IsPassOf table.now helper.new }
    ensures caller_helper { (view helper.new).own.caller ≡ (view helper.old).own.caller }
    ensures whole_helper { (view helper.new).others ≡ [] }
    ensures outside { is_inside pass.new ≡ false }
    ensures outside_helper { is_inside helper.new ≡ false }
{
    pass.begin_guard();
    let removed = match mark_first(table, pass) {
        Some(marked) => {
            help_first(table, helper);
            let taken = take_out(table, pass, marked.target, marked.link).is_some();
            Some((marked.key, taken))
        }
        None => None,
    };
    pass.end_guard();
    removed
}

// Takes the first record out where it is marked.
fn help_first(table: &ListTable, pass: &mut ListPass)
    requires pass { IsPassOf table.now pass.old }
    requires whole { (view pass.old).others ≡ [] }
    requires outside { is_inside pass.old ≡ false }
    requires roots { (setup_of table.now).roots ≡ 1 }
    ensures pass { IsPassOf table.now pass.new }
    ensures caller { (view pass.new).own.caller ≡ (view pass.old).own.caller }
    ensures whole { (view pass.new).others ≡ [] }
    ensures outside { is_inside pass.new ≡ false }
{
    pass.begin_guard();
    if let Some(target) = reach_first(table, pass) {
        let (_, link) = read_held(table, pass, target);
        if link.flags == MARK {
            let _taken = take_out(table, pass, target, link);
        }
    }
    pass.end_guard();
}

// Reaches the first record of the list, where there is one.
fn reach_first(table: &ListTable, pass: &mut ListPass) -> Option<Ref>
    requires pass { IsPassOf table.now pass.old }
    requires roots { (setup_of table.now).roots ≡ 1 }
    requires inside { is_inside pass.old ≡ true }
    requires begun { since pass.old ≡ view pass.old }
    ensures pass { IsSamePass pass.old pass.new }
    ensures held { HoldsFound pass.new result }
{
    let link = table.reach_link(pass, 0, Node::Root(0), LINK);
    if link.flags != 0 {
        return None;
    }
    link.target
}

// Loads the key and the link of the record at the first place.
fn read_held(table: &ListTable, pass: &mut ListPass, target: Ref) -> (u64, Link)
    requires pass { IsPassOf table.now pass.old }
    requires inside { is_inside pass.old ≡ true }
    requires held { HoldsFirst pass.old target }
    ensures pass { IsSamePass pass.old pass.new }
    ensures held { HoldsFirst pass.new target }
    ensures key { HasKey (view pass.new) result.0 }
    ensures mark { result.1.flags ≡ 1 → HasMark (view pass.new) result.1 }
{
    let key = table.load_key(pass, Held { place: 0, target });
    let link = table.load_link(pass, Node::At(Held { place: 0, target }), LINK);
    (key, link)
}

// Marks the first record of the list, where there is one without a mark and the exchange isn't refused.
fn mark_first(table: &ListTable, pass: &mut ListPass) -> Option<Marked>
    requires pass { IsPassOf table.now pass.old }
    requires roots { (setup_of table.now).roots ≡ 1 }
    requires inside { is_inside pass.old ≡ true }
    requires begun { since pass.old ≡ view pass.old }
    ensures pass { IsSamePass pass.old pass.new }
    ensures held { MatchOption result (Unit {0}) (λ m. HoldsMarked pass.new m.target m.link) }
{
    let target = reach_first(table, pass)?;
    let (key, link) = read_held(table, pass, target);
    if link.flags != 0 {
        return None;
    }
    let marked = link.marked();
    let held = Node::At(Held { place: 0, target });
    let Ok(()) = table.exchange_link(pass, held, LINK, link, marked, Some(Call::Remove(key))) else {
        return None;
    };
    Some(Marked { target, key, link })
}

// Takes a held and marked record out behind the root and retires it. Which record it retired, if it did.
fn take_out(table: &ListTable, pass: &mut ListPass, target: Ref, link: Link) -> Option<Ref>
    requires pass { IsPassOf table.now pass.old }
    requires roots { (setup_of table.now).roots ≡ 1 }
    requires held { HoldsMarked pass.old target link }
    ensures pass { IsSamePass pass.old pass.new }
    ensures away { IfSome result (λ r. OwnsAway (view pass.new) r) }
{
    let gone = Held { place: 0, target };
    let new = link.clean();
    let Ok(taken) = table.unlink(pass, Node::Root(0), LINK, gone, new) else {
        return None;
    };
    let retired = table.put_row(pass, taken, 0);

    // A reference is in range.
    let _index = retired.index;
    Some(retired)
}

// Removes the first key, and puts its record into a chain and takes it off again.
pub(crate) fn remove_chained(table: &ListTable, pass: &mut ListPass) -> Option<Ref>
    requires pass { IsPassOf table.now pass.old }
    requires outside { is_inside pass.old ≡ false }
    requires roots { (setup_of table.now).roots ≡ 1 }
    ensures pass { IsPassOf table.now pass.new }
    ensures caller { (view pass.new).own.caller ≡ (view pass.old).own.caller }
    ensures others { (view pass.new).others ≡ (view pass.old).others }
    ensures outside { is_inside pass.new ≡ false }
{
    pass.begin_guard();
    let popped = match mark_first(table, pass) {
        Some(marked) => match take_out(table, pass, marked.target, marked.link) {
            Some(retired) => push_and_pop(table, pass, retired),
            None => None,
        },
        None => None,
    };
    pass.end_guard();
    popped
}

#[test]
fn adds_a_key_and_removes_it(rt: HostRuntime) -> Result<(), Fail> {
    let first = Generation::new(7).ok_or("a generation")?;
    let (table, mut passes) = open(rt.alloc(), 4, 1, first, 1)?;
    let mut pass = take_last(&table, &mut passes).ok_or("a pass")?;
    assert_eq!(rt; remove_first(&table, &mut pass), None);
    pass.begin_guard();
    assert!(rt; look_first(&table, &mut pass).target.is_none());
    pass.end_guard();
    assert!(rt; add_first(&table, &mut pass, 5));
    assert!(rt; !add_first(&table, &mut pass, 6));
    assert_eq!(rt; remove_first(&table, &mut pass), Some((5, true)));
    assert_eq!(rt; remove_first(&table, &mut pass), None);
    assert!(rt; add_first(&table, &mut pass, 8));
    let closed = close_lists(table, pass);
    let words = closed.words();
    let own = 7u64 << 44;
    // The root leads to the fourth record, which has the key 8 and ends the list.
    assert_eq!(rt; words[25 + 3], own + (7 << 20) + 4);
    assert_eq!(rt; words[25 + 24 + 3], own);
    assert_eq!(rt; words[25 + 24 + 4], own + 8);
    // The second record is retired at the stamp 0. Its link keeps the mark, and its key stands.
    assert_eq!(rt; words[25 + 8 + 2], own);
    assert_eq!(rt; words[25 + 8 + 3], own + (1 << 40));
    assert_eq!(rt; words[25 + 8 + 4], own + 5);
    // The third record was handed out for the key that was refused.
    assert_eq!(rt; words[25 + 16 + 3], own);
    assert_eq!(rt; words[25 + 16 + 4], own + 6);
    Ok(())
}

#[test]
fn another_caller_takes_a_marked_record_out(rt: HostRuntime) -> Result<(), Fail> {
    let first = Generation::new(7).ok_or("a generation")?;
    let (table, mut passes) = open(rt.alloc(), 2, 2, first, 1)?;
    let mut helper = take_last(&table, &mut passes).ok_or("a pass")?;
    let mut pass = take_last(&table, &mut passes).ok_or("a pass")?;
    assert!(rt; add_first(&table, &mut pass, 5));
    // The exchange by which the first caller would take the record out is refused.
    assert_eq!(rt;
        remove_helped(&table, &mut pass, &mut helper),
        Some((5, false))
    );
    assert_eq!(rt; remove_first(&table, &mut pass), None);
    table.absorb(&mut pass, helper);
    let closed = close_lists(table, pass);
    let words = closed.words();
    let own = 7u64 << 44;
    // The root leads nowhere. The second record is retired, and its link keeps the mark.
    assert_eq!(rt; words[30 + 3], own);
    assert_eq!(rt; words[30 + 8 + 2], own);
    assert_eq!(rt; words[30 + 8 + 3], own + (1 << 40));
    Ok(())
}
