ghost use Rattle.std.specs.Prelude.{◌≡◌, ◌<◌, ◌≤◌, ◌^◌, IfOk, None, nat_le, refl, slice_index_or, vec_len};
ghost use Rattle.std.proofs.Common.{◌∙◌};
ghost use Rattle.row_words.specs.Refs.{RefParts};
ghost use Rattle.limbo_bags.specs.Chains.{IsChain};

use super::*;
use row_words::{Chain, ChainWords, Freed, Generation, Ref};
use std::alloc::{AllocError, Global};
use std::test::Fail;

// The words of one record.
#[derive(Clone, Copy, Debug)]
struct MemoryRow {
    next: Option<Ref>,
    birth: u64,
    stamp: u64,
}

// Rows in memory, by the indices of their records. Their one caller owns them all.
#[derive(Drop)]
struct MemoryRows {
    rows: Vec<MemoryRow>,
}

impl ChainWords for MemoryRows {
    ghost owns = { λ w r. r.index < vec_len w.rows };

    ghost row_of = { λ w r. let row = slice_index_or w.rows.items r.index (record { next = None; birth = 0; stamp = 0 }) in record { next = row.next; birth = row.birth; stamp = row.stamp } };

    ghost same = { λ v w. vec_len v.rows ≡ vec_len w.rows };

    ghost loads = { λ v r w. w ≡ v };

    ghost stores = { λ v r next w. vec_len v.rows ≡ vec_len w.rows };

    ghost looks = { λ v r word w. w ≡ v };

    fn load_chain(&mut self, r: Ref) -> Option<Ref> {
        self.rows[r.index as usize].next
    }

    fn store_chain(&mut self, r: Ref, next: Option<Ref>) {
        self.rows[r.index as usize].next = next;
    }

    fn load_birth(&mut self, r: Ref) -> u64 {
        self.rows[r.index as usize].birth
    }

    fn load_stamp(&mut self, r: Ref) -> u64 {
        self.rows[r.index as usize].stamp
    }

    ghost same_start = { λ w. refl };

    ghost same_then = { λ u v w a b. a ∙ b };
}

// Keeps what was retired with this stamp or a later one.
struct Late {
    from: u64,
}

impl Keeps for Late {
    ghost kept = { λ t r birth stamp. nat_le t.from stamp };

    fn keeps(&self, _r: Ref, _birth: u64, stamp: u64) -> bool {
        self.from <= stamp
    }
}

fn memory(alloc: Global, records: usize) -> Result<MemoryRows, AllocError>
    ensures { IfOk result (λ w. vec_len w.rows ≡ records) }
{
    let row = MemoryRow {
        next: None,
        birth: 0,
        stamp: 0,
    };
    Ok(MemoryRows {
        rows: vec![in alloc; row; records]?,
    })
}

#[test]
fn the_last_record_pushed_is_taken_first(rt: HostRuntime) -> Result<(), Fail> {
    let first = Generation::new(1).ok_or("no generation")?;
    let (a, b, c) = (Ref::new(1, first), Ref::new(2, first), Ref::new(3, first));
    let mut words = memory(rt.alloc(), 4)?;
    let mut chain = Chain::new();
    push(&mut words, &mut chain, a);
    push(&mut words, &mut chain, b);
    push(&mut words, &mut chain, c);
    assert_eq!(rt; chain.count, 3);
    assert_eq!(rt; pop(&mut words, &mut chain), Some(c));
    assert_eq!(rt; pop(&mut words, &mut chain), Some(b));
    assert_eq!(rt; pop(&mut words, &mut chain), Some(a));
    assert_eq!(rt; pop(&mut words, &mut chain), None);
    assert!(rt; chain.is_empty());
    Ok(())
}

// The chain of the records 1 to `count`, the last one first.
fn chain_of<W: ChainWords>(words: &mut W, count: u32, generation: Generation) -> Chain
    requires count { count < 2 ^ 20 }
    requires owned { (r : RefParts) → r.index ≤ count → W.owns words.old r }
    ensures list { IsChain (W.owns words.new) (W.row_of words.new) result }
    ensures count { result.count ≡ count }
    ensures owns { (q : RefParts) → W.owns words.old q → W.owns words.new q }
{
    let mut chain = Chain::new();
    for index in 0..count {
        push(words, &mut chain, Ref::new(index + 1, generation));
    }
    chain
}

#[test]
fn a_spent_record_goes_in_no_chain(rt: HostRuntime) -> Result<(), Fail> {
    let first = Generation::new(1).ok_or("no generation")?;
    let last = Generation::new(1_048_575).ok_or("no generation")?;
    let (a, b, c) = (Ref::new(1, first), Ref::new(2, last), Ref::new(3, first));
    let mut words = memory(rt.alloc(), 4)?;
    let mut from = Chain::new();
    push(&mut words, &mut from, a);
    push(&mut words, &mut from, b);
    push(&mut words, &mut from, c);
    let mut to = Chain::new();
    let freed = move_all(&mut words, &mut from, &mut to);
    assert_eq!(rt; freed, Freed { freed: 3, spent: 1 });
    assert!(rt; from.is_empty());
    assert_eq!(rt; to.count, 2);
    assert_eq!(rt; pop(&mut words, &mut to), Some(a));
    assert_eq!(rt; pop(&mut words, &mut to), Some(c));
    assert_eq!(rt; pop(&mut words, &mut to), None);
    Ok(())
}

#[test]
fn a_bag_is_sifted_by_stamp(rt: HostRuntime) -> Result<(), Fail> {
    let first = Generation::new(1).ok_or("no generation")?;
    let (a, b, c) = (Ref::new(1, first), Ref::new(2, first), Ref::new(3, first));
    let mut words = memory(rt.alloc(), 4)?;
    words.rows[2].stamp = 7;
    let mut bag = Chain::new();
    push(&mut words, &mut bag, a);
    push(&mut words, &mut bag, b);
    push(&mut words, &mut bag, c);
    let mut free = Chain::new();
    let freed = sift(&mut words, &mut bag, &Late { from: 7 }, &mut free);
    assert_eq!(rt; freed, Freed { freed: 2, spent: 0 });
    assert_eq!(rt; pop(&mut words, &mut bag), Some(b));
    assert_eq!(rt; pop(&mut words, &mut bag), None);
    assert_eq!(rt; pop(&mut words, &mut free), Some(a));
    assert_eq!(rt; pop(&mut words, &mut free), Some(c));
    Ok(())
}

#[test]
fn the_first_thirty_two_are_cut_off(rt: HostRuntime) -> Result<(), Fail> {
    let first = Generation::new(1).ok_or("no generation")?;
    let mut words = memory(rt.alloc(), 41)?;
    let mut rest = chain_of(&mut words, 40, first);
    let mut chain = cut(&mut words, &mut rest);
    assert_eq!(rt; chain.count, 32);
    assert_eq!(rt; rest.count, 8);
    assert_eq!(rt; pop(&mut words, &mut chain), Some(Ref::new(40, first)));
    assert_eq!(rt; pop(&mut words, &mut rest), Some(Ref::new(8, first)));
    Ok(())
}
