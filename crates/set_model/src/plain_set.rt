// The set machine of one thread, run on a sorted vector.
ghost use Rattle.std.specs.Prelude.{◌≡◌, ◌↔◌, IfOk, IfErr, IsTrue, sum};
ghost use Rattle.set_model.specs.Keys.{empty, size_of, sum_of};
ghost use Rattle.set_model.specs.KeysWithRoom.{HasRoomFor};
ghost use Rattle.set_model.specs.Machine.{answer_of, keys_after};
ghost use Rattle.set_model.specs.Rising.{IsRising, StandsAt, BelongsAt};

use crate::calls::{Call, OutOfMemory};
use std::alloc::Global;
use std::marker::Model;

/// A set of keys for one thread, without records: a sorted vector, reserved once. Contracts see its
/// keys as a finite set, and beside them the room that was reserved.
#[derive(Debug, Drop)]
pub struct PlainSet {
    sorted: Vec<u64>,
}

impl Model for PlainSet {
    ghost use Rattle.std.specs.Vec.{vec_capacity};
    ghost use Rattle.set_model.specs.Keys.{from_list};
    ghost use Rattle.set_model.specs.KeysWithRoom.{KeysWithRoom, keys_with_room_code};
    ghost use Rattle.set_model.specs.Rising.{IsRising};

    ghost Value = { KeysWithRoom };

    ghost coded = { keys_with_room_code };

    ghost view = { λ set. record { keys = from_list set.sorted.items; room = vec_capacity set.sorted } };

    ghost invariant = { λ set. IsRising set.sorted.items };
}

impl PlainSet {
    /// An empty set with room for `room` keys.
    pub fn with_room(alloc: Global, room: usize) -> Result<PlainSet, OutOfMemory>
        ensures keys { IfOk result (λ set. set.keys ≡ empty) }
        ensures room { IfOk result (λ set. set.room ≡ room) }
    {
        let sorted = Vec::with_capacity(alloc, room)?;
        Ok(PlainSet { sorted })
    }

    /// How many keys are in the set.
    pub fn len(&self) -> usize
        ensures { result ≡ size_of self.now.keys }
    {
        self.sorted.len()
    }

    /// Whether no key is in the set.
    pub fn is_empty(&self) -> bool
        ensures { IsTrue result ↔ (size_of self.now.keys ≡ 0) }
    {
        self.len() == 0
    }

    /// The sum of the keys in the set.
    pub fn sum(&self) -> u128
        ensures { result ≡ sum_of self.now.keys }
    {
        total_of(&self.sorted)
    }

    /// Makes the call and answers it, as the set machine does. It takes no memory: an insertion
    /// uses the room that was reserved.
    pub fn apply(&mut self, call: Call) -> bool
        requires { HasRoomFor call self.old }
        ensures answer { result ≡ answer_of call self.old.keys }
        ensures keys { self.new.keys ≡ keys_after call self.old.keys }
        ensures room { self.new.room ≡ self.old.room }
    {
        match call {
            Call::Insert(key) => self.insert(key),
            Call::Remove(key) => self.remove(key),
            Call::Search(key) => self.contains(key),
        }
    }

    fn insert(&mut self, key: u64) -> bool
        requires { HasRoomFor (Call.Insert key) self.old }
        ensures answer { result ≡ answer_of (Call.Insert key) self.old.keys }
        ensures keys { self.new.keys ≡ keys_after (Call.Insert key) self.old.keys }
        ensures room { self.new.room ≡ self.old.room }
    {
        match place_of(&self.sorted, key) {
            Ok(_) => false,
            Err(place) => {
                self.sorted.insert(place, key).unwrap();
                true
            }
        }
    }

    fn remove(&mut self, key: u64) -> bool
        ensures answer { result ≡ answer_of (Call.Remove key) self.old.keys }
        ensures keys { self.new.keys ≡ keys_after (Call.Remove key) self.old.keys }
        ensures room { self.new.room ≡ self.old.room }
    {
        match place_of(&self.sorted, key) {
            Ok(place) => {
                self.sorted.remove(place);
                true
            }
            Err(_) => false,
        }
    }

    fn contains(&self, key: u64) -> bool
        ensures { result ≡ answer_of (Call.Search key) self.now.keys }
    {
        place_of(&self.sorted, key).is_ok()
    }
}

// The place of the key among keys that rise, or the place where it belongs.
fn place_of(sorted: &[u64], key: u64) -> Result<usize, usize>
    requires { IsRising sorted.now }
    ensures found { IfOk result (StandsAt sorted.now key) }
    ensures absent { IfErr result (BelongsAt sorted.now key) }
{
    sorted.binary_search(&key)
}

fn total_of(keys: &[u64]) -> u128
    ensures { result ≡ sum keys.now }
{
    let mut total = 0;
    for key in keys {
        total += u128::from(*key);
    }
    total
}
