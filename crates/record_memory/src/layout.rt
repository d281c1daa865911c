// Where the words of the table lie, by name.
ghost use Rattle.std.specs.Prelude.{◌≡◌, ◌<◌, ◌≤◌, ◌+◌, ◌*◌};
ghost use Rattle.record_memory.specs.declared.steps.Word.TheVariants.{Drawn, Epoch, Shelf, Announced, Cursor, Field};
ghost use Rattle.record_memory.specs.Memory.{address, controls};

/// The word of a row with the epoch at which its record was handed out.
pub const BIRTH: u8 = 0;

/// The word of a row through which chains go.
pub const CHAIN: u8 = 1;

/// The word of a row with the stamp that its record was retired with.
pub const STAMP: u8 = 2;

/// The word of a row with a set's link.
pub const LINK: u8 = 3;

/// The word of a row with a set's key.
pub const KEY: u8 = 4;

/// How many words a row has.
pub const OF_RECORD: u8 = 8;

/// The control word that counts the records drawn from the front, the roots among them.
pub const DRAWN: u32 = 0;

/// The control word with the epoch.
pub const EPOCH: u32 = 1;

/// The control word with the lock of the pool.
pub const POOL_LOCK: u32 = 2;

/// How many control words no caller has of its own, the shelves among them.
const SHARED: u32 = 20;

/// How many announcement words each caller has.
const ANNOUNCED: u32 = 4;

/// How many control words a table of `callers` callers has.
pub fn controls_of(callers: u32) -> usize
    ensures { result ≡ controls callers }
{
    SHARED as usize + (ANNOUNCED as usize + 1) * callers as usize
}

/// The control word that is this shelf of the pool, from 0 to 15.
pub fn shelf(k: u32) -> u32
    requires { k < 16 }
    ensures { result ≡ address 0 (Shelf k) }
{
    4 + k
}

/// An announcement word of `caller`, from 0 to 3. `caller` is at most 1,048,575.
pub fn announcement(caller: u32, k: u32) -> u32
    requires caller { caller ≤ 1048575 }
    requires word { k < 4 }
    ensures { result ≡ address 0 (Announced (4 * caller + k)) }
{
    SHARED + ANNOUNCED * caller + k
}

/// The word that counts what `caller` drew from its own range, in a table of `callers` callers. Both are at most
/// 1,048,575.
pub fn cursor(callers: u32, caller: u32) -> u32
    requires callers { callers ≤ 1048575 }
    requires caller { caller ≤ 1048575 }
    ensures { result ≡ address callers (Cursor caller) }
{
    SHARED + ANNOUNCED * callers + caller
}

/// The place of word `field`, from 0 to 7, of the record with this index, from 1 on, in a table of `callers`
/// callers.
pub fn field_of(callers: u32, index: u32, field: u8) -> usize
    requires index { 0 < index }
    requires field { field < 8 }
    ensures { result ≡ address callers (Field index field) }
{
    controls_of(callers) + usize::from(OF_RECORD) * (index as usize - 1) + usize::from(field)
}
