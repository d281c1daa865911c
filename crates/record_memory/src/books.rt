// What is known of each caller, and what a pass knows.
use crate::Step;
use row_words::Ref;
use set_model::{AllocatorName, Call, ReclaimerName, SetName, Update};
use std::collections::LinkedList;

/// The numbers and the names that a table is made with.
#[derive(Clone, Copy)]
pub struct Setup {
    /// How many records it has, the roots among them.
    pub records: u32,
    /// How many roots it has. They are its first records.
    pub roots: u32,
    /// How many callers it has.
    pub callers: u32,
    /// The generation of a record that is handed out for the first time.
    pub first: u32,
    /// The set that it is for.
    pub set: SetName,
    /// The reclaimer that its callers follow.
    pub reclaimer: ReclaimerName,
    /// The allocator that its records are drawn by.
    pub allocator: AllocatorName,
}

/// How a caller has a record.
pub enum Standing {
    /// It is handing it out, and so many of its words carry the new generation already.
    Handing(u64),
    /// It was handed out and isn't linked.
    Own,
    /// It was handed out, wasn't used, and waits in the spare chain.
    Spare,
    /// It was taken out and isn't retired.
    TakenOut,
    /// It was retired.
    Limbo,
    /// It may be handed out anew.
    Free,
    /// It was freed at the last generation.
    Spent,
}

/// Where a record is.
pub enum Place {
    /// It was never handed out.
    Undrawn,
    /// It is a root.
    Root,
    /// It is reached from a root.
    Linked,
    /// It is in the chain of this shelf of the pool.
    Shelved(u64),
    /// This caller has it.
    Of(u64, Standing),
}

/// What a caller knows of a record that it has.
pub struct Share {
    /// How it has it.
    pub standing: Standing,
    /// The record's generation. Of a record that is being handed out, the new one.
    pub generation: u64,
    /// How many records were taken out before this one. It says nothing of a record that wasn't.
    pub taken_number: u64,
    /// The row's words. Of a record that was taken out and not handed out since, the first three.
    pub words: LinkedList<u64>,
}

/// What a caller knows of the word that counts the records drawn.
pub enum Drawing {
    /// Nothing.
    Unsure,
    /// Its last step found it below the number of records.
    Below,
    /// It once added 1 to it and found it at the number of records or above.
    Past,
}

/// A call that was answered Yes or No.
pub struct Answered {
    /// The call.
    pub call: Call,
    /// Whether the answer was Yes.
    pub reply: bool,
    /// Whether it stands in the history as an update, and not as a read.
    pub decided: bool,
    /// The number of updates before its place.
    pub position: u64,
}

/// A call that a caller lets others decide.
pub struct Offer {
    /// The record that says so.
    pub info: Ref,
    /// The call.
    pub call: Call,
    /// Its number among its caller's answered calls, from 1.
    pub number: u64,
    /// How many updates took effect when it was offered.
    pub since: u64,
}

/// What a caller knows of a record that it holds. It knows nothing else of it when it reaches it anew.
pub struct Note {
    /// Words 3 to 7: those that are known and that no step changes while the record keeps its generation.
    pub words: LinkedList<Option<u64>>,
    /// How many updates took effect when it was reached.
    pub reached_at: u64,
    /// What the set keeps of how it was reached and of what was found in it since.
    pub kept: LinkedList<u64>,
}

/// What is known of a caller's guard. Outside a guard nothing is held.
pub struct Guard {
    /// Whether the caller is between entering and leaving.
    pub active: bool,
    /// How many records were taken out at the step that started the guard.
    pub start_taken_out: u64,
    /// How many updates took effect by then.
    pub start_updates: u64,
    /// How many steps its caller had made with that one. It is 0 before the first guard.
    pub start_step: u64,
    /// What its own four announcement words hold.
    pub announced: LinkedList<u64>,
    /// The record that it holds at each place.
    pub holds: LinkedList<Option<Ref>>,
    /// What it has loaded a link to and not confirmed yet: the place that waits, and the record.
    pub pending: Option<(u64, Ref)>,
    /// The epoch at the announcing step, which reclaimers by epochs compare with what a scan finds.
    pub epoch: u64,
    /// The epochs that it read, the last first, by which DEBRA empties its bags.
    pub readings: LinkedList<u64>,
    /// How many records were taken out when it last read the epoch, so that a stamp is late enough.
    pub reading_taken_out: u64,
    /// How far a scan of announcements that goes on over several calls, as DEBRA's does, has come.
    pub scan_place: u64,
    /// The announcement words that the scan in progress has loaded, in order, as hazard pointers and 2GEIBR do.
    pub loaded: LinkedList<u64>,
}

/// A link word that a caller has locked. No other caller changes it, so its caller knows what it holds.
pub struct LockedWord {
    /// The index of its record, from 1.
    pub index: u64,
    /// Which of the record's words it is, from 0.
    pub field: u64,
    /// What it holds.
    pub value: u64,
}

/// How many moves of records a caller made, over all its steps.
pub struct Moves {
    /// Records that it drew.
    pub drawn: u64,
    /// Free records that it began to hand out anew.
    pub reused: u64,
    /// Records that it retired.
    pub retired: u64,
    /// Records of its limbo that it freed.
    pub freed: u64,
    /// Records that became its own: that it handed out or took from its spare chain. Each was given
    /// a birth.
    pub births: u64,
}

/// All that is known of one caller.
pub struct Book {
    /// Its number, from 0.
    pub caller: u64,
    /// Its steps, the oldest first.
    pub steps: LinkedList<Step>,
    /// What it knows of each record that it has, by index.
    pub mine: LinkedList<Option<Share>>,
    /// How many moves of records it made.
    pub moves: Moves,
    /// What it knows of the word that counts the records drawn.
    pub drawing: Drawing,
    /// The link words that it has locked.
    pub locks: LinkedList<LockedWord>,
    /// Its calls that were answered Yes or No, in order.
    pub answered: LinkedList<Answered>,
    /// The call in progress, where others may decide it.
    pub offer: Option<Offer>,
    /// Its guard.
    pub guard: Guard,
    /// What it knows of the record that it holds at each place.
    pub notes: LinkedList<Note>,
    /// What the set keeps of what was found in each root since the guard started.
    pub root_notes: LinkedList<LinkedList<u64>>,
    /// How many updates had taken effect at its last step that noted them: a load of a link, an
    /// exchange of one that was made, or a step that started its guard.
    pub updates_seen: u64,
}

/// What a pass knows: its own caller's book, the books of callers whose passes aren't split off
/// yet or were joined into it, and beginnings of the two lists of the whole table.
pub struct View {
    /// What the table is made with.
    pub setup: Setup,
    /// Whether it is a caller's pass. Else it is a message from one pass to another, or a pass that was
    /// joined into another one, and carries no book.
    pub present: bool,
    /// Whether there is no other pass yet.
    pub alone: bool,
    /// Its own caller's book.
    pub own: Book,
    /// The other books that it carries.
    pub others: LinkedList<Book>,
    /// The updates that its caller knows to come before whatever it does next.
    pub front: LinkedList<Update>,
    /// The most updates that a step of it has seen.
    pub seen_updates: LinkedList<Update>,
    /// The most records taken out that a step of it has seen, in order.
    pub seen_taken_out: LinkedList<Ref>,
}
