//! What the words of the one table say, and what each caller knows of them. All of it is for
//! contracts and proofs but for the numbers that the program reads: which table it is for, and where a
//! word lies.
//!
//! `specs/Memory.antt` reads the flat words as control words by name and rows of eight words, and
//! `proofs/Stores.antt` says what a store to each kind of word does to that reading. Beside them, only the
//! words that a table opens with are told by where they lie.
#![tactic(auto)]

mod books;
mod layout;
mod steps;

pub use books::{Answered, Book, Drawing, Guard, Note, Offer, Place, Setup, Share, Standing, View};
pub use layout::{
    BIRTH, CHAIN, DRAWN, EPOCH, KEY, LINK, OF_RECORD, POOL_LOCK, STAMP, announcement, controls_of,
    cursor, field_of, shelf,
};
pub use steps::{Step, StepKind, Word};
