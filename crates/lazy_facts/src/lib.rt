//! The lazy list: a sorted list whose updates lock links, and whose walks lock nothing and pass marked records (Heller,
//! Herlihy, Luchangco, Moir, Scherer and Shavit, "A lazy concurrent list-based set algorithm", OPODIS 2005). Its facts and
//! their laws, which are for proofs: it has no function.
//!
//! A link has no flags, the mark or the lock, and never both. Locking and unlocking decide nothing; the removal of a
//! key is decided where its record's lock becomes the mark, and an insertion where a locked link leads to the new
//! record. What a marked record shows of the set is placed behind the later of its reader's start and the marking.
#![tactic(auto)]
