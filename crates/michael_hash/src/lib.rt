//! A hash table of keys over a record manager: as many of Michael's lists as it has buckets, on the records of one table.
//!
//! A key is in the bucket whose number is the key modulo the number of buckets, and each bucket is a sorted list of its
//! own, without locks (Michael, "High performance dynamic lock-free hash tables and list-based sets", SPAA 2002). The
//! number of buckets stays as it was made. That all buckets draw records from one table, and that a caller holds them
//! under one guard whichever bucket it walks, is this project's.
#![tactic(auto)]

mod as_set;
mod callers;
mod hash;

pub use hash::MichaelHash;
