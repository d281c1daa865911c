//! What the calls of a guard do, one event after another. All of it is for contracts.
//!
//! A reclaimer, an allocator and a pool each say by relations which steps they make: their manner. An
//! event is one call of a guard and what it answered; `Does` says which steps it made of its caller's
//! book, at a manner; a trail is a list of events. So a set says which events its calls make, without
//! naming a reclaimer.
#![tactic(auto)]
