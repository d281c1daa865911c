//! Tests of the whole program on Michael's hash table, under each reclaimer that is built: from words, bytes and a gate
//! to what is printed and the status. Where replies depend on the order of the callers' steps, what must hold of them is tested.
#![tactic(auto)]

#[cfg(test)]
mod beside_plain;
#[cfg(test)]
mod faults;
#[cfg(test)]
mod program;
#[cfg(test)]
mod rows;
#[cfg(test)]
mod shared_keys;
#[cfg(test)]
mod shelves;
#[cfg(test)]
mod side_by_side;
