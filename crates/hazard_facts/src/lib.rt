//! Hazard pointers: what the reclaimer keeps of records and guards, and the laws of a reclaimer proved of it. A record
//! may be held where an own announcement word names it, and a scan of all callers' words frees what none of them names.
#![tactic(auto)]
