// Several instructions at once: the address of a local, of an element with the test of its index, and the short ways out of && and ||.
#![tactic(auto)]

pub mod address;
pub mod ways;
