//! Tests of what an agent keeps of all its pods: the node, and the book of its history.
#![tactic(auto)]

#[cfg(test)]
mod node_lock_play;
#[cfg(test)]
mod node_lock_tests;
#[cfg(test)]
mod worker_core_play;
#[cfg(test)]
mod worker_core_tests;
