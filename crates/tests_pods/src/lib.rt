//! Tests of one pod of an agent: the life of a container, and the requests that a pod has due.
#![tactic(auto)]

#[cfg(test)]
mod lifecycle_tests;
#[cfg(test)]
mod worker_pod_play;
#[cfg(test)]
mod worker_pod_tests;
