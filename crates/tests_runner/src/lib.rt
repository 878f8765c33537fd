//! Tests of serving a runtime: connections, the files of a creation, rounds over the cells, and waking the
//! runners.
#![tactic(auto)]

#[cfg(test)]
mod gather_tests;
#[cfg(test)]
mod kept_tests;
#[cfg(test)]
mod life_tests;
#[cfg(test)]
mod notifier_tests;
#[cfg(test)]
mod reader_tests;
#[cfg(test)]
mod round_tests;
#[cfg(test)]
mod thread_tests;
#[cfg(test)]
mod wires;
