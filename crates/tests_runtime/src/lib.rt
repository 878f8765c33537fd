//! Tests of a runtime in memory: its files, its stacks of filters, its cells and its registry.
#![tactic(auto)]

#[cfg(test)]
mod cell_tests;
#[cfg(test)]
mod limit_tests;
#[cfg(test)]
mod node_io_tests;
#[cfg(test)]
mod runtime_cell_tests;
#[cfg(test)]
mod runtime_core_tests;
#[cfg(test)]
mod runtime_play;
#[cfg(test)]
mod verdict_tests;
