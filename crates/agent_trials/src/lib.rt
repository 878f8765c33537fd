//! Trials of crews: workers settle pods over a runtime that they reach without a socket, whose reads and
//! writes can be made to fail. It has only tests and their parts.
#![tactic(auto)]

#[cfg(test)]
mod crew_tests;
#[cfg(test)]
mod loops;
#[cfg(test)]
mod report_tests;
#[cfg(test)]
mod test_crews;
