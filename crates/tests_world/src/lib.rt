//! Tests of the world: worked rows as lists of events, and drawn lists whose records plain code checks. They
//! are apart from the world, so that its proof is made once.
#![tactic(auto)]

#[cfg(test)]
mod drawn;
#[cfg(test)]
mod numbers;
#[cfg(test)]
mod plays;
#[cfg(test)]
mod pods;
#[cfg(test)]
mod recorded;
#[cfg(test)]
mod rows;
