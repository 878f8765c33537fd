//! Tests of profiles and their filters: drawn ones beside a plain reading, figures of size and steps, and
//! pairs of filters that are compared.
#![tactic(auto)]

#[cfg(test)]
mod argument_tests;
#[cfg(test)]
mod compare_tests;
#[cfg(test)]
mod default_tests;
#[cfg(test)]
mod drawn_pairs;
#[cfg(test)]
mod drawn_profiles;
#[cfg(test)]
mod drawn_tests;
#[cfg(test)]
mod figure_tests;
#[cfg(test)]
mod slow_pairs;
