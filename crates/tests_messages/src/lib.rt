//! Tests of what is read and written: trees of JSON, manifests, messages and their frames.
#![tactic(auto)]

#[cfg(test)]
mod call_tests;
#[cfg(test)]
mod cri_msgs_tests;
#[cfg(test)]
mod feed_tests;
#[cfg(test)]
mod field_tests;
#[cfg(test)]
mod json_tree_tests;
#[cfg(test)]
mod manifest_tests;
#[cfg(test)]
mod message_texts;
