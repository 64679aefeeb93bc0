//! Tests across crates, and of the words and the messages: what no clause says.
#![tactic(auto)]

#[cfg(test)]
mod calls;
#[cfg(test)]
mod messages;
#[cfg(test)]
mod names;
#[cfg(test)]
mod outside;
#[cfg(test)]
mod words;
