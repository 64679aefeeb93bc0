//! Tests of the bank of channels, by tables of operations and questions: what no clause says of `ooo_channels`.
#![tactic(auto)]

#[cfg(test)]
mod channels;
