//! Tests of what is known of a text before a run: what no clause says of `ooo_constants`.
#![tactic(auto)]

#[cfg(test)]
mod constants;
