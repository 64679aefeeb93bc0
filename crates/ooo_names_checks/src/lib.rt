//! Tests of names and calls: what no clause says of `ooo_scopes` and `ooo_calls`.
#![tactic(auto)]

#[cfg(test)]
mod calls;
#[cfg(test)]
mod scopes;
