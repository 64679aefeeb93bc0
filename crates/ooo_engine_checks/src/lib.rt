//! Tests of what runs a process: what no clause says of `ooo_code`, `ooo_meaning` and `ooo_interp`.
#![tactic(auto)]

#[cfg(test)]
mod code;
#[cfg(test)]
mod interp;
#[cfg(test)]
mod meaning;
