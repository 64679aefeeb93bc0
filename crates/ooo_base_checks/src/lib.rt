//! Tests of the base: times, values, events, reports and generated texts. What no clause says of `ooo_time`, `ooo_value`,
//! `ooo_events`, `ooo_history` and `ooo_gen`.
#![tactic(auto)]

#[cfg(test)]
mod events;
#[cfg(test)]
mod generated;
#[cfg(test)]
mod history;
#[cfg(test)]
mod time;
#[cfg(test)]
mod value;
