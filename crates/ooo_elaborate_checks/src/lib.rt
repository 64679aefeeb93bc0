//! Tests of elaboration: what no clause says. All but `numbers` go over whole texts.
#![tactic(auto)]

#[cfg(test)]
mod limits;
#[cfg(test)]
mod models;
#[cfg(test)]
mod nested;
#[cfg(test)]
mod numbers;
#[cfg(test)]
mod outcomes;
#[cfg(test)]
mod printed;
#[cfg(test)]
mod refusals;
