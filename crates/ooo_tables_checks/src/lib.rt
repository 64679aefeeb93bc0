//! Tests of the tables of whole designs: of `ooo_segments`, `ooo_access`, `ooo_conflicts` and `ooo_advance`, together and
//! one by one, and of the text that `ooo_tables` writes of them.
#![tactic(auto)]

#[cfg(test)]
mod access;
#[cfg(test)]
mod advance;
#[cfg(test)]
mod closed;
#[cfg(test)]
mod designs;
#[cfg(test)]
mod limits;
#[cfg(test)]
mod paper;
#[cfg(test)]
mod segments;
#[cfg(test)]
mod sketch;
#[cfg(test)]
mod tables;
#[cfg(test)]
mod texts;
#[cfg(test)]
mod written;
