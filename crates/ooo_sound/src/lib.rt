//! The models of texts without breaches are sound. It has definitions and a law, and no running code.
//!
//! Proved, in module `law`: the bound model of a text without breaches of names and types is sound, where elaboration gives one
//! (`sound`). For the bodies, names and calls of such a text are right (`specs/Sound`, `TextsFit`).
#![tactic(auto)]

pub mod law;
