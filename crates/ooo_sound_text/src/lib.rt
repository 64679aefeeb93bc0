//! What the modules of a text declare, call and do, where nothing is wrong with its names and types. It has definitions and
//! laws, and no running code.
//!
//! `specs/Right` says what is noted of a text without breaches, and `specs/Modules` how a module is read behind the names of
//! its file. Proved, in module `law`: each function that a body without breaches calls, as a whole right side or as a
//! statement, is one that a name of the body's scope denotes (`calls`).
//!
//! Of a module that is read behind the names of its file and without breaches: each name of its scope stands where its members
//! declare it (`names`); where a function stands, there is its member (`members`); each function of its members is one of the
//! text's, and its name has the number of its place (`functions`); the modules of its children stand before it (`children`);
//! no call lies on a cycle (`no_cycle`), a function that another one calls doesn't wait (`called`), nor does one that the
//! constructor registers as a method (`methods`), and the events of each `sensitive` are those of the text, with which nothing
//! is wrong (`events`). With or without breaches, each call that is noted of a function is one of its module's (`edges`), and
//! the scope of a function's statements is a part of its module's (`bodies`).
//!
//! At each number among the names of the file stands a module that is read behind so many names and without breaches, or none
//! (`modules`); the modules of the instances in `sc_main` are among these names (`instances`).
#![tactic(auto)]

pub mod law;
