//! The bound models that elaboration gives are sound (`ooo_activation`, `specs/Sound`), by what is asked of their texts. It has
//! definitions and laws, and no running code.
//!
//! What is asked of a text is the record `FitsUnit` (`specs/Texts`), which speaks of the text alone: of the scopes, the notes,
//! the calls and the order of its modules. That a text without breaches of names and types has it is proved above, in
//! ooo_sound. Proved, in module `law`: so the model of a text is sound (`sound_by_parts`). Of each text that has a model, too,
//! as a report needs it: the stop time, where there is one, is at most the greatest time (`stops`), and each process and each
//! channel has a name (`named`). And whatever holds of the functions whose calls are noted of a body without breaches, holds of
//! each function that it calls, as a whole right side or as a statement (`noted`).
//!
//! `sound_by_parts` is proved from these, whose statements are in `specs/`:
//!
//! - A body without breaches, with numbers in place of names, fits the model where its names mean in it what they denote in the
//!   text (`Naming`), and so do the events of `sensitive` (`Fitting`); the calls that are noted of it are those that it makes
//!   (`Written`).
//! - A model that is given is what the walk, the bindings and the numbered functions make, with nothing refused; its variables,
//!   channels and events are right, and the bodies of each instance find the events of each channel (`Parts`). The channel to
//!   which a port is bound in the end is of the kind and type that the port needs (`Ports`). The names of functions that the
//!   processes of an instance reach mean functions of the model (`Numbering`). The process of each clock fits (`Clocks`).
//! - So the bodies of each instance fit, where those of the text's modules are right; each process is registered by its
//!   module's constructor, and each port is bound to a channel in the end (`Bodies`, `Whole`).
//! - The names that a process reaches are all that its code calls, and a measure falls along each call, where no call of a
//!   module lies on a cycle (`Calls`). Where a measure falls so, the functions of the model are ranked, by ranks below their
//!   number (`Ranks`).
//! - Where no channel is refused, each signal has one writer and each end of a fifo one holder (IEEE 1666-2011, 6.4 and 6.23),
//!   given that the names which a process reaches are all that its code calls; and where all bodies fit, no process holds an
//!   end of a channel that isn't there (`Ends`).
#![tactic(auto)]

pub mod law;
