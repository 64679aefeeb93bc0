//! Laws of texts without breaches. Each function does nothing, and its contract is the law.

ghost use Rattle.ooo_sound_text.specs.Calls.{CallsAreOfScope};
ghost use Rattle.ooo_sound_text.specs.Files.{InstancesAreFiled, ModulesAreRead};
ghost use Rattle.ooo_sound_text.specs.Names.{ChildrenStandBefore, FunctionsAreOfText, FunctionsAreThere, NamesStand};
ghost use Rattle.ooo_sound_text.specs.Parts.{BodiesAreInside, EventsAreOfText};
ghost use Rattle.ooo_sound_text.specs.Waiting.{CalledDontWait, CallsAreEdges, MethodsDontWait, NoCallOnCycle};

/// Each function that a body without breaches calls is one of its scope's.
pub fn calls()
    ensures { CallsAreOfScope }
{}

/// Each name of a module's scope stands where its members declare it.
pub fn names()
    ensures { NamesStand }
{}

/// Where a function stands among the things that members declare, there is its member.
pub fn members()
    ensures { FunctionsAreThere }
{}

/// Each function of a module's members is one of the text's, and its name has the number of its place.
pub fn functions()
    ensures { FunctionsAreOfText }
{}

/// The modules of a module's children stand before it in the file.
pub fn children()
    ensures { ChildrenStandBefore }
{}

/// Each call that is noted of a function is one of its module's.
pub fn edges()
    ensures { CallsAreEdges }
{}

/// No call of a module lies on a cycle.
pub fn no_cycle()
    ensures { NoCallOnCycle }
{}

/// A function that another one calls doesn't wait.
pub fn called()
    ensures { CalledDontWait }
{}

/// A function that the constructor registers as a method doesn't wait.
pub fn methods()
    ensures { MethodsDontWait }
{}

/// In the scope of a function's statements each name means what it means in the module, or is a parameter.
pub fn bodies()
    ensures { BodiesAreInside }
{}

/// The events of each `sensitive` of a module's constructor are those of the text, with which nothing is wrong.
pub fn events()
    ensures { EventsAreOfText }
{}

/// At each number of a text stands a module that is read behind so many names, or none.
pub fn modules()
    ensures { ModulesAreRead }
{}

/// The modules of the instances in `sc_main` are among the names of the file.
pub fn instances()
    ensures { InstancesAreFiled }
{}
