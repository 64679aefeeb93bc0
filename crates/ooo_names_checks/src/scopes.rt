//! Small tables of blocks and names, each step by hand.

use ooo_checked::{Denotation, Thing};
use ooo_scopes::Scopes;
use std::alloc::{AllocError, Global};
use std::process::Abort;
use std::test::Fail;

const NOTHING: Denotation = Denotation {
    thing: Thing::Nothing,
    number: 0,
};

const EVENT: Denotation = Denotation {
    thing: Thing::Event,
    number: 3,
};

const CLOCK: Denotation = Denotation {
    thing: Thing::Clock,
    number: 0,
};

const INSTANCE: Denotation = Denotation {
    thing: Thing::Instance(2),
    number: 1,
};

// What is done to a table of blocks, or looked at in it.
#[derive(Clone, Copy)]
enum Step {
    Enter,
    Leave,
    Declare(&'static str, Denotation),
    // The name denotes this.
    Denotes(&'static str, Denotation),
    // Whether the innermost block declares the name.
    Here(&'static str, bool),
    // The blocks declare so many names.
    Size(usize),
}

fn check(rt: &impl Abort, alloc: Global, steps: &[Step]) -> Result<(), AllocError> {
    let mut scopes = Scopes::new(alloc);
    for (n, step) in steps.iter().enumerate() {
        take(rt, &mut scopes, n, *step)?;
    }
    Ok(())
}

fn take(rt: &impl Abort, scopes: &mut Scopes, n: usize, step: Step) -> Result<(), AllocError> {
    match step {
        Step::Enter => scopes.enter(),
        Step::Declare(name, denotes) => scopes.declare(name.as_bytes(), denotes),
        Step::Leave => {
            scopes.leave();
            Ok(())
        }
        other => {
            look(rt, scopes, n, other);
            Ok(())
        }
    }
}

fn look(rt: &impl Abort, scopes: &Scopes, n: usize, step: Step) {
    match step {
        Step::Denotes(name, wanted) => {
            assert_eq!(rt; scopes.denotes(name.as_bytes()), wanted, "step {n}");
        }
        Step::Here(name, wanted) => {
            assert_eq!(rt;
                scopes.is_declared_here(name.as_bytes()),
                wanted,
                "step {n}"
            );
        }
        Step::Size(wanted) => assert_eq!(rt; scopes.size(), wanted, "step {n}"),
        _ => {}
    }
}

static AN_INNER_BLOCK: [Step; 22] = [
    Step::Denotes("top", NOTHING),
    Step::Enter,
    Step::Declare("top", EVENT),
    Step::Declare("to", CLOCK),
    Step::Enter,
    Step::Denotes("top", EVENT),
    Step::Here("top", false),
    Step::Declare("top", INSTANCE),
    Step::Denotes("top", INSTANCE),
    Step::Denotes("to", CLOCK),
    Step::Denotes("topmost", NOTHING),
    Step::Here("top", true),
    Step::Here("to", false),
    Step::Size(3),
    Step::Leave,
    Step::Denotes("top", EVENT),
    Step::Here("to", true),
    Step::Size(2),
    Step::Leave,
    Step::Denotes("top", NOTHING),
    Step::Here("to", false),
    Step::Size(0),
];

#[test]
fn an_inner_block_hides_what_an_outer_one_declares(rt: HostRuntime) -> Result<(), Fail> {
    check(&rt, rt.alloc(), &AN_INNER_BLOCK)?;
    Ok(())
}

static A_NAME_DECLARED_TWICE: [Step; 12] = [
    Step::Enter,
    Step::Declare("twice", EVENT),
    Step::Enter,
    Step::Declare("twice", CLOCK),
    Step::Declare("", INSTANCE),
    Step::Declare("twice", INSTANCE),
    Step::Denotes("twice", INSTANCE),
    Step::Denotes("", INSTANCE),
    Step::Size(4),
    Step::Leave,
    Step::Denotes("twice", EVENT),
    Step::Denotes("", NOTHING),
];

#[test]
fn the_latest_declaration_of_a_block_counts(rt: HostRuntime) -> Result<(), Fail> {
    check(&rt, rt.alloc(), &A_NAME_DECLARED_TWICE)?;
    Ok(())
}

static OUTSIDE_OF_ALL_BLOCKS: [Step; 8] = [
    Step::Leave,
    Step::Here("loose", false),
    Step::Declare("loose", CLOCK),
    Step::Here("loose", true),
    Step::Size(1),
    Step::Leave,
    Step::Leave,
    Step::Denotes("loose", NOTHING),
];

#[test]
fn outside_of_all_blocks_a_declaration_begins_one(rt: HostRuntime) -> Result<(), Fail> {
    check(&rt, rt.alloc(), &OUTSIDE_OF_ALL_BLOCKS)?;
    Ok(())
}
