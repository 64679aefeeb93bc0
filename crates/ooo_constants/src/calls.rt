ghost use Rattle.std.specs.Prelude.{◌≡◌, [], ◌∷◌, ◌++◌, OnOk};
ghost use Rattle.ooo_constants.specs.Bodies.{body_calls, declarator_calls, else_calls, initial_calls, right_calls};
ghost use Rattle.ooo_constants.specs.Bodies.{simple_calls, start_calls, stat_calls, step_calls};

use crate::bare::bare;
use ooo_checked::{CheckedDeclarator, CheckedExpr, CheckedSimple, CheckedStart, CheckedStat};
use sqlite_items::Boxed;
use std::alloc::AllocError;

/// Adds the numbers of the functions that a body calls, in the order of the text.
///
/// # Errors
///
/// Only where memory runs out; some are added then.
pub fn add_calls(body: &[CheckedStat], calls: &mut Vec<usize>) -> Result<(), AllocError>
    ensures { OnOk result (calls.new.items ≡ calls.old.items ++ body_calls body.now) }
{
    add_stats(bare(body), calls)
}

// Adds those of statements one after the other.
#[cycle(calls)]
fn add_stats(body: &[CheckedStat], calls: &mut Vec<usize>) -> Result<(), AllocError>
    ensures { OnOk result (calls.new.items ≡ calls.old.items ++ body_calls body.now) }
{
    'parts: for statement in body {
        add_stat(statement, calls)?;
    }
    Ok(())
}

// Adds those of a statement.
#[cycle(calls)]
#[tactic(auto, unfolding(crate::specs::Bodies::stat_calls))]
fn add_stat(statement: &CheckedStat, calls: &mut Vec<usize>) -> Result<(), AllocError>
    ensures { OnOk result (calls.new.items ≡ calls.old.items ++ stat_calls statement.now) }
{
    match statement {
        CheckedStat::Block(_, body) => add_stats(body.as_slice(), calls),
        CheckedStat::Local(local) => add_declarators(local.get().names.as_slice(), calls),
        CheckedStat::Simple(statement) => add_simple(statement.get(), calls),
        CheckedStat::If(_, _, yes, no) => {
            add_stat(yes.get(), calls)?;
            add_else(no, calls)
        }
        CheckedStat::While(_, _, body) | CheckedStat::Do(_, body, _) => add_stat(body.get(), calls),
        CheckedStat::For(_, begins, _, after, body) => {
            add_start(begins, calls)?;
            add_step(after, calls)?;
            add_stat(body.get(), calls)
        }
        CheckedStat::Empty(_)
        | CheckedStat::Break(_)
        | CheckedStat::Continue(_)
        | CheckedStat::Return(_, _) => Ok(()),
    }
}

// Adds those of the statement after `else`, if there is one.
#[cycle(calls)]
fn add_else(no: &Option<Boxed<CheckedStat>>, calls: &mut Vec<usize>) -> Result<(), AllocError>
    ensures { OnOk result (calls.new.items ≡ calls.old.items ++ else_calls no.now) }
{
    match no {
        None => Ok(()),
        Some(statement) => add_stat(statement.get(), calls),
    }
}

// Adds those of what a `for` begins with.
fn add_start(begins: &Option<Boxed<CheckedStart>>, calls: &mut Vec<usize>) -> Result<(), AllocError>
    ensures { OnOk result (calls.new.items ≡ calls.old.items ++ start_calls begins.now) }
{
    match begins {
        None => Ok(()),
        Some(begins) => match begins.get() {
            CheckedStart::Local(local) => add_declarators(local.names.as_slice(), calls),
            CheckedStart::Simple(statement) => add_simple(statement, calls),
        },
    }
}

// Adds those of what a `for` does after each turn.
fn add_step(after: &Option<Boxed<CheckedSimple>>, calls: &mut Vec<usize>) -> Result<(), AllocError>
    ensures { OnOk result (calls.new.items ≡ calls.old.items ++ step_calls after.now) }
{
    match after {
        None => Ok(()),
        Some(statement) => add_simple(statement.get(), calls),
    }
}

// Adds those of a simple statement.
fn add_simple(statement: &CheckedSimple, calls: &mut Vec<usize>) -> Result<(), AllocError>
    ensures { OnOk result (calls.new.items ≡ calls.old.items ++ simple_calls statement.now) }
{
    match statement {
        CheckedSimple::Assign(_, _, value) => add_right(value, calls),
        CheckedSimple::Call(name, _) => add(name.denotes.number, calls),
        _ => Ok(()),
    }
}

// Adds those of declarators one after the other.
fn add_declarators(names: &[CheckedDeclarator], calls: &mut Vec<usize>) -> Result<(), AllocError>
    ensures { OnOk result (calls.new.items ≡ calls.old.items ++ declarator_calls names.now) }
{
    'parts: for declared in names {
        add_initial(&declared.value, calls)?;
    }
    Ok(())
}

// Adds that of an initial value, if there is one.
fn add_initial(value: &Option<CheckedExpr>, calls: &mut Vec<usize>) -> Result<(), AllocError>
    ensures { OnOk result (calls.new.items ≡ calls.old.items ++ initial_calls value.now) }
{
    match value {
        None => Ok(()),
        Some(value) => add_right(value, calls),
    }
}

// Adds that of a whole right side, if it is a call.
fn add_right(value: &CheckedExpr, calls: &mut Vec<usize>) -> Result<(), AllocError>
    ensures { OnOk result (calls.new.items ≡ calls.old.items ++ right_calls value.now) }
{
    match value {
        CheckedExpr::Call(_, name, _) => add(name.denotes.number, calls),
        _ => Ok(()),
    }
}

// Adds one.
fn add(number: usize, calls: &mut Vec<usize>) -> Result<(), AllocError>
    ensures { OnOk result (calls.new.items ≡ calls.old.items ++ number ∷ []) }
{
    calls.push(number)?;
    Ok(())
}
