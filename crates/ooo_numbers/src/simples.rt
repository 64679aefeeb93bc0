ghost use Rattle.std.specs.Prelude.{◌≡◌, ◌∷◌, ◌++◌, [], IfOk};
ghost use Rattle.std.specs.Option.{option_copied};
ghost use Rattle.ooo_numbers.specs.Names.{numbering_of};
ghost use Rattle.ooo_numbers.specs.Simples.{argument_of, assign_of, call_of, declarator_of, declarators_of, given_of, given_target};
ghost use Rattle.ooo_numbers.specs.Simples.{initial_of, item_of, items_of, line_of, lined_of, local_of, member_of};
ghost use Rattle.ooo_numbers.specs.Simples.{member_right, name_target, one, operator_of, place_of, right_of, simple_of, step_of};
ghost use Rattle.ooo_numbers.specs.Simples.{target_of, write_of};

use crate::exprs::{called, expr, exprs, nothing, time, wait};
use crate::names::{channel_of, function_of, own_event_of, variable_of};
use crate::numbers::Numbers;
use ooo_bound::{BoundExpr, BoundItem, BoundRight, BoundSimple, BoundTarget, LinedSimple};
use ooo_checked::{
    CheckedDeclarator, CheckedExpr, CheckedItem, CheckedLocal, CheckedSimple, CheckedTarget,
    Denotation, Method, Thing,
};
use ooo_constants::kind_written;
use ooo_syntax::{AssignOp, StepOp};
use ooo_value::{Kind, Name, Op, Value, narrow};
use sqlite_items::{Boxed, Items};
use std::alloc::{AllocError, Global};

// A name by itself, as what a value is put into.
fn name_target(numbers: Numbers<'_>, name: Denotation) -> Result<BoundTarget, AllocError>
    ensures { IfOk result (λ target. target ≡ name_target (numbering_of numbers.entry) name) }
{
    match name.thing {
        Thing::Variable(_) => Ok(BoundTarget::Variable(variable_of(numbers, name))),
        Thing::Parameter(kind) | Thing::Local(kind) => {
            Ok(BoundTarget::Local(kind, narrow(name.number)?))
        }
        Thing::Signal(_) | Thing::SignalPort(_, _) => {
            Ok(BoundTarget::Signal(channel_of(numbers, name)))
        }
        _ => Ok(BoundTarget::Nothing),
    }
}

// An element of an array.
fn element(
    alloc: Global,
    numbers: Numbers<'_>,
    name: Denotation,
    index: &CheckedExpr,
) -> Result<BoundTarget, AllocError>
    ensures { IfOk result (λ target.
        target ≡ place_of (numbering_of numbers.entry) name (Some index.now)) }
{
    let index = expr(alloc, numbers, index)?;
    Ok(BoundTarget::Element(variable_of(numbers, name), index))
}

// What is assigned to.
fn target(
    alloc: Global,
    numbers: Numbers<'_>,
    to: &CheckedTarget,
) -> Result<BoundTarget, AllocError>
    ensures { IfOk result (λ target. target ≡ target_of (numbering_of numbers.entry) to.now) }
{
    match &to.index {
        None => name_target(numbers, to.name.denotes),
        Some(index) => element(alloc, numbers, to.name.denotes, index),
    }
}

// What `nb_read` is given.
fn given(alloc: Global, numbers: Numbers<'_>, e: &CheckedExpr) -> Result<BoundTarget, AllocError>
    ensures { IfOk result (λ target. target ≡ given_of (numbering_of numbers.entry) e.now) }
{
    match e {
        CheckedExpr::Name(_, name) => name_target(numbers, name.denotes),
        CheckedExpr::Index(_, name, index) => element(alloc, numbers, name.denotes, index.get()),
        _ => Ok(BoundTarget::Nothing),
    }
}

// The argument of a call, if it has one.
fn argument_in(arg: &Option<CheckedExpr>) -> Option<&CheckedExpr>
    ensures { option_copied result ≡ arg.now }
{
    match arg {
        None => None,
        Some(e) => Some(e),
    }
}

// The same of an argument on the heap.
fn boxed_argument_in(arg: &Option<Boxed<CheckedExpr>>) -> Option<&CheckedExpr>
    ensures { option_copied result ≡ arg.now }
{
    match arg {
        None => None,
        Some(e) => Some(e.get()),
    }
}

// What `nb_read` is given, if it is.
fn given_target(
    alloc: Global,
    numbers: Numbers<'_>,
    arg: Option<&CheckedExpr>,
) -> Result<BoundTarget, AllocError>
    ensures { IfOk result (λ target.
        target ≡ given_target (numbering_of numbers.entry) (option_copied arg.entry)) }
{
    match arg {
        None => Ok(BoundTarget::Nothing),
        Some(e) => given(alloc, numbers, e),
    }
}

// The argument of a call of a channel, which has one.
fn argument(
    alloc: Global,
    numbers: Numbers<'_>,
    arg: Option<&CheckedExpr>,
) -> Result<BoundExpr, AllocError>
    ensures { IfOk result (λ tree.
        tree ≡ argument_of (numbering_of numbers.entry) (option_copied arg.entry)) }
{
    match arg {
        None => Ok(nothing()),
        Some(e) => expr(alloc, numbers, e),
    }
}

// A call of a channel or a port as a whole right side.
fn member_right(
    alloc: Global,
    numbers: Numbers<'_>,
    name: Denotation,
    method: Method,
    arg: Option<&CheckedExpr>,
) -> Result<BoundRight, AllocError>
    ensures { IfOk result (λ right. right
        ≡ member_right (numbering_of numbers.entry) name method (option_copied arg.entry)) }
{
    match method {
        Method::Read if name.thing.is_fifo() => Ok(BoundRight::Read(channel_of(numbers, name))),
        Method::NbRead => {
            let to = given_target(alloc, numbers, arg)?;
            Ok(BoundRight::NbRead(channel_of(numbers, name), to))
        }
        Method::NbWrite => {
            let value = argument(alloc, numbers, arg)?;
            Ok(BoundRight::NbWrite(channel_of(numbers, name), value))
        }
        _ => Ok(BoundRight::Value(called(numbers, name, method))),
    }
}

// The whole right side of an assignment or of an initial value.
fn right(alloc: Global, numbers: Numbers<'_>, e: &CheckedExpr) -> Result<BoundRight, AllocError>
    ensures { IfOk result (λ right. right ≡ right_of (numbering_of numbers.entry) e.now) }
{
    match e {
        CheckedExpr::Call(_, name, args) => call(alloc, numbers, name.denotes, args),
        CheckedExpr::Member(_, name, _, method, arg) => {
            member_right(
                alloc,
                numbers,
                name.denotes,
                *method,
                boxed_argument_in(arg),
            )
        }
        _ => {
            let value = expr(alloc, numbers, e)?;
            Ok(BoundRight::Value(value))
        }
    }
}

// A call of a function.
fn call(
    alloc: Global,
    numbers: Numbers<'_>,
    name: Denotation,
    args: &Items<CheckedExpr>,
) -> Result<BoundRight, AllocError>
    ensures { IfOk result (λ right. right ≡ call_of (numbering_of numbers.entry) name args.now) }
{
    let args = exprs(alloc, numbers, args.as_slice())?;
    Ok(BoundRight::Call(function_of(numbers, name), args))
}

// The operator of `a op= b`; `=` has none.
fn operator_of(op: AssignOp) -> Option<Op>
    ensures { result ≡ operator_of op }
{
    match op {
        AssignOp::Set => None,
        AssignOp::Add => Some(Op::Add),
        AssignOp::Subtract => Some(Op::Subtract),
        AssignOp::Multiply => Some(Op::Multiply),
        AssignOp::Divide => Some(Op::Divide),
        AssignOp::Remainder => Some(Op::Remainder),
        AssignOp::And => Some(Op::BitAnd),
        AssignOp::Or => Some(Op::BitOr),
        AssignOp::Xor => Some(Op::BitXor),
        AssignOp::ShiftLeft => Some(Op::ShiftLeft),
        AssignOp::ShiftRight => Some(Op::ShiftRight),
    }
}

// What is assigned to, on the heap.
fn boxed_target(
    alloc: Global,
    numbers: Numbers<'_>,
    to: &CheckedTarget,
) -> Result<Boxed<BoundTarget>, AllocError>
    ensures { IfOk result (λ target. target ≡ target_of (numbering_of numbers.entry) to.now) }
{
    let to = target(alloc, numbers, to)?;
    Boxed::new(alloc, to)
}

// An assignment.
fn assign(
    alloc: Global,
    numbers: Numbers<'_>,
    to: &CheckedTarget,
    op: AssignOp,
    e: &CheckedExpr,
) -> Result<BoundSimple, AllocError>
    ensures { IfOk result (λ simple. simple ≡ assign_of (numbering_of numbers.entry)
        (target_of (numbering_of numbers.entry) to.now) (operator_of op) e.now) }
{
    let to = boxed_target(alloc, numbers, to)?;
    match operator_of(op) {
        None => {
            let value = right(alloc, numbers, e)?;
            Ok(BoundSimple::Assign(to.into_inner(), value))
        }
        Some(op) => {
            let value = expr(alloc, numbers, e)?;
            Ok(BoundSimple::Update(to.into_inner(), op, value))
        }
    }
}

// An `int` of 1.
fn one() -> BoundExpr
    ensures { result ≡ one }
{
    BoundExpr::Constant(Value::Int(1))
}

// `++` and `--`
fn step(
    alloc: Global,
    numbers: Numbers<'_>,
    to: &CheckedTarget,
    op: StepOp,
) -> Result<BoundSimple, AllocError>
    ensures { IfOk result (λ simple. simple ≡ step_of (numbering_of numbers.entry) to.now op) }
{
    let to = target(alloc, numbers, to)?;
    match op {
        StepOp::Up => Ok(BoundSimple::Update(to, Op::Add, one())),
        StepOp::Down => Ok(BoundSimple::Update(to, Op::Subtract, one())),
    }
}

// `write` as a statement.
fn write(
    alloc: Global,
    numbers: Numbers<'_>,
    name: Denotation,
    arg: Option<&CheckedExpr>,
) -> Result<BoundSimple, AllocError>
    ensures { IfOk result (λ simple. simple
        ≡ write_of (numbering_of numbers.entry) name (option_copied arg.entry)) }
{
    let value = argument(alloc, numbers, arg)?;
    let channel = channel_of(numbers, name);
    if name.thing.is_fifo() {
        Ok(BoundSimple::Write(channel, value))
    } else {
        Ok(BoundSimple::Assign(BoundTarget::Signal(channel), BoundRight::Value(value)))
    }
}

// A call of a channel or a port as a statement.
fn member(
    alloc: Global,
    numbers: Numbers<'_>,
    name: Denotation,
    method: Method,
    arg: &Option<CheckedExpr>,
) -> Result<BoundSimple, AllocError>
    ensures { IfOk result (λ simple. simple
        ≡ member_of (numbering_of numbers.entry) name method arg.now) }
{
    match method {
        Method::Write => write(alloc, numbers, name, argument_in(arg)),
        _ => {
            let value = member_right(alloc, numbers, name, method, argument_in(arg))?;
            Ok(BoundSimple::Assign(BoundTarget::Nothing, value))
        }
    }
}

// A text of these bytes.
fn text(alloc: Global, bytes: &[u8]) -> Result<Name, AllocError>
    ensures { IfOk result (λ text. text ≡ bytes.now) }
{
    Ok(Name::from_bytes(Vec::from_slice(alloc, bytes)?))
}

// What a print writes.
fn item(alloc: Global, numbers: Numbers<'_>, item: &CheckedItem) -> Result<BoundItem, AllocError>
    ensures { IfOk result (λ part. part ≡ item_of (numbering_of numbers.entry) item.now) }
{
    match item {
        CheckedItem::Value(e) => {
            let value = expr(alloc, numbers, e)?;
            Ok(BoundItem::Value(value))
        }
        CheckedItem::Text(written) => Ok(BoundItem::Text(text(alloc, written.value.as_bytes())?)),
        CheckedItem::Line(_) => Ok(BoundItem::Text(text(alloc, b"\n")?)),
        CheckedItem::TimeStamp(_) => Ok(BoundItem::Time),
    }
}

// The items of a print.
fn items(
    alloc: Global,
    numbers: Numbers<'_>,
    given: &[CheckedItem],
) -> Result<Items<BoundItem>, AllocError>
    ensures { IfOk result (λ all. all ≡ items_of (numbering_of numbers.entry) given.now) }
{
    let mut all = Items::new(alloc);
    'parts: for part in given {
        all.push(item(alloc, numbers, part)?)?;
    }
    Ok(all)
}

// A statement without statements in it.
fn simple(
    alloc: Global,
    numbers: Numbers<'_>,
    statement: &CheckedSimple,
) -> Result<BoundSimple, AllocError>
    ensures { IfOk result (λ simple. simple
        ≡ simple_of (numbering_of numbers.entry) statement.now) }
{
    match statement {
        CheckedSimple::Assign(to, op, e) => assign(alloc, numbers, to, *op, e),
        CheckedSimple::StepAfter(to, op) | CheckedSimple::StepBefore(_, op, to) => {
            step(alloc, numbers, to, *op)
        }
        CheckedSimple::Call(name, args) => {
            let value = call(alloc, numbers, name.denotes, args)?;
            Ok(BoundSimple::Assign(BoundTarget::Nothing, value))
        }
        CheckedSimple::Member(name, _, method, arg) => {
            member(alloc, numbers, name.denotes, *method, arg)
        }
        CheckedSimple::Notify(name, _, delay) => {
            let delay = time(alloc, numbers, delay)?;
            Ok(BoundSimple::Notify(own_event_of(numbers, name.denotes), delay))
        }
        CheckedSimple::Cancel(name, _) => {
            Ok(BoundSimple::Cancel(own_event_of(numbers, name.denotes)))
        }
        CheckedSimple::Wait(_, what) => {
            let what = wait(alloc, numbers, what)?;
            Ok(BoundSimple::Wait(what))
        }
        CheckedSimple::NextTrigger(_, what) => {
            let what = wait(alloc, numbers, what)?;
            Ok(BoundSimple::NextTrigger(what))
        }
        CheckedSimple::Stop(_) => Ok(BoundSimple::Stop),
        CheckedSimple::Print(_, parts) => {
            let parts = items(alloc, numbers, parts.as_slice())?;
            Ok(BoundSimple::Print(parts))
        }
    }
}

// The line of a simple statement's first token.
fn line(statement: &CheckedSimple) -> u32
    ensures { result ≡ line_of statement.now }
{
    match statement {
        CheckedSimple::Assign(to, _, _) | CheckedSimple::StepAfter(to, _) => {
            to.name.word.position.line
        }
        CheckedSimple::Call(name, _)
        | CheckedSimple::Member(name, _, _, _)
        | CheckedSimple::Notify(name, _, _)
        | CheckedSimple::Cancel(name, _) => name.word.position.line,
        CheckedSimple::StepBefore(at, _, _)
        | CheckedSimple::Wait(at, _)
        | CheckedSimple::NextTrigger(at, _)
        | CheckedSimple::Stop(at)
        | CheckedSimple::Print(at, _) => at.line,
    }
}

/// A simple statement with its line.
pub(crate) fn lined(
    alloc: Global,
    numbers: Numbers<'_>,
    statement: &CheckedSimple,
) -> Result<LinedSimple, AllocError>
    ensures { IfOk result (λ lined. lined ≡ lined_of (numbering_of numbers.entry) statement.now) }
{
    let simple = simple(alloc, numbers, statement)?;
    Ok(LinedSimple {
        line: line(statement),
        simple,
    })
}

fn boxed(alloc: Global, lined: LinedSimple) -> Result<Boxed<LinedSimple>, AllocError>
    ensures { IfOk result (λ boxed. boxed ≡ lined) }
{
    Boxed::new(alloc, lined)
}

/// A simple statement with its line, on the heap.
pub(crate) fn boxed_lined(
    alloc: Global,
    numbers: Numbers<'_>,
    statement: &CheckedSimple,
) -> Result<Boxed<LinedSimple>, AllocError>
    ensures { IfOk result (λ lined. lined ≡ lined_of (numbering_of numbers.entry) statement.now) }
{
    let lined = lined(alloc, numbers, statement)?;
    boxed(alloc, lined)
}

// The initial value of a local: 0 where none is given.
fn initial(
    alloc: Global,
    numbers: Numbers<'_>,
    kind: Kind,
    value: &Option<CheckedExpr>,
) -> Result<BoundRight, AllocError>
    ensures { IfOk result
        (λ right. right ≡ initial_of (numbering_of numbers.entry) kind value.now) }
{
    match value {
        None => Ok(BoundRight::Value(BoundExpr::Constant(kind.zero()))),
        Some(e) => right(alloc, numbers, e),
    }
}

/// A declarator of this kind and line, which is put into its slot.
pub(crate) fn declarator(
    alloc: Global,
    numbers: Numbers<'_>,
    kind: Kind,
    line: u32,
    declared: &CheckedDeclarator,
) -> Result<LinedSimple, AllocError>
    ensures { IfOk result (λ lined. lined
        ≡ declarator_of (numbering_of numbers.entry) kind line declared.now) }
{
    let slot = narrow(declared.name.denotes.number)?;
    let value = initial(alloc, numbers, kind, &declared.value)?;
    Ok(LinedSimple {
        line,
        simple: BoundSimple::Assign(BoundTarget::Local(kind, slot), value),
    })
}

/// The same on the heap.
pub(crate) fn boxed_declarator(
    alloc: Global,
    numbers: Numbers<'_>,
    kind: Kind,
    line: u32,
    declared: &CheckedDeclarator,
) -> Result<Boxed<LinedSimple>, AllocError>
    ensures { IfOk result (λ lined. lined
        ≡ declarator_of (numbering_of numbers.entry) kind line declared.now) }
{
    let lined = declarator(alloc, numbers, kind, line, declared)?;
    boxed(alloc, lined)
}

/// Statements and one more.
pub(crate) fn with(
    mut list: Items<LinedSimple>,
    more: LinedSimple,
) -> Result<Items<LinedSimple>, AllocError>
    ensures { IfOk result (λ all. all ≡ list ++ more ∷ []) }
{
    keeping!(list; list.push(more));
    Ok(list)
}

// Declarators one after the other.
fn declarators(
    alloc: Global,
    numbers: Numbers<'_>,
    kind: Kind,
    line: u32,
    names: &[CheckedDeclarator],
) -> Result<Items<LinedSimple>, AllocError>
    ensures { IfOk result (λ all. all
        ≡ declarators_of (numbering_of numbers.entry) kind line names.now) }
{
    let mut all = Items::new(alloc);
    'parts: for part in names {
        let lined = keeping!(all; declarator(alloc, numbers, kind, line, part));
        all = with(all, lined)?;
    }
    Ok(all)
}

/// A declaration of locals, whose line is that of its type's first word.
pub(crate) fn local(
    alloc: Global,
    numbers: Numbers<'_>,
    given: &CheckedLocal,
) -> Result<Items<LinedSimple>, AllocError>
    ensures { IfOk result (λ all. all ≡ local_of (numbering_of numbers.entry) given.now) }
{
    let kind = kind_written(given.form.form);
    declarators(
        alloc,
        numbers,
        kind,
        given.form.position.line,
        given.names.as_slice(),
    )
}
