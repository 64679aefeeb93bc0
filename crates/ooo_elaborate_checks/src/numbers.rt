//! One small body with ample memory.

use ooo_bound::{BoundExpr, BoundRight, BoundSimple, BoundStat, BoundTarget, BoundTime};
use ooo_checked::{
    CheckedAwaited, CheckedDeclarator, CheckedExpr, CheckedLocal, CheckedSimple, CheckedStat,
    CheckedTarget, CheckedTime, Denotation, Direction, Method, Resolved, Thing,
};
use ooo_constants::Meaning;
use ooo_lexer::Position;
use ooo_numbers::{Numbers, stats};
use ooo_syntax::{AssignOp, Number, TypeForm, TypeName, Word};
use ooo_time::{Scale, Time};
use ooo_value::{Kind, Name, Op, Value};
use sqlite_items::{Boxed, Items};
use std::alloc::{AllocError, Global};
use std::test::Fail;

// A port that is bound to the channel 5, and a variable.
static MEMBERS: [Meaning; 2] = [Meaning::Port(0), Meaning::Variable(7)];

static PORTS: [Option<u32>; 1] = [Some(5)];

fn at(line: u32) -> Position {
    Position { line, column: 5 }
}

fn word(alloc: Global, line: u32) -> Result<Word, AllocError> {
    Ok(Word {
        name: Name::new(alloc, "x")?,
        position: at(line),
    })
}

fn resolved(alloc: Global, line: u32, thing: Thing, number: usize) -> Result<Resolved, AllocError> {
    Ok(Resolved {
        word: word(alloc, line)?,
        denotes: Denotation { thing, number },
    })
}

fn number(line: u32, value: Value) -> CheckedExpr {
    let number = Number {
        value,
        position: at(line),
    };
    CheckedExpr::Number(value.kind(), number)
}

// int x = 8;
fn declaration(alloc: Global) -> Result<CheckedStat, AllocError> {
    let mut names = Items::new(alloc);
    names.push(CheckedDeclarator {
        name: resolved(alloc, 2, Thing::Local(Kind::Int), 3)?,
        value: Some(number(2, Value::Int(8))),
    })?;
    let form = TypeName {
        form: TypeForm::Int,
        position: at(2),
    };
    let local = Boxed::new(alloc, CheckedLocal { form, names })?;
    Ok(CheckedStat::Local(local))
}

// x -= 1; of a variable
fn update(alloc: Global) -> Result<CheckedStat, AllocError> {
    let to = CheckedTarget {
        name: resolved(alloc, 3, Thing::Variable(Kind::Int), 1)?,
        index: None,
    };
    let value = number(3, Value::Int(1));
    let assigned = CheckedSimple::Assign(to, AssignOp::Subtract, value);
    Ok(CheckedStat::Simple(Boxed::new(alloc, assigned)?))
}

// while (p.negedge()) wait(10, SC_NS);
fn loop_on_edge(alloc: Global) -> Result<CheckedStat, AllocError> {
    match (edge(alloc), waiting(alloc)) {
        (Ok(test), Ok(body)) => Ok(CheckedStat::While(at(4), test, body)),
        _ => Err(AllocError),
    }
}

// p.negedge()
fn edge(alloc: Global) -> Result<Boxed<CheckedExpr>, AllocError> {
    let method = word(alloc, 4)?;
    let port = Thing::SignalPort(Direction::In, Kind::Bool);
    let name = resolved(alloc, 4, port, 0)?;
    let test = CheckedExpr::Member(Kind::Bool, name, method, Method::Negedge, None);
    Boxed::new(alloc, test)
}

// wait(10, SC_NS);
fn waiting(alloc: Global) -> Result<Boxed<CheckedStat>, AllocError> {
    let delay = CheckedTime::Amount(number(5, Value::Int(10)), Scale::Ns);
    let wait = CheckedSimple::Wait(at(5), CheckedAwaited::Delay(delay));
    let wait = Boxed::new(alloc, wait)?;
    Boxed::new(alloc, CheckedStat::Simple(wait))
}

// The three statements.
fn body(alloc: Global) -> Result<Items<CheckedStat>, AllocError> {
    let mut body = Items::new(alloc);
    body.push(declaration(alloc)?)?;
    body.push(update(alloc)?)?;
    body.push(loop_on_edge(alloc)?)?;
    Ok(body)
}

#[test]
fn names_become_numbers(rt: HostRuntime) -> Result<(), Fail> {
    let numbers = Numbers {
        file: &[],
        members: &MEMBERS,
        ports: &PORTS,
        events: &[],
    };
    let body = body(rt.alloc())?;
    let all = stats(rt.alloc(), numbers, body.as_slice())?;
    assert_eq!(rt; all.len(), 3);
    assert!(rt; is_declaration(all.get(0)));
    assert!(rt; is_update(all.get(1)));
    assert!(rt; is_loop(all.get(2)));
    Ok(())
}

// A statement of this line.
fn of_line(statement: Option<&BoundStat>, line: u32) -> Option<&BoundSimple> {
    let statement = statement?;
    match statement {
        BoundStat::Simple(lined) if lined.get().line == line => Some(&lined.get().simple),
        _ => None,
    }
}

fn is_declaration(statement: Option<&BoundStat>) -> bool {
    let Some(statement) = statement else {
        return false;
    };
    match statement {
        BoundStat::Block(parts) => match of_line(parts.get(0), 2) {
            Some(simple) => puts_eight(simple),
            None => false,
        },
        _ => false,
    }
}

fn puts_eight(simple: &BoundSimple) -> bool {
    match simple {
        BoundSimple::Assign(to, value) => is_slot(to) && is_value(value, Value::Int(8)),
        _ => false,
    }
}

fn is_slot(to: &BoundTarget) -> bool {
    match to {
        BoundTarget::Local(kind, slot) => *kind == Kind::Int && *slot == 3,
        _ => false,
    }
}

fn is_value(right: &BoundRight, value: Value) -> bool {
    match right {
        BoundRight::Value(e) => is_constant(e, value),
        _ => false,
    }
}

fn is_constant(e: &BoundExpr, value: Value) -> bool {
    match e {
        BoundExpr::Constant(given) => *given == value,
        _ => false,
    }
}

fn is_update(statement: Option<&BoundStat>) -> bool {
    match of_line(statement, 3) {
        Some(simple) => subtracts_one(simple),
        None => false,
    }
}

fn subtracts_one(simple: &BoundSimple) -> bool {
    match simple {
        BoundSimple::Update(to, op, e) => {
            is_variable(to) && *op == Op::Subtract && is_constant(e, Value::Int(1))
        }
        _ => false,
    }
}

fn is_variable(to: &BoundTarget) -> bool {
    match to {
        BoundTarget::Variable(variable) => *variable == 7,
        _ => false,
    }
}

fn is_loop(statement: Option<&BoundStat>) -> bool {
    let Some(statement) = statement else {
        return false;
    };
    match statement {
        BoundStat::While(line, test, body) => {
            *line == 4 && is_edge(test.get()) && waits(of_line(Some(body.get()), 5))
        }
        _ => false,
    }
}

fn is_edge(test: &BoundExpr) -> bool {
    match test {
        BoundExpr::Edge(channel, is_rise) => *channel == 5 && !*is_rise,
        _ => false,
    }
}

fn waits(simple: Option<&BoundSimple>) -> bool {
    let Some(simple) = simple else {
        return false;
    };
    match simple {
        BoundSimple::Wait(wait) => is_ten(&wait.time) && wait.events.is_empty(),
        _ => false,
    }
}

fn is_ten(time: &Option<BoundTime>) -> bool {
    let Some(time) = time else {
        return false;
    };
    match time {
        BoundTime::Fixed(time) => *time == Time(10_000),
        BoundTime::Amount(_, _) => false,
    }
}
