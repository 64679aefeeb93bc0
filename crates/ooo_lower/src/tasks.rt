use crate::simples::Spot;
use ooo_bound::{BoundExpr, BoundStat, BoundTarget, LinedSimple};
use ooo_value::Kind;
use sqlite_items::Boxed;

/// What a test looks at: an expression, or nothing where it is always true.
#[derive(Clone, Copy)]
pub(crate) enum Test<'a> {
    Of(&'a BoundExpr),
    Always,
}

/// A loop: its test, what follows each turn, and its body.
#[derive(Clone, Copy)]
pub(crate) struct Loop<'a> {
    pub(crate) test: Test<'a>,
    pub(crate) after: &'a Option<Boxed<LinedSimple>>,
    pub(crate) body: &'a BoundStat,
}

/// A part of the code.
#[derive(Clone, Copy)]
pub(crate) enum Part<'a> {
    /// The statements of a body.
    Body(&'a [BoundStat]),
    /// A statement.
    Stat(&'a BoundStat),
    /// Statements without statements in them.
    Simples(&'a [LinedSimple]),
    /// A statement without statements in it.
    Simple(&'a LinedSimple),
    /// The way past what follows each turn of a loop.
    Pass,
    /// A test, where it leads where its value is false, and where else.
    Test(Test<'a>, u32, u32),
    /// The way of what a call gives: its target, and the kind and the slot of the function's result.
    Leave(&'a BoundTarget, Option<Kind>, u32),
}

/// A part that is still to be put, and where its nodes go.
#[derive(Clone, Copy)]
pub(crate) struct Task<'a> {
    pub(crate) part: Part<'a>,
    pub(crate) spot: Spot,
}
