ghost use Rattle.std.specs.Prelude.{◌≡◌, ◌+◌, ℕ, IfOk, None, OnOk, Some};
ghost use Rattle.ooo_layout.specs.Extents.{IsKnown, else_shape};
ghost use Rattle.ooo_lower.specs.Tasks.{Divides, Splits, at_spot, left_of, looped_shape, part_shape, tested};
ghost use Rattle.ooo_lower.specs.Tasks.{turn_shape};
ghost use Rattle.ooo_shapes.specs.Shapes.{body_shape, callees_within, do_shape, if_shape, inside, lined_shape};
ghost use Rattle.ooo_shapes.specs.Shapes.{lined_shapes, loop_shape, shape_of, test_or_true, then};
ghost use Rattle.ooo_shapes.specs.Simples.{Home};

use crate::simples::{Site, Spot, begins};
use crate::tasks::{Loop, Part, Task, Test};
use ooo_bound::{BoundExpr, BoundStat, LinedSimple};
use ooo_layout::extents::{body_size, else_size, lined_size, lineds_size, stat_size};
use ooo_layout::numbers::{behind, less, past, sum};
use ooo_shapes::Around;
use sqlite_items::{Boxed, Items};
use std::alloc::AllocError;

// A part is to be put next.
pub(crate) fn push<'a>(
    tasks: &mut Items<Task<'a>>,
    part: Part<'a>,
    spot: Spot,
) -> Result<(), AllocError>
    ensures { (h : Home) → OnOk result (left_of h tasks.new ≡
        at_spot (part_shape h (callees_within spot.depth h) spot part.entry) spot
        (left_of h tasks.old)) }
{
    tasks.push(Task { part, spot })
}

// Around a loop's body.
fn inside(t: Around, break_to: u32, continue_to: u32) -> Around
    ensures { result ≡ inside t break_to continue_to }
{
    Around {
        break_to,
        continue_to,
        ..t
    }
}

// Where the rest of a whole begins that is put from a place on.
fn rest_at(at: u32, whole: u64, rest: u64) -> Result<u32, AllocError>
    ensures { IfOk result (λ n. n + rest ≡ at + whole) }
{
    past(at, less(whole, rest)?)
}

// The statement after `else` is put next, if there is one.
fn push_else<'a>(
    tasks: &mut Items<Task<'a>>,
    spot: Spot,
    no: &'a Option<Boxed<BoundStat>>,
) -> Result<(), AllocError>
    ensures { (h : Home) (at : ℕ) → OnOk result (Splits
        (at_spot (else_shape h (callees_within spot.depth h) no.now) spot (left_of h tasks.old))
        (left_of h tasks.new) at) }
{
    match no {
        None => Ok(()),
        Some(stat) => {
            let stat = stat.get();
            push(tasks, Part::Stat(stat), spot)
        }
    }
}

/// The test of a `for`.
pub(crate) fn test_of<'a>(test: &'a Option<Boxed<BoundExpr>>) -> Test<'a>
    ensures { tested result ≡ test_or_true test.now }
{
    match test {
        None => Test::Always,
        Some(test) => Test::Of(test.get()),
    }
}

impl<'a> Site<'a> {
    // Several statements of a body.
    fn split_stats(
        self,
        tasks: &mut Items<Task<'a>>,
        at: u32,
        body: &'a [BoundStat],
    ) -> Result<(), AllocError>
        requires { IsKnown self.scene.known }
        ensures { OnOk result (Divides self.entry at (λ h callees. body_shape h callees body.now)
            tasks.old tasks.new) }
    {
        let whole = got!(body_size(self.scene, self.spot.depth, body));
        let mut rest = 0;
        let mut left = body.len();
        'parts: while left > 0 {
            left -= 1;
            let stat = &body[left];
            let size = got!(stat_size(self.scene, self.spot.depth, stat));
            let here = got!(rest_at(at, whole, rest));
            let to = begins(rest, here, self.spot.next);
            let placed = Spot {
                next: to,
                ..self.spot
            };
            got!(push(tasks, Part::Stat(stat), placed));
            rest = got!(sum(rest, size));
        }
        Ok(())
    }

    /// The statements of a body.
    pub(crate) fn split_body(
        self,
        tasks: &mut Items<Task<'a>>,
        at: u32,
        body: &'a [BoundStat],
    ) -> Result<(), AllocError>
        requires { IsKnown self.scene.known }
        ensures { OnOk result (Divides self.entry at (λ h callees. body_shape h callees body.now)
            tasks.old tasks.new) }
    {
        match body {
            [only] => push(tasks, Part::Stat(only), self.spot),
            _ => self.split_stats(tasks, at, body),
        }
    }

    /// Statements without statements in them.
    pub(crate) fn split_simples(
        self,
        tasks: &mut Items<Task<'a>>,
        at: u32,
        xs: &'a [LinedSimple],
    ) -> Result<(), AllocError>
        requires { IsKnown self.scene.known }
        ensures { OnOk result (Divides self.entry at (λ h callees. lined_shapes h callees xs.now)
            tasks.old tasks.new) }
    {
        let whole = got!(lineds_size(self.scene, self.spot.depth, xs));
        let mut rest = 0;
        let mut left = xs.len();
        'parts: while left > 0 {
            left -= 1;
            let x = &xs[left];
            let size = got!(lined_size(self.scene, self.spot.depth, x));
            let here = got!(rest_at(at, whole, rest));
            let to = begins(rest, here, self.spot.next);
            let placed = Spot {
                next: to,
                ..self.spot
            };
            got!(push(tasks, Part::Simple(x), placed));
            rest = got!(sum(rest, size));
        }
        Ok(())
    }

    /// An `if`.
    pub(crate) fn split_if(
        self,
        tasks: &mut Items<Task<'a>>,
        at: u32,
        test: &'a BoundExpr,
        yes: &'a BoundStat,
        no: &'a Option<Boxed<BoundStat>>,
    ) -> Result<(), AllocError>
        requires { IsKnown self.scene.known }
        ensures { OnOk result (Divides self.entry at (λ h callees.
            if_shape self.entry.spot.line test.now (shape_of h callees yes.now)
            (else_shape h callees no.now)) tasks.old tasks.new) }
    {
        let yes_at = got!(behind(at, 1));
        let yes_size = got!(stat_size(self.scene, self.spot.depth, yes));
        let no_at = got!(past(yes_at, yes_size));
        let no_size = got!(else_size(self.scene, self.spot.depth, no));
        let yes_to = begins(yes_size, yes_at, self.spot.next);
        let no_to = begins(no_size, no_at, self.spot.next);
        got!(push_else(tasks, self.spot, no));
        got!(push(tasks, Part::Stat(yes), self.spot));
        push(tasks, Part::Test(Test::Of(test), no_to, yes_to), self.spot)
    }

    /// A `do`: its body and its test.
    pub(crate) fn split_do(
        self,
        tasks: &mut Items<Task<'a>>,
        at: u32,
        body: &'a BoundStat,
        test: &'a BoundExpr,
    ) -> Result<(), AllocError>
        requires { IsKnown self.scene.known }
        ensures { OnOk result (Divides self.entry at (λ h callees.
            do_shape self.entry.spot.line test.now (shape_of h callees body.now))
            tasks.old tasks.new) }
    {
        let size = got!(stat_size(self.scene, self.spot.depth, body));
        let test_at = got!(past(at, size));
        let t = inside(self.spot.around, self.spot.next, test_at);
        let within = Spot {
            around: t,
            next: test_at,
            ..self.spot
        };
        let test = Part::Test(Test::Of(test), self.spot.next, at);
        got!(push(tasks, test, self.spot));
        push(tasks, Part::Stat(body), within)
    }

    // The test of a loop and its body, behind which a turn goes on at `again`.
    fn push_turn(
        self,
        tasks: &mut Items<Task<'a>>,
        at: u32,
        test: Test<'a>,
        again: u32,
        body: &'a BoundStat,
    ) -> Result<(), AllocError>
        requires { IsKnown self.scene.known }
        ensures { OnOk result (Divides self.entry at (λ h callees.
            turn_shape self.entry.spot.line (tested test.entry) again (shape_of h callees body.now))
            tasks.old tasks.new) }
    {
        let body_at = got!(behind(at, 1));
        let size = got!(stat_size(self.scene, self.spot.depth, body));
        let yes = begins(size, body_at, again);
        let t = inside(self.spot.around, self.spot.next, again);
        let within = Spot {
            around: t,
            next: again,
            ..self.spot
        };
        got!(push(tasks, Part::Stat(body), within));
        push(tasks, Part::Test(test, self.spot.next, yes), self.spot)
    }

    /// A loop without anything before its test.
    pub(crate) fn split_plain_loop(
        self,
        tasks: &mut Items<Task<'a>>,
        at: u32,
        test: Test<'a>,
        body: &'a BoundStat,
    ) -> Result<(), AllocError>
        requires { IsKnown self.scene.known }
        ensures { OnOk result (Divides self.entry at (λ h callees.
            loop_shape self.entry.spot.line (tested test.entry) None (shape_of h callees body.now))
            tasks.old tasks.new) }
    {
        self.push_turn(tasks, at, test, at, body)
    }

    // A loop in which this follows each turn.
    fn split_stepped_loop(
        self,
        tasks: &mut Items<Task<'a>>,
        at: u32,
        test: Test<'a>,
        after: &'a LinedSimple,
        body: &'a BoundStat,
    ) -> Result<(), AllocError>
        requires { IsKnown self.scene.known }
        ensures { OnOk result (Divides self.entry at (λ h callees.
            loop_shape self.entry.spot.line (tested test.entry)
            (Some (lined_shape h callees after.now)) (shape_of h callees body.now))
            tasks.old tasks.new) }
    {
        let step_at = got!(behind(at, 1));
        let size = got!(lined_size(self.scene, self.spot.depth, after));
        let test_at = got!(past(step_at, size));
        let again = begins(size, step_at, test_at);
        let step = Spot {
            next: test_at,
            ..self.spot
        };
        got!(self.push_turn(tasks, test_at, test, again, body));
        got!(push(tasks, Part::Simple(after), step));
        push(tasks, Part::Pass, step)
    }

    // The loop of a `for`.
    fn split_loop(
        self,
        tasks: &mut Items<Task<'a>>,
        at: u32,
        looped: Loop<'a>,
    ) -> Result<(), AllocError>
        requires { IsKnown self.scene.known }
        ensures { OnOk result (Divides self.entry at (λ h callees.
            looped_shape h callees self.entry.spot.line looped.entry) tasks.old tasks.new) }
    {
        let Loop { test, after, body } = looped;
        match after {
            None => self.split_plain_loop(tasks, at, test, body),
            Some(after) => self.split_stepped_loop(tasks, at, test, after.get(), body),
        }
    }

    /// A `for`: what it begins with, and then its loop.
    pub(crate) fn split_for(
        self,
        tasks: &mut Items<Task<'a>>,
        at: u32,
        begin: &'a [LinedSimple],
        looped: Loop<'a>,
    ) -> Result<(), AllocError>
        requires { IsKnown self.scene.known }
        ensures { OnOk result (Divides self.entry at (λ h callees.
            then (lined_shapes h callees begin.now)
            (looped_shape h callees self.entry.spot.line looped.entry)) tasks.old tasks.new) }
    {
        let size = got!(lineds_size(self.scene, self.spot.depth, begin));
        let loop_at = got!(past(at, size));
        let first = Spot {
            next: loop_at,
            ..self.spot
        };
        got!(self.split_loop(tasks, loop_at, looped));
        push(tasks, Part::Simples(begin), first)
    }
}
