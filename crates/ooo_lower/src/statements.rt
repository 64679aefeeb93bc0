ghost use Rattle.std.specs.Prelude.{◌≡◌, ◌+◌, [], ◌∷◌, None, Some, false, length, IfOk, MatchOption, OnOk};
ghost use Rattle.ooo_code.specs.declared.node.NodeKind.TheVariants as kind;
ghost use Rattle.ooo_bound.specs.declared.stat.BoundRight.TheVariants as bound_right;
ghost use Rattle.ooo_bound.specs.declared.stat.BoundSimple.TheVariants as bound_simple;
ghost use Rattle.ooo_layout.specs.Extents.{IsKnown, IsOutlineOf, else_shape};
ghost use Rattle.ooo_layout.specs.Scenes.{home_at};
ghost use Rattle.ooo_lower.specs.Codes.{Emits, Puts};
ghost use Rattle.ooo_lower.specs.Parts.{one_kind};
ghost use Rattle.ooo_lower.specs.Calls.{IsPlaced};
ghost use Rattle.ooo_lower.specs.Tasks.{EmitsAt, Takes, gives_call, is_call, leave_shape, one_node};
ghost use Rattle.ooo_lower.specs.Tasks.{looped_shape, part_shape, pass_shape, test_shape, tested};
ghost use Rattle.ooo_shapes.specs.Expressions.{lowered};
ghost use Rattle.ooo_shapes.specs.Shapes.{Callees, assign_shape, body_shape, call_shape, do_shape, if_shape};
ghost use Rattle.ooo_shapes.specs.Shapes.{lined_shape, lined_shapes, loop_shape, print_shape, return_kind};
ghost use Rattle.ooo_shapes.specs.Shapes.{shape_of, shape_within, simple_shape, then};
ghost use Rattle.ooo_shapes.specs.Simples.{counted};

use crate::calls::{frame_of, leave_kind, push_kinds, put_arguments, put_zeros};
use crate::code::Code;
use crate::expressions::{lowered, lowered_time};
use crate::kinds_of_nodes::{lowered_wait, return_kind};
use crate::simples::{Site, Spot, begins};
use crate::splitting::{push, test_of};
use crate::tasks::{Loop, Part, Task, Test};
use ooo_bound::{
    BoundExpr, BoundFunction, BoundItem, BoundRight, BoundSimple, BoundStat, BoundTarget,
    LinedSimple,
};
use ooo_code::{NodeExpr, NodeKind};
use ooo_layout::blocks::bare;
use ooo_layout::extents::{Outline, callee, given, known_outline, nodes_within};
use ooo_layout::numbers::{less, past, sum};
use ooo_shapes::Around;
use ooo_value::{Kind, Value};
use sqlite_items::{Boxed, Items};
use std::alloc::{AllocError, Global};

// A call of a function: what its result is put into, the function's number, and the arguments.
#[derive(Clone, Copy)]
pub(crate) struct CallIn<'a> {
    into: &'a BoundTarget,
    function: u32,
    args: &'a [BoundExpr],
}

// Where a call goes: its first slot, the node behind its first one, and the node behind its body.
#[derive(Clone, Copy)]
pub(crate) struct CallPlaces {
    free: u32,
    first: u32,
    leave: u32,
}

// The call that a statement is, if it is one.
fn call_in<'a>(simple: &'a BoundSimple) -> Option<CallIn<'a>>
    ensures { MatchOption result (is_call simple.now ≡ false) (λ c.
        simple.now ≡ bound_simple.Assign c.into.now (bound_right.Call c.function c.args.now)) }
{
    match simple {
        BoundSimple::Assign(into, right) => match right {
            BoundRight::Call(function, args) => Some(CallIn {
                into,
                function: *function,
                args: args.as_slice(),
            }),
            _ => None,
        },
        _ => None,
    }
}

// The value of a test.
#[tactic(auto, unfolding(ooo_shapes::specs::Expressions::lowered))]
fn tested(alloc: Global, t: Around, test: Test<'_>) -> Result<NodeExpr, AllocError>
    ensures { IfOk result (λ v. v ≡ lowered t (tested test.entry)) }
{
    match test {
        Test::Of(test) => lowered(alloc, t, test),
        Test::Always => Ok(NodeExpr::Constant(Value::Bool(true))),
    }
}

impl<'a> Site<'a> {
    // A print counts before it prints its items.
    fn emit_print(self, code: &mut Code, items: &[BoundItem]) -> Result<(), AllocError>
        ensures { OnOk result
            (EmitsAt self.entry.spot (print_shape self.entry.spot.line items.now)
            code.old code.new) }
    {
        let after = got!(code.after());
        let to = begins(items.len() as u64, after, self.spot.next);
        got!(code.put_counted(NodeKind::Goto, self.spot.line, to));
        self.put_items(code, items)
    }

    // A statement of one node.
    fn one_kind(self, simple: &BoundSimple) -> Result<NodeKind, AllocError>
        ensures { IfOk result (λ k.
            k ≡ one_kind (home_at self.entry.scene) self.entry.spot.around simple.now) }
    {
        match simple {
            BoundSimple::Notify(event, time) => {
                let time = got!(lowered_time(self.alloc, self.spot.around, time));
                Ok(NodeKind::Notify(*event, time))
            }
            BoundSimple::Cancel(event) => Ok(NodeKind::Cancel(*event)),
            BoundSimple::Wait(wait) => {
                let wait = got!(lowered_wait(self.alloc, self.scene, self.spot.around, wait));
                Ok(NodeKind::Wait(wait))
            }
            BoundSimple::NextTrigger(wait) => {
                let wait = got!(lowered_wait(self.alloc, self.scene, self.spot.around, wait));
                Ok(NodeKind::Trigger(wait))
            }
            _ => Ok(NodeKind::Stop),
        }
    }

    // A statement of one node, as it stands.
    fn emit_one(self, code: &mut Code, simple: &BoundSimple) -> Result<(), AllocError>
        ensures { OnOk result (Puts (counted
            (one_kind (home_at self.entry.scene) self.entry.spot.around simple.now)
            self.entry.spot.line self.entry.spot.next ∷ []) code.old code.new) }
    {
        let kind = got!(self.one_kind(simple));
        code.put_counted(kind, self.spot.line, self.spot.next)
    }

    // A test, which leads to one place where its value is false, and to another one where it is true.
    fn put_test(self, code: &mut Code, test: Test<'_>, no: u32, yes: u32) -> Result<(), AllocError>
        ensures { OnOk result
            (EmitsAt self.entry.spot (test_shape self.entry.spot.line (tested test.entry) no yes)
            code.old code.new) }
    {
        let value = got!(tested(self.alloc, self.spot.around, test));
        code.put_counted(NodeKind::Test(value, no), self.spot.line, yes)
    }

    // A value that isn't what a call gives is put into a target.
    fn emit_right(
        self,
        code: &mut Code,
        into: &BoundTarget,
        right: &BoundRight,
    ) -> Result<(), AllocError>
        requires { gives_call right.now ≡ false }
        ensures { (callees : Callees) → OnOk result (EmitsAt self.entry.spot
            (assign_shape (home_at self.entry.scene) callees self.entry.spot.line into.now
            right.now) code.old code.new) }
    {
        match right {
            BoundRight::Value(e) => self.put_value(code, into, e),
            BoundRight::Call(_, _) => Ok(()),
            BoundRight::Read(fifo) => self.put_read(code, into, *fifo),
            BoundRight::NbRead(fifo, given) => self.put_nb_read(code, into, *fifo, given),
            BoundRight::NbWrite(fifo, e) => self.put_nb_write(code, into, *fifo, e),
        }
    }

    // A statement without statements in it that calls no function.
    fn emit_simple(self, code: &mut Code, simple: &BoundSimple) -> Result<(), AllocError>
        requires { is_call simple.now ≡ false }
        ensures { (callees : Callees) → OnOk result (EmitsAt self.entry.spot
            (simple_shape (home_at self.entry.scene) callees self.entry.spot.line simple.now)
            code.old code.new) }
    {
        match simple {
            BoundSimple::Assign(into, right) => self.emit_right(code, into, right),
            BoundSimple::Update(into, op, e) => self.put_update(code, into, *op, e),
            BoundSimple::Write(fifo, e) => self.put_write(code, *fifo, e),
            BoundSimple::Print(items) => self.emit_print(code, items.as_slice()),
            simple => self.emit_one(code, simple),
        }
    }

    // Where the parts of a call go. Without its arguments it has two nodes besides those before its end: the first and the last.
    fn call_places(
        self,
        code: &Code,
        function: &BoundFunction,
        outline: Outline,
        args: &[BoundExpr],
    ) -> Result<CallPlaces, AllocError>
        requires { IsOutlineOf outline self.scene.known.model.now function.now }
        ensures { IfOk result (λ p. IsPlaced self.entry code.now function.now args.now p) }
    {
        let free = got!(code.free());
        let first = got!(code.after());
        let whole = got!(nodes_within(outline.extent, self.spot.depth));
        let within = got!(less(whole, 2));
        let size = got!(sum(within, given(function, args)));
        let leave = got!(past(first, size));
        Ok(CallPlaces { free, first, leave })
    }

    // What stands before the body of a called function; the body and the way of the result are put next.
    fn begin_call(
        self,
        code: &mut Code,
        tasks: &mut Items<Task<'a>>,
        call: CallIn<'a>,
        function: &'a BoundFunction,
        outline: Outline,
    ) -> Result<(), AllocError>
        requires { IsOutlineOf outline self.scene.known.model.now function.now }
        ensures { OnOk result (Takes self.entry (λ h callees.
            call_shape h self.entry.spot.line call.entry.into.now call.entry.args.now
            (Some (record {
              function = function.now;
              body = body_shape h callees function.now.body;
            }))) tasks.old tasks.new code.old code.new) }
    {
        let places = got!(self.call_places(code, function, outline, call.args));
        let u = got!(frame_of(function, outline.widths, places.free, places.leave));
        let params = function.params.as_slice();
        got!(code.put_counted(NodeKind::Goto, self.spot.line, places.first));
        got!(push_kinds(code, function, outline.widths));
        got!(put_zeros(code, self.spot.line, places.free));
        got!(put_arguments(self.alloc, code, self.spot, u, params, call.args));
        let leave = Part::Leave(call.into, function.result, places.free);
        got!(push(tasks, leave, self.spot));
        let inner = Spot {
            around: u,
            next: places.leave,
            ..self.spot
        };
        push(tasks, Part::Body(function.body.as_slice()), inner)
    }

    // A call of a function.
    fn take_call(
        self,
        code: &mut Code,
        tasks: &mut Items<Task<'a>>,
        call: CallIn<'a>,
    ) -> Result<(), AllocError>
        requires { IsKnown self.scene.known }
        ensures { OnOk result (Takes self.entry (λ h callees.
            call_shape h self.entry.spot.line call.entry.into.now call.entry.args.now
            (callees call.entry.function)) tasks.old tasks.new code.old code.new) }
    {
        match callee(self.scene, self.spot.depth, call.function) {
            None => Ok(()),
            Some(function) => {
                let outline = known_outline(self.scene.known, call.function)?;
                let spot = Spot {
                    depth: self.spot.depth - 1,
                    ..self.spot
                };
                let inner = Site { spot, ..self };
                inner.begin_call(code, tasks, call, function, outline)
            }
        }
    }

    // A statement without statements in it.
    fn take_simple(
        self,
        code: &mut Code,
        tasks: &mut Items<Task<'a>>,
        x: &'a LinedSimple,
    ) -> Result<(), AllocError>
        requires { IsKnown self.scene.known }
        ensures { OnOk result (Takes self.entry (λ h callees. lined_shape h callees x.now)
            tasks.old tasks.new code.old code.new) }
    {
        let spot = Spot {
            line: x.line,
            ..self.spot
        };
        let lined = Site { spot, ..self };
        match call_in(&x.simple) {
            None => lined.emit_simple(code, &x.simple),
            Some(call) => lined.take_call(code, tasks, call),
        }
    }

    // The way past what follows each turn of a loop.
    fn put_pass(self, code: &mut Code) -> Result<(), AllocError>
        ensures { OnOk result
            (EmitsAt self.entry.spot (pass_shape self.entry.spot.line) code.old code.new) }
    {
        code.put_uncounted(NodeKind::Goto, self.spot.line, self.spot.next)
    }

    // The way of what a call gives.
    fn put_leave(
        self,
        code: &mut Code,
        into: &BoundTarget,
        gives: Option<Kind>,
        free: u32,
    ) -> Result<(), AllocError>
        ensures { OnOk result (EmitsAt self.entry.spot
            (leave_shape (home_at self.entry.scene) self.entry.spot.line into.now gives free)
            code.old code.new) }
    {
        let kind = got!(leave_kind(self.alloc, self.scene, self.spot, into, gives, free));
        code.put_uncounted(kind, self.spot.line, self.spot.next)
    }

    // A jump out of a loop or its turn.
    fn put_jump(self, code: &mut Code, line: u32, to: u32) -> Result<(), AllocError>
        ensures { OnOk result
            (EmitsAt self.entry.spot (one_node (counted kind.Goto line to)) code.old code.new) }
    {
        code.put_counted(NodeKind::Goto, line, to)
    }

    // A `return`.
    fn put_return(
        self,
        code: &mut Code,
        line: u32,
        value: &Option<Boxed<BoundExpr>>,
    ) -> Result<(), AllocError>
        ensures { OnOk result (EmitsAt self.entry.spot
            (one_node (counted (return_kind self.entry.spot.around value.now) line
            self.entry.spot.around.return_to)) code.old code.new) }
    {
        let kind = got!(return_kind(self.alloc, self.spot.around, value));
        code.put_counted(kind, line, self.spot.around.return_to)
    }

    // An `if`.
    fn take_if(
        self,
        code: &Code,
        tasks: &mut Items<Task<'a>>,
        line: u32,
        test: &'a BoundExpr,
        yes: &'a BoundStat,
        no: &'a Option<Boxed<BoundStat>>,
    ) -> Result<(), AllocError>
        requires { IsKnown self.scene.known }
        ensures { OnOk result (Takes self.entry (λ h callees.
            if_shape line test.now (shape_of h callees yes.now) (else_shape h callees no.now))
            tasks.old tasks.new code.now code.now) }
    {
        let at = got!(code.at());
        let spot = Spot { line, ..self.spot };
        Site { spot, ..self }.split_if(tasks, at, test, yes, no)
    }

    // A `while`.
    fn take_while(
        self,
        code: &Code,
        tasks: &mut Items<Task<'a>>,
        line: u32,
        test: &'a BoundExpr,
        body: &'a BoundStat,
    ) -> Result<(), AllocError>
        requires { IsKnown self.scene.known }
        ensures { OnOk result (Takes self.entry (λ h callees.
            loop_shape line test.now None (shape_of h callees body.now))
            tasks.old tasks.new code.now code.now) }
    {
        let at = got!(code.at());
        let spot = Spot { line, ..self.spot };
        Site { spot, ..self }.split_plain_loop(tasks, at, Test::Of(test), body)
    }

    // A `do`.
    fn take_do(
        self,
        code: &Code,
        tasks: &mut Items<Task<'a>>,
        line: u32,
        body: &'a BoundStat,
        test: &'a BoundExpr,
    ) -> Result<(), AllocError>
        requires { IsKnown self.scene.known }
        ensures { OnOk result (Takes self.entry (λ h callees.
            do_shape line test.now (shape_of h callees body.now))
            tasks.old tasks.new code.now code.now) }
    {
        let at = got!(code.at());
        let spot = Spot { line, ..self.spot };
        Site { spot, ..self }.split_do(tasks, at, body, test)
    }

    // A `for`.
    fn take_for(
        self,
        code: &Code,
        tasks: &mut Items<Task<'a>>,
        line: u32,
        begin: &'a [LinedSimple],
        looped: Loop<'a>,
    ) -> Result<(), AllocError>
        requires { IsKnown self.scene.known }
        ensures { OnOk result (Takes self.entry (λ h callees.
            then (lined_shapes h callees begin.now) (looped_shape h callees line looped.entry))
            tasks.old tasks.new code.now code.now) }
    {
        let at = got!(code.at());
        let spot = Spot { line, ..self.spot };
        Site { spot, ..self }.split_for(tasks, at, begin, looped)
    }

    // A statement.
    fn take_stat(
        self,
        code: &mut Code,
        tasks: &mut Items<Task<'a>>,
        stat: &'a BoundStat,
    ) -> Result<(), AllocError>
        requires { IsKnown self.scene.known }
        ensures { OnOk result (Takes self.entry (λ h callees. shape_of h callees stat.now)
            tasks.old tasks.new code.old code.new) }
    {
        match stat {
            BoundStat::Block(body) => self.take_body(code, tasks, body.as_slice()),
            BoundStat::Simple(x) => self.take_simple(code, tasks, x.get()),
            BoundStat::Break(line) => self.put_jump(code, *line, self.spot.around.break_to),
            BoundStat::Continue(line) => self.put_jump(code, *line, self.spot.around.continue_to),
            BoundStat::Return(line, value) => self.put_return(code, *line, value),
            BoundStat::If(line, test, yes, no) => {
                self.take_if(code, tasks, *line, test.get(), yes.get(), no)
            }
            BoundStat::While(line, test, body) => {
                self.take_while(code, tasks, *line, test.get(), body.get())
            }
            BoundStat::Do(line, body, test) => {
                self.take_do(code, tasks, *line, body.get(), test.get())
            }
            BoundStat::For(line, begin, test, after, body) => {
                let looped = Loop {
                    test: test_of(test),
                    after,
                    body: body.get(),
                };
                self.take_for(code, tasks, *line, begin.as_slice(), looped)
            }
        }
    }

    // The statements of a body.
    fn take_body(
        self,
        code: &Code,
        tasks: &mut Items<Task<'a>>,
        body: &'a [BoundStat],
    ) -> Result<(), AllocError>
        requires { IsKnown self.scene.known }
        ensures { OnOk result (Takes self.entry (λ h callees. body_shape h callees body.now)
            tasks.old tasks.new code.now code.now) }
    {
        let at = got!(code.at());
        self.split_body(tasks, at, bare(body))
    }

    // Statements without statements in them.
    fn take_simples(
        self,
        code: &Code,
        tasks: &mut Items<Task<'a>>,
        xs: &'a [LinedSimple],
    ) -> Result<(), AllocError>
        requires { IsKnown self.scene.known }
        ensures { OnOk result (Takes self.entry (λ h callees. lined_shapes h callees xs.now)
            tasks.old tasks.new code.now code.now) }
    {
        let at = got!(code.at());
        self.split_simples(tasks, at, xs)
    }

    // Puts a part, or what stands first in it; the rest of it is put next.
    fn take(
        self,
        code: &mut Code,
        tasks: &mut Items<Task<'a>>,
        part: Part<'a>,
    ) -> Result<(), AllocError>
        requires { IsKnown self.scene.known }
        ensures { OnOk result (Takes self.entry (λ h callees.
            part_shape h callees self.entry.spot part.entry)
            tasks.old tasks.new code.old code.new) }
    {
        match part {
            Part::Body(body) => self.take_body(code, tasks, body),
            Part::Stat(stat) => self.take_stat(code, tasks, stat),
            Part::Simples(xs) => self.take_simples(code, tasks, xs),
            Part::Simple(x) => self.take_simple(code, tasks, x),
            Part::Pass => self.put_pass(code),
            Part::Test(test, no, yes) => self.put_test(code, test, no, yes),
            Part::Leave(into, result, free) => self.put_leave(code, into, result, free),
        }
    }
}

/// The nodes of the statements of a body.
pub(crate) fn emit_stats<'a>(
    site: Site<'a>,
    code: &mut Code,
    body: &'a [BoundStat],
) -> Result<(), AllocError>
    requires { IsKnown site.scene.known }
    ensures { OnOk result (EmitsAt site.entry.spot
        (shape_within site.entry.spot.depth (home_at site.entry.scene) body.now)
        code.old code.new) }
{
    let mut tasks = Items::new(site.alloc);
    keeping!(tasks; push(&mut tasks, Part::Body(body), site.spot));
    'steps: for _ in 0..u64::MAX {
        match tasks.pop() {
            None => return Ok(()),
            Some(task) => {
                let site = Site {
                    spot: task.spot,
                    ..site
                };
                keeping!(tasks; site.take(code, &mut tasks, task.part))
            }
        }
    }
    Err(AllocError)
}
