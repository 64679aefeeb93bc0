ghost use Rattle.std.specs.Prelude.{◌≡◌, ◌+◌, ◌≤◌, ◌-◌, ℕ, Some, None, IfOk, MatchOption, OnOk, length, max, min};
ghost use Rattle.std.specs.Prelude.{slice_get};
ghost use Rattle.ooo_bound.specs.declared.stat.BoundTarget.{BoundTarget as BoundTargetSpec};
ghost use Rattle.ooo_layout.specs.Extents.{AreOutlines, Count, IsKnown, IsOneMore, IsOutlineOf, IsThen};
ghost use Rattle.ooo_layout.specs.Extents.{Measures, else_shape};
ghost use Rattle.ooo_shapes.specs.Shapes.{after_shape, body_shape, call_kinds, call_shape, callees_within};
ghost use Rattle.ooo_shapes.specs.Shapes.{function_widths, lead_size, lined_shape, lined_shapes, shape_of};
ghost use Rattle.ooo_shapes.specs.Shapes.{shape_within};
ghost use Rattle.ooo_layout.specs.Scenes.{home_at};

use crate::blocks::bare;
use crate::numbers::sum;
use crate::order::callees_first;
use crate::scene::{Known, Scene};
use crate::sizes::Weight;
use crate::widths::{both, count_of, of_body, of_params};
use ooo_bound::{
    Bound, BoundExpr, BoundFunction, BoundRight, BoundSimple, BoundStat, BoundTarget, LinedSimple,
};
use ooo_shapes::Widths;
use sqlite_items::{Boxed, Items, at};
use std::alloc::{AllocError, Global};

/// How many nodes a shape has, and how deep calls are nested in it.
#[derive(Clone, Copy)]
pub struct Extent {
    pub(crate) nodes: u64,
    pub(crate) depth: u64,
}

/// What is known of the calls of a function: their extent but for arguments and the calls themselves, and the slots that the
/// function's locals need.
#[derive(Clone, Copy)]
pub struct Outline {
    /// The extent of a call, but for its arguments and the call itself.
    pub extent: Extent,
    /// The slots that the function's locals need.
    pub widths: Widths,
}

// So many nodes, which call nothing.
fn plain(nodes: u64) -> Extent
    ensures nodes { result.nodes ≡ nodes }
    ensures depth { result.depth ≡ 0 }
{
    Extent { nodes, depth: 0 }
}

// Two shapes one after the other.
fn then(a: Extent, b: Extent) -> Result<Extent, AllocError>
    ensures { IfOk result (λ e. IsThen a b e) }
{
    Ok(Extent {
        nodes: sum(a.nodes, b.nodes)?,
        depth: a.depth.max(b.depth),
    })
}

// A node, and then a shape or the other way round.
fn one_more(e: Extent) -> Result<Extent, AllocError>
    ensures { IfOk result (λ x. IsOneMore e x) }
{
    let nodes = sum(1, e.nodes)?;
    Ok(Extent { nodes, ..e })
}

/// How many nodes an extent has, where calls may be nested so deep.
///
/// # Errors
///
/// Out of memory where they are nested deeper, which those of a sound model aren't.
pub fn nodes_within(e: Extent, depth: usize) -> Result<u64, AllocError>
    ensures { IfOk result (λ n. (n ≡ e.nodes) × (e.depth ≤ depth)) }
{
    if e.depth > depth as u64 {
        return Err(AllocError);
    }
    Ok(e.nodes)
}

// The slots that the locals of a function need.
fn function_widths(function: &BoundFunction) -> Result<Widths, AllocError>
    ensures { IfOk result (λ w. w ≡ function_widths function.now) }
{
    let params = of_params(function.params.as_slice())?;
    let body = bare(function.body.as_slice());
    Ok(both(params, of_body(body)))
}

// How many slots a call has for the called function itself, whose locals need these.
fn call_slots(function: &BoundFunction, widths: Widths) -> Result<u64, AllocError>
    requires { widths ≡ function_widths function.now }
    ensures { IfOk result (λ n. n ≡ length (call_kinds function.now)) }
{
    let locals = count_of(widths)?;
    match function.result {
        None => Ok(locals),
        Some(_) => sum(1, locals),
    }
}

/// A function that may be called, where calls are nested no deeper than this; none at depth 0, or where there is no function
/// with this number.
pub fn callee<'a>(scene: Scene<'a>, depth: usize, f: u32) -> Option<&'a BoundFunction>
    ensures { MatchOption result (callees_within depth (home_at scene.entry) f ≡ None) (λ g.
        (1 ≤ depth) × (slice_get scene.entry.known.model.now.functions f ≡ Some g.now)
        × (callees_within depth (home_at scene.entry) f ≡ Some (record {
          function = g.now;
          body = shape_within (depth - 1) (home_at scene.entry) g.now.body;
        }))) }
{
    if depth == 0 {
        return None;
    }
    at(scene.known.model.functions.as_slice(), f as usize)
}

/// How many arguments a call has for the parameters of a function.
pub fn given(function: &BoundFunction, args: &[BoundExpr]) -> u64
    ensures { result ≡ min (length function.now.params) (length args.now) }
{
    function.params.len().min(args.len()) as u64
}

/// What is known of the calls of a function.
///
/// # Errors
///
/// Out of memory where nothing is, as where the function calls itself, by others or not.
pub fn known_outline(known: Known<'_>, f: u32) -> Result<Outline, AllocError>
    ensures { IfOk result (λ o. slice_get known.entry.outlines.now f ≡ Some (Some o)) }
{
    match at(known.outlines, f as usize) {
        Some(Some(outline)) => Ok(*outline),
        _ => Err(AllocError),
    }
}

// The function with a number, if there is it.
fn function_of<'a>(known: Known<'a>, f: u32) -> Option<&'a BoundFunction>
    ensures { MatchOption result (slice_get known.entry.model.now.functions f ≡ None)
        (λ function. slice_get known.entry.model.now.functions f ≡ Some function.now) }
{
    at(known.model.functions.as_slice(), f as usize)
}

// A call of a function that there is.
fn of_found(
    known: Known<'_>,
    f: u32,
    function: &BoundFunction,
    args: &[BoundExpr],
) -> Result<Extent, AllocError>
    requires known { IsKnown known }
    requires found { slice_get known.model.now.functions f ≡ Some function.now }
    ensures { (line : ℕ) (into : BoundTargetSpec) → IfOk result (λ e.
        Measures e known.entry.model.now (λ h callees.
        (call_shape h line into args.now (callees f)).size)) }
{
    let called = known_outline(known, f)?;
    let nodes = sum(called.extent.nodes, given(function, args))?;
    let depth = sum(1, called.extent.depth)?;
    Ok(Extent { nodes, depth })
}

// A call of a function.
fn of_call(known: Known<'_>, f: u32, args: &[BoundExpr]) -> Result<Extent, AllocError>
    requires { IsKnown known }
    ensures { (line : ℕ) (into : BoundTargetSpec) → IfOk result (λ e.
        Measures e known.entry.model.now (λ h callees.
        (call_shape h line into args.now (callees f)).size)) }
{
    match function_of(known, f) {
        None => Ok(plain(0)),
        Some(function) => of_found(known, f, function, args),
    }
}

/// A statement without statements in it.
pub(crate) fn of_lined(known: Known<'_>, x: &LinedSimple) -> Result<Extent, AllocError>
    requires { IsKnown known }
    ensures { IfOk result (λ e. Measures e known.entry.model.now (λ h callees.
        (lined_shape h callees x.now).size)) }
{
    match &x.simple {
        BoundSimple::Assign(_, right) => match right {
            BoundRight::Value(_) => Ok(plain(1)),
            BoundRight::Call(f, args) => of_call(known, *f, args.as_slice()),
            BoundRight::Read(_) => Ok(plain(4)),
            BoundRight::NbRead(_, _) => Ok(plain(6)),
            BoundRight::NbWrite(_, _) => Ok(plain(5)),
        },
        BoundSimple::Update(into, _, _) => match into {
            BoundTarget::Element(_, _) => Ok(plain(3)),
            _ => Ok(plain(1)),
        },
        BoundSimple::Write(_, _) => Ok(plain(4)),
        BoundSimple::Print(items) => Ok(plain(sum(1, items.len() as u64)?)),
        BoundSimple::Notify(_, _)
        | BoundSimple::Cancel(_)
        | BoundSimple::Wait(_)
        | BoundSimple::NextTrigger(_)
        | BoundSimple::Stop => Ok(plain(1)),
    }
}

/// Simple statements one after the other.
pub(crate) fn of_lineds(known: Known<'_>, xs: &[LinedSimple]) -> Result<Extent, AllocError>
    requires { IsKnown known }
    ensures { IfOk result (λ e. Measures e known.entry.model.now (λ h callees.
        (lined_shapes h callees xs.now).size)) }
{
    let mut all = plain(0);
    'parts: for x in xs {
        let part = of_lined(known, x)?;
        all = then(all, part)?;
    }
    Ok(all)
}

// What follows each turn of a loop, and the way past it.
fn of_lead(known: Known<'_>, after: &Option<Boxed<LinedSimple>>) -> Result<Extent, AllocError>
    requires { IsKnown known }
    ensures { IfOk result (λ e. Measures e known.entry.model.now (λ h callees.
        lead_size (after_shape h callees after.now))) }
{
    match after {
        None => Ok(plain(0)),
        Some(x) => {
            let step = of_lined(known, x.get())?;
            one_more(step)
        }
    }
}

// A `for` whose body has this extent.
fn of_for(
    known: Known<'_>,
    begin: &[LinedSimple],
    after: &Option<Boxed<LinedSimple>>,
    body: Extent,
) -> Result<Extent, AllocError>
    requires { IsKnown known }
    ensures { (count : Count) → Measures body known.entry.model.now count → IfOk result (λ e.
        Measures e known.entry.model.now (λ h callees.
        (lined_shapes h callees begin.now).size
        + (lead_size (after_shape h callees after.now) + (1 + count h callees)))) }
{
    let begin = of_lineds(known, begin)?;
    let lead = of_lead(known, after)?;
    let turn = one_more(body)?;
    let repeated = then(lead, turn)?;
    then(begin, repeated)
}

// The statement after `else`, if there is one.
#[cycle(extents)]
fn of_else(known: Known<'_>, no: &Option<Boxed<BoundStat>>) -> Result<Extent, AllocError>
    requires { IsKnown known }
    ensures { IfOk result (λ e. Measures e known.entry.model.now (λ h callees.
        (else_shape h callees no.now).size)) }
{
    match no {
        None => Ok(plain(0)),
        Some(stat) => of_stat(known, stat.get()),
    }
}

// A statement.
#[cycle(extents)]
#[tactic(auto, unfolding(ooo_shapes::specs::Shapes::shape_of))]
fn of_stat(known: Known<'_>, stat: &BoundStat) -> Result<Extent, AllocError>
    requires { IsKnown known }
    ensures { IfOk result (λ e. Measures e known.entry.model.now (λ h callees.
        (shape_of h callees stat.now).size)) }
{
    match stat {
        BoundStat::Block(body) => of_stats(known, body.as_slice()),
        BoundStat::Simple(x) => of_lined(known, x.get()),
        BoundStat::If(_, _, yes, no) => {
            let yes = of_stat(known, yes.get())?;
            let no = of_else(known, no)?;
            let branches = then(yes, no)?;
            one_more(branches)
        }
        BoundStat::While(_, _, body) => {
            let body = of_stat(known, body.get())?;
            one_more(body)
        }
        BoundStat::Do(_, body, _) => {
            let body = of_stat(known, body.get())?;
            one_more(body)
        }
        BoundStat::For(_, begin, _, after, body) => {
            let body = of_stat(known, body.get())?;
            of_for(known, begin.as_slice(), after, body)
        }
        BoundStat::Break(_) | BoundStat::Continue(_) | BoundStat::Return(_, _) => Ok(plain(1)),
    }
}

// The statements of a body.
#[cycle(extents)]
#[tactic(auto, unfolding(ooo_shapes::specs::Shapes::shape_of))]
fn of_stats(known: Known<'_>, body: &[BoundStat]) -> Result<Extent, AllocError>
    requires { IsKnown known }
    ensures { IfOk result (λ e. Measures e known.entry.model.now (λ h callees.
        (body_shape h callees body.now).size)) }
{
    let mut all = plain(0);
    'parts: for stat in body {
        let part = of_stat(known, stat)?;
        all = then(all, part)?;
    }
    Ok(all)
}

// ---- where calls may be nested so deep

/// How many nodes a statement without statements in it has.
///
/// # Errors
///
/// Out of memory where calls are nested deeper than this, or 64 bits don't hold it, or where nothing is known of a called
/// function.
pub fn lined_size(scene: Scene<'_>, depth: usize, x: &LinedSimple) -> Result<u64, AllocError>
    requires { IsKnown scene.known }
    ensures { IfOk result (λ n. n ≡ (lined_shape (home_at scene.entry)
        (callees_within depth (home_at scene.entry)) x.now).size) }
{
    let extent = of_lined(scene.known, x)?;
    nodes_within(extent, depth)
}

/// The same of simple statements one after the other.
///
/// # Errors
///
/// As those of [`lined_size`].
pub fn lineds_size(scene: Scene<'_>, depth: usize, xs: &[LinedSimple]) -> Result<u64, AllocError>
    requires { IsKnown scene.known }
    ensures { IfOk result (λ n. n ≡ (lined_shapes (home_at scene.entry)
        (callees_within depth (home_at scene.entry)) xs.now).size) }
{
    let extent = of_lineds(scene.known, xs)?;
    nodes_within(extent, depth)
}

/// The same of the statement after `else`, if there is one.
///
/// # Errors
///
/// As those of [`lined_size`].
pub fn else_size(
    scene: Scene<'_>,
    depth: usize,
    no: &Option<Boxed<BoundStat>>,
) -> Result<u64, AllocError>
    requires { IsKnown scene.known }
    ensures { IfOk result (λ n. n ≡ (else_shape (home_at scene.entry)
        (callees_within depth (home_at scene.entry)) no.now).size) }
{
    let extent = of_else(scene.known, no)?;
    nodes_within(extent, depth)
}

/// The same of a statement.
///
/// # Errors
///
/// As those of [`lined_size`].
pub fn stat_size(scene: Scene<'_>, depth: usize, stat: &BoundStat) -> Result<u64, AllocError>
    requires { IsKnown scene.known }
    ensures { IfOk result (λ n. n ≡ (shape_of (home_at scene.entry)
        (callees_within depth (home_at scene.entry)) stat.now).size) }
{
    let extent = of_stat(scene.known, stat)?;
    nodes_within(extent, depth)
}

/// The same of the statements of a body.
///
/// # Errors
///
/// As those of [`lined_size`].
pub fn body_size(scene: Scene<'_>, depth: usize, body: &[BoundStat]) -> Result<u64, AllocError>
    requires { IsKnown scene.known }
    ensures { IfOk result (λ n. n ≡ (shape_within depth (home_at scene.entry) body.now).size) }
{
    let extent = of_stats(scene.known, body)?;
    nodes_within(extent, depth)
}

// ---- every function once

// What is known of the calls of a function, by what is known so far of those of others.
fn of_function(known: Known<'_>, function: &BoundFunction) -> Result<Outline, AllocError>
    requires { IsKnown known }
    ensures { IfOk result (λ o. IsOutlineOf o known.entry.model.now function.now) }
{
    let body = of_stats(known, bare(function.body.as_slice()))?;
    let widths = function_widths(function)?;
    let own = call_slots(function, widths)?;
    let last = sum(body.nodes, 1)?;
    let behind = sum(own, last)?;
    let nodes = sum(1, behind)?;
    let extent = Extent {
        nodes,
        depth: body.depth,
    };
    Ok(Outline { extent, widths })
}

// Finds what is to be known of the calls of a function, if there is the function.
fn find_outline(
    model: &Bound,
    outlines: &mut Items<Option<Outline>>,
    f: u32,
) -> Result<(), AllocError>
    requires { AreOutlines model.now outlines.old }
    ensures { OnOk result (AreOutlines model.now outlines.new) }
{
    let number = f as usize;
    if number >= outlines.len() {
        return Ok(());
    }
    let known = Known {
        model,
        outlines: outlines.as_slice(),
    };
    match function_of(known, f) {
        None => Ok(()),
        Some(function) => {
            let outline = of_function(known, function)?;
            outlines.set(number, Some(outline));
            Ok(())
        }
    }
}

// What is known of the calls of functions, found in this order: that of called functions first.
fn outlines_of(
    alloc: Global,
    model: &Bound,
    order: &[u32],
) -> Result<Items<Option<Outline>>, AllocError>
    ensures { IfOk result (λ outlines. AreOutlines model.now outlines) }
{
    let unknown = vec![in alloc; None; model.functions.len()]?;
    let mut outlines = Items::from_vec(unknown);
    'functions: for f in order {
        find_outline(model, &mut outlines, *f)?;
    }
    Ok(outlines)
}

/// What is known of the calls of the functions of a model, by their numbers, where these are the weights of the functions.
///
/// # Errors
///
/// Out of memory where functions call one another in a circle, too, or where a call of one has more nodes than 64 bits hold.
pub fn find_outlines(
    alloc: Global,
    model: &Bound,
    weights: &[Weight],
) -> Result<Items<Option<Outline>>, AllocError>
    ensures { IfOk result (λ outlines. AreOutlines model.now outlines) }
{
    let order = callees_first(alloc, weights)?;
    outlines_of(alloc, model, order.as_slice())
}
