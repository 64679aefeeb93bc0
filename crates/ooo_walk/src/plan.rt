ghost use Rattle.std.specs.Prelude.{◌≡◌, [], ◌∷◌, ◌++◌, IfOk, OnOk, Some, length, None, replicate, slice_get};
ghost use Rattle.std.specs.Option.{option_copied};
ghost use Rattle.ooo_walk.specs.Plans.{args_in, as_constructor, constructor_at, constructor_from, counted_from, counted_with, filed};
ghost use Rattle.ooo_walk.specs.Plans.{function_at, init_args, init_placed, inits_of, member_placed};
ghost use Rattle.ooo_walk.specs.Plans.{members_in, names_in, params_of, places_from, plan_of};
ghost use Rattle.ooo_walk.specs.Plans.{plans_from, setups_of, view_at, view_by, viewed};

use ooo_checked::{
    CheckedArg, CheckedConstructor, CheckedFunction, CheckedInit, CheckedMember, CheckedParam,
    CheckedSetup, CheckedUnitItem, Thing,
};
use sqlite_items::Items;
use std::alloc::{AllocError, Global};

/// Where the parts of a module stand. A constant of the file has an empty one.
#[derive(Drop)]
pub struct Plan {
    /// The place of the module among the declarations of the file.
    pub item: usize,
    /// Of each name that the module declares, the place of the member that declares it.
    pub places: Items<usize>,
    /// The place of the constructor among the members.
    pub constructor: Option<usize>,
    /// Of each name, the place of the initialiser that counts, if it has one: the last.
    pub inits: Items<Option<usize>>,
}

/// The declarations of the file, and of each name of the file where the parts of its module stand.
#[derive(Clone, Copy)]
pub struct Modules<'a> {
    pub items: &'a [CheckedUnitItem],
    pub plans: &'a [Plan],
}

/// A module: its members, where they stand, and the parts of its constructor.
#[derive(Clone, Copy)]
pub struct View<'a> {
    pub members: &'a [CheckedMember],
    /// Of each name that the module declares, the place of the member that declares it.
    pub places: &'a [usize],
    /// The constructor's parameters behind the module's name.
    pub params: &'a [CheckedParam],
    pub inits: &'a [CheckedInit],
    pub setups: &'a [CheckedSetup],
    /// Of each name, the place of the initialiser that counts, if it has one.
    pub counts: &'a [Option<usize>],
}

// How many names a member declares.
pub(crate) fn names_in(member: &CheckedMember) -> usize
    ensures { result ≡ names_in member.now }
{
    match member {
        CheckedMember::Public | CheckedMember::HasProcess(_) | CheckedMember::Constructor(_) => 0,
        CheckedMember::Constant(_) | CheckedMember::Function(_) => 1,
        CheckedMember::Fields(fields) => fields.fields.len(),
        CheckedMember::Ports(ports) => ports.names.len(),
        CheckedMember::Clocks(names) | CheckedMember::Events(names) => names.len(),
        CheckedMember::Channels(channels) => channels.parts.len(),
        CheckedMember::Children(children) => children.parts.len(),
    }
}

// Of each name that members declare, the place of its member.
fn places(alloc: Global, members: &[CheckedMember]) -> Result<Items<usize>, AllocError>
    ensures { IfOk result (λ all. all ≡ places_from 0 members.now) }
{
    let mut all = Items::new(alloc);
    'parts: for (place, e) in members.iter().enumerate() {
        let more = keeping!(all; Vec::from_elem(alloc, place, names_in(e)));
        keeping!(all; all.append(Items::from_vec(more)));
    }
    Ok(all)
}

// The place of the last constructor among members.
fn constructor_place(members: &[CheckedMember]) -> Option<usize>
    ensures { result ≡ constructor_from None 0 members.now }
{
    let mut found = None;
    'parts: for (place, e) in members.iter().enumerate() {
        if let CheckedMember::Constructor(_) = e {
            found = Some(place);
        }
    }
    found
}

// A member as a constructor, if it is one.
fn as_constructor(member: Option<&CheckedMember>) -> Option<&CheckedConstructor>
    ensures { option_copied result ≡ as_constructor (option_copied member.entry) }
{
    match member {
        Some(CheckedMember::Constructor(constructor)) => Some(constructor),
        _ => None,
    }
}

// The constructor at a place.
fn constructor_at(members: &[CheckedMember], place: Option<usize>) -> Option<&CheckedConstructor>
    ensures { option_copied result ≡ constructor_at members.now place }
{
    match place {
        Some(place) => as_constructor(members.get(place)),
        None => None,
    }
}

// The parameters of a constructor behind the module's name.
fn params_of(constructor: Option<&CheckedConstructor>) -> &[CheckedParam]
    ensures { result.now ≡ params_of (option_copied constructor.entry) }
{
    match constructor {
        Some(CheckedConstructor::Written(_, _, params, _, _)) => params.as_slice(),
        _ => &[],
    }
}

// What a constructor initialises.
fn inits_of(constructor: Option<&CheckedConstructor>) -> &[CheckedInit]
    ensures { result.now ≡ inits_of (option_copied constructor.entry) }
{
    match constructor {
        None => &[],
        Some(CheckedConstructor::Named(_, inits, _))
        | Some(CheckedConstructor::Written(_, _, _, inits, _)) => inits.as_slice(),
    }
}

// What a constructor sets up.
fn setups_of(constructor: Option<&CheckedConstructor>) -> &[CheckedSetup]
    ensures { result.now ≡ setups_of (option_copied constructor.entry) }
{
    match constructor {
        None => &[],
        Some(CheckedConstructor::Named(_, _, setups))
        | Some(CheckedConstructor::Written(_, _, _, _, setups)) => setups.as_slice(),
    }
}

// Sets the place of an initialiser for its name, if it is there.
fn count_init(init: &CheckedInit, place: usize, table: &mut Items<Option<usize>>)
    ensures { table.new ≡ counted_with init.now place table.old }
{
    if let Thing::Nothing = init.name.denotes.thing {
        return;
    }
    if init.name.denotes.number < table.len() {
        table.set(init.name.denotes.number, Some(place));
    }
}

// Of each of so many names, the place of the initialiser that counts.
fn count_inits(
    alloc: Global,
    names: usize,
    inits: &[CheckedInit],
) -> Result<Items<Option<usize>>, AllocError>
    ensures { IfOk result (λ table. table ≡ counted_from (replicate names None) 0 inits.now) }
{
    let mut table = Items::from_vec(Vec::from_elem(alloc, None, names)?);
    'parts: for (place, e) in inits.iter().enumerate() {
        count_init(e, place, &mut table);
    }
    Ok(table)
}

// Where the parts of a module with these members stand, which is declared at this place of the file.
fn planned(alloc: Global, item: usize, members: &[CheckedMember]) -> Result<Plan, AllocError>
    ensures { IfOk result (λ plan. plan ≡ plan_of item members.now) }
{
    let places = places(alloc, members)?;
    let constructor = constructor_place(members);
    let inits = inits_of(constructor_at(members, constructor));
    let inits = keeping!(places; count_inits(alloc, places.len(), inits));
    Ok(Plan {
        item,
        places,
        constructor,
        inits,
    })
}

// Adds where the parts of a module with these members stand, which is declared at this place of the file.
fn add_plan(
    alloc: Global,
    item: usize,
    members: &[CheckedMember],
    all: &mut Items<Plan>,
) -> Result<(), AllocError>
    ensures { OnOk result (all.new ≡ all.old ++ plan_of item members.now ∷ []) }
{
    let plan = got!(planned(alloc, item, members));
    all.push(plan)
}

/// Of each name that the file declares, where the parts of its module stand.
///
/// # Errors
///
/// Only where memory runs out.
pub fn plans(alloc: Global, items: &[CheckedUnitItem]) -> Result<Items<Plan>, AllocError>
    ensures { IfOk result (λ plans. plans ≡ plans_from 0 items.now) }
{
    let mut all = Items::new(alloc);
    'parts: for (place, e) in items.iter().enumerate() {
        match e {
            CheckedUnitItem::Using(_) => {}
            CheckedUnitItem::Constant(_) => {
                keeping!(all; add_plan(alloc, place, &[], &mut all));
            }
            CheckedUnitItem::Module(module) => {
                keeping!(all; add_plan(alloc, place, module.members.as_slice(), &mut all));
            }
        }
    }
    Ok(all)
}

// A module by its plan.
fn view_by<'a>(members: &'a [CheckedMember], plan: &'a Plan) -> View<'a>
    ensures { viewed result ≡ view_by members.now plan.now }
{
    let constructor = constructor_at(members, plan.constructor);
    View {
        members,
        places: plan.places.as_slice(),
        params: params_of(constructor),
        inits: inits_of(constructor),
        setups: setups_of(constructor),
        counts: plan.inits.as_slice(),
    }
}

// The members of a declaration, if it is a module.
fn members_in(item: Option<&CheckedUnitItem>) -> &[CheckedMember]
    ensures { result.now ≡ members_in (option_copied item.entry) }
{
    match item {
        Some(CheckedUnitItem::Module(module)) => module.members.as_slice(),
        _ => &[],
    }
}

impl<'a> Modules<'a> {
    /// The module of this number among the names of the file; of another name nothing.
    pub fn view(self, number: usize) -> View<'a>
        ensures { viewed result ≡ view_at (filed self.entry) number }
    {
        match self.plans.get(number) {
            Some(plan) => view_by(members_in(self.items.get(plan.item)), plan),
            None => View {
                members: &[],
                places: &[],
                params: &[],
                inits: &[],
                setups: &[],
                counts: &[],
            },
        }
    }
}

impl<'a> View<'a> {
    // The member that declares the name of this number.
    fn member(self, number: usize) -> Option<&'a CheckedMember>
        ensures { option_copied result ≡ member_placed self.entry.members.now
            (slice_get self.entry.places.now number) }
    {
        match self.places.get(number) {
            Some(place) => self.members.get(*place),
            None => None,
        }
    }

    /// The function of this number among the names of the module, if it is one.
    pub fn function(self, number: usize) -> Option<&'a CheckedFunction>
        ensures { option_copied result ≡ function_at (viewed self.entry) number }
    {
        match self.member(number) {
            Some(CheckedMember::Function(function)) => Some(function),
            _ => None,
        }
    }

    // The initialiser of the name of this number that counts.
    fn init(self, number: usize) -> Option<&'a CheckedInit>
        ensures { option_copied result ≡ init_placed self.entry.inits.now
            (slice_get self.entry.counts.now number) }
    {
        match self.counts.get(number) {
            Some(Some(place)) => self.inits.get(*place),
            _ => None,
        }
    }

    /// What the initialiser of the name of this number is given; nothing where it has none.
    pub fn init_args(self, number: usize) -> &'a [CheckedArg]
        ensures { result.now ≡ init_args (viewed self.entry) number }
    {
        match self.init(number) {
            Some(init) => init.args.as_slice(),
            None => &[],
        }
    }
}
