ghost use Rattle.std.specs.Prelude.{◌≡◌, ◌++◌, length, map, slice_get, IfOk, OnOk};
ghost use Rattle.std.specs.Option.{unwrap_or};
ghost use Rattle.ooo_syntax.specs.declared.expr.Expr.{out-Expr};
ghost use Rattle.ooo_syntax.specs.declared.module.Init.{Init};
ghost use Rattle.ooo_checked.specs.Notes.{all_notes, trees};
ghost use Rattle.ooo_checked.specs.Scopes.{left, meaning_of, unknown};
ghost use Rattle.ooo_bodies.specs.Noting.{noted};
ghost use Rattle.ooo_members.specs.Args.{args_of};
ghost use Rattle.ooo_members.specs.Constructors.{behind_constructor, constructor_notes, constructor_of, head_of, init_of};
ghost use Rattle.ooo_members.specs.Constructors.{inits_with, named_of, written_of};
ghost use Rattle.ooo_members.specs.Constructors.{is_initialisable, is_module_name, is_own_name, member_init_notes};
ghost use Rattle.ooo_members.specs.Constructors.{name_due_notes, name_step, own_name_notes, params_by, setups_of};

use crate::args::{args, is_form_of};
use crate::bodies::{name, params};
use crate::known::{ModuleFacts, Sofar, Surroundings, UNKNOWN, module_at};
use crate::setups::setups;
use ooo_bodies::copies::copy_word;
use ooo_bodies::exprs::expr;
use ooo_bodies::notes::Notes;
use ooo_checked::{
    CheckedArg, CheckedConstructor, CheckedInit, CheckedParam, CheckedSetup, Denotation, Resolved,
    Thing, TypeBreach,
};
use ooo_lexer::Position;
use ooo_scopes::Scopes;
use ooo_syntax::{Arg, Constructor, Expr, Init, Param, Setup, Word};
use sqlite_items::Items;
use std::alloc::{AllocError, Global};

// Whether a member that is this thing may be initialised.
fn is_initialisable(thing: Thing) -> bool
    ensures { result ≡ is_initialisable thing }
{
    matches!(
        thing,
        Thing::Variable(_)
            | Thing::Fixed(_, false)
            | Thing::Signal(_)
            | Thing::Fifo(_)
            | Thing::SignalPort(_, _)
            | Thing::FifoIn(_)
            | Thing::FifoOut(_)
            | Thing::Event
            | Thing::Instance(_)
    )
}

// How many parameters the constructor of a child's module has.
fn params_by(modules: &[Option<ModuleFacts>], thing: Thing) -> Option<usize>
    ensures { result ≡ params_by modules.now thing }
{
    match thing {
        Thing::Instance(number) => match module_at(modules, number) {
            Some(facts) => Some(facts.params),
            None => None,
        },
        _ => None,
    }
}

// Notes a member's initialiser, whose name denotes this thing.
#[tactic(auto, using(ooo_bodies::specs::Noting::noted_append))]
fn note_member_init(modules: &[Option<ModuleFacts>], init: &Init, thing: Thing, notes: &mut Notes)
    ensures { notes.new ≡ noted notes.old (member_init_notes modules.now init.now thing) }
{
    let at = init.name.position;
    let is_right = is_initialisable(thing);
    notes.name(thing, is_right, at);
    let has_form = is_form_of(thing, params_by(modules, thing), init.args.as_slice());
    notes.breaks_when(is_right && !has_form, TypeBreach::WrongCount, at);
}

// Whether a thing is the name that a module is given.
fn is_module_name(thing: Thing) -> bool
    ensures { result ≡ is_module_name thing }
{
    matches!(thing, Thing::ModuleName)
}

// Whether an expression is the name that the module is given.
fn names_module(e: &Expr, scopes: &Scopes) -> bool
    ensures { result ≡ name_step (out-Expr e.now) scopes.now }
{
    match e {
        Expr::Name(word) => is_module_name(scopes.denotes(word.name.as_bytes()).thing),
        _ => false,
    }
}

// Notes an expression that stands where the name of the module is due.
#[tactic(auto, using(ooo_bodies::specs::Noting::noted_append))]
fn note_name_due(
    alloc: Global,
    e: &Expr,
    scopes: &Scopes,
    notes: &mut Notes,
) -> Result<(), AllocError>
    ensures { OnOk result (notes.new ≡ noted notes.old (name_due_notes e.now scopes.now)) }
{
    if names_module(e, scopes) {
        return Ok(());
    }
    let tree = got!(expr(alloc, e, scopes, notes));
    notes.breaks(TypeBreach::WrongKind, tree.first());
    drop(tree);
    Ok(())
}

// Notes what `sc_module` is given.
fn note_own_name(
    alloc: Global,
    args: &[Arg],
    at: Position,
    scopes: &Scopes,
    notes: &mut Notes,
) -> Result<(), AllocError>
    ensures { OnOk result (notes.new ≡ noted notes.old (own_name_notes args.now at scopes.now)) }
{
    match args {
        [Arg::Text(_)] => Ok(()),
        [Arg::Value(e)] => note_name_due(alloc, e.get(), scopes, notes),
        _ => {
            notes.breaks(TypeBreach::WrongCount, at);
            Ok(())
        }
    }
}

// Whether a word is `sc_module`.
fn is_own_name(word: &Word) -> bool
    ensures { result ≡ is_own_name word.now }
{
    word.name.as_bytes() == b"sc_module".as_slice()
}

// Arguments of which nothing is noted.
fn args_unnoted(
    alloc: Global,
    given: &Items<Arg>,
    scopes: &Scopes,
) -> Result<Items<CheckedArg>, AllocError>
    ensures { IfOk result (λ all. all ≡ trees (args_of given.now scopes.now)) }
{
    let mut notes = Notes::new(alloc);
    let all = args(alloc, given, scopes, &mut notes);
    drop(notes);
    all
}

// The initialiser of `sc_module`.
fn own_init(
    alloc: Global,
    init: &Init,
    scopes: &Scopes,
    notes: &mut Notes,
) -> Result<CheckedInit, AllocError>
    ensures tree { IfOk result (λ tree. tree ≡ record {
      name = record { word = init.now.name; denotes = unknown };
      args = trees (args_of init.now.args scopes.now);
    }) }
    ensures notes { OnOk result (notes.new ≡ noted notes.old
        (own_name_notes init.now.args init.now.name.position scopes.now)) }
{
    note_own_name(
        alloc,
        init.args.as_slice(),
        init.name.position,
        scopes,
        notes,
    )?;
    let args = got!(args_unnoted(alloc, &init.args, scopes));
    let name = Resolved {
        word: keeping!(args; copy_word(alloc, &init.name)),
        denotes: UNKNOWN,
    };
    Ok(CheckedInit { name, args })
}

// An initialiser, whose name denotes this in the module.
#[tactic(auto, using(ooo_bodies::specs::Noting::noted_append))]
fn init(
    alloc: Global,
    modules: &[Option<ModuleFacts>],
    denotes: Denotation,
    init: &Init,
    scopes: &Scopes,
    notes: &mut Notes,
) -> Result<CheckedInit, AllocError>
    ensures tree { IfOk result (λ tree.
        tree ≡ (init_of modules.now denotes init.now scopes.now).tree) }
    ensures notes { OnOk result (notes.new
        ≡ noted notes.old (init_of modules.now denotes init.now scopes.now).notes) }
{
    if is_own_name(&init.name) {
        return own_init(alloc, init, scopes, notes);
    }
    note_member_init(modules, init, denotes.thing, notes);
    let args = got!(args(alloc, &init.args, scopes, notes));
    let name = Resolved {
        word: keeping!(args; copy_word(alloc, &init.name)),
        denotes,
    };
    Ok(CheckedInit { name, args })
}

// What the names of initialisers denote in the module.
fn denotations(
    alloc: Global,
    inits: &Items<Init>,
    scopes: &Scopes,
) -> Result<Items<Denotation>, AllocError>
    ensures { IfOk result (λ all.
        all ≡ map (λ (i : Init). meaning_of scopes.now i.name.name) inits.now) }
{
    let mut all = Items::new(alloc);
    'parts: for e in inits.as_slice() {
        let denotes = scopes.denotes(e.name.name.as_bytes());
        keeping!(all; all.push(denotes));
    }
    Ok(all)
}

// What the name of the initialiser at a place denotes.
fn meant(denotations: &Items<Denotation>, place: usize) -> Denotation
    ensures { result ≡ unwrap_or (slice_get denotations.now place) unknown }
{
    match denotations.get(place) {
        Some(denotes) => *denotes,
        None => UNKNOWN,
    }
}

// Initialisers one after the other, with what their names denote in the module.
fn inits(
    alloc: Global,
    modules: &[Option<ModuleFacts>],
    denotations: &Items<Denotation>,
    inits: &Items<Init>,
    scopes: &Scopes,
    notes: &mut Notes,
) -> Result<Items<CheckedInit>, AllocError>
    requires { length denotations.now ≡ length inits.now }
    ensures trees { IfOk result (λ all.
        all ≡ trees (inits_with modules.now denotations.now inits.now scopes.now)) }
    ensures notes { OnOk result (notes.new ≡ noted notes.old
        (all_notes (inits_with modules.now denotations.now inits.now scopes.now))) }
{
    let mut all = Items::new(alloc);
    let mut i = 0;
    'parts: for e in inits.as_slice() {
        let denotes = meant(denotations, i);
        let made = keeping!(all; init(alloc, modules, denotes, e, scopes, notes));
        keeping!(all; all.push(made));
        i += 1;
    }
    Ok(all)
}

// A constructor without its parameters: the word that names it, what it initialises, and what it sets up.
#[derive(Clone, Copy)]
struct Text<'a> {
    word: &'a Word,
    inits: &'a Items<Init>,
    statements: &'a Items<Setup>,
}

// The parameters of a constructor: the name that the module is given, and the others.
#[derive(Clone, Copy)]
struct Params<'a> {
    own_name: &'a Word,
    others: &'a Items<Param>,
}

// What a constructor initialises and sets up.
#[derive(Drop)]
struct Inside {
    inits: Items<CheckedInit>,
    setups: Items<CheckedSetup>,
}

// Notes the word that names a constructor.
#[tactic(auto, using(ooo_bodies::specs::Noting::noted_append))]
fn note_constructor(module_name: &[u8], is_again: bool, word: &Word, notes: &mut Notes)
    ensures { notes.new ≡ noted notes.old (constructor_notes module_name.now is_again word.now) }
{
    notes.breaks_when(is_again, TypeBreach::DeclaredTwice, word.position);
    let is_named_so = word.name.as_bytes() == module_name;
    notes.breaks_when(!is_named_so, TypeBreach::WrongKind, word.position);
}

// The parameters of a constructor, with what they declare.
#[derive(Drop)]
struct Head {
    own_name: Resolved,
    params: Items<CheckedParam>,
}

// The parameters of a constructor, which stand in a block of their own.
#[tactic(auto, using(ooo_bodies::specs::Noting::noted_append))]
fn read_head(
    alloc: Global,
    all: Params<'_>,
    scopes: &mut Scopes,
    notes: &mut Notes,
) -> Result<Head, AllocError>
    ensures tree { IfOk result (λ head. (head.own_name, head.params)
        ≡ (head_of all.entry.own_name.now all.entry.others.now scopes.old).tree) }
    ensures scope { OnOk result (scopes.new
        ≡ (head_of all.entry.own_name.now all.entry.others.now scopes.old).scope) }
    ensures notes { OnOk result (notes.new ≡ noted notes.old
        (head_of all.entry.own_name.now all.entry.others.now scopes.old).notes) }
    ensures outer { OnOk result (left scopes.new ≡ scopes.old) }
{
    let outside = scopes.size();
    scopes.enter()?;
    let own_name = name(
        alloc,
        outside,
        Thing::ModuleName,
        all.own_name,
        scopes,
        notes,
    )?;
    let params = keeping!(own_name; params(alloc, outside, all.others, scopes, notes));
    Ok(Head { own_name, params })
}

impl Surroundings<'_> {
    // What stands behind the parameters of a constructor.
    #[tactic(auto, using(ooo_bodies::specs::Noting::noted_append))]
    fn inside(
        self,
        denotations: &Items<Denotation>,
        text: Text<'_>,
        scopes: &Scopes,
        sofar: &mut Sofar,
        notes: &mut Notes,
    ) -> Result<Inside, AllocError>
        requires { length denotations.now ≡ length text.inits.now }
        ensures inits { IfOk result (λ inside. inside.inits ≡ trees (inits_with
            self.entry.modules.now denotations.now text.entry.inits.now scopes.now)) }
        ensures setups { IfOk result (λ inside. inside.setups ≡ (setups_of
            self.entry.modules.now scopes.now text.entry.statements.now sofar.old).tree) }
        ensures behind { OnOk result (sofar.new ≡ behind_constructor (setups_of
            self.entry.modules.now scopes.now text.entry.statements.now sofar.old).behind) }
        ensures notes { OnOk result (notes.new ≡ noted notes.old (all_notes (inits_with
            self.entry.modules.now denotations.now text.entry.inits.now scopes.now)
            ++ (setups_of self.entry.modules.now scopes.now
            text.entry.statements.now sofar.old).notes)) }
    {
        let inits = inits(
            self.alloc,
            self.modules,
            denotations,
            text.inits,
            scopes,
            notes,
        )?;
        let setups = keeping!(inits; setups(
            self.alloc,
            self.modules,
            text.statements,
            scopes,
            sofar,
            notes,
        ));
        sofar.has_constructor = true;
        Ok(Inside { inits, setups })
    }

    // `SC_CTOR`
    #[tactic(auto, using(ooo_bodies::specs::Noting::noted_append))]
    fn named(
        self,
        text: Text<'_>,
        scopes: &mut Scopes,
        sofar: &mut Sofar,
        notes: &mut Notes,
    ) -> Result<CheckedConstructor, AllocError>
        ensures tree { IfOk result (λ tree. tree ≡ (named_of self.entry.modules.now
            text.entry.word.now text.entry.inits.now text.entry.statements.now
            scopes.old sofar.old).tree) }
        ensures behind { OnOk result (sofar.new ≡ (named_of self.entry.modules.now
            text.entry.word.now text.entry.inits.now text.entry.statements.now
            scopes.old sofar.old).behind) }
        ensures notes { OnOk result (notes.new ≡ noted notes.old (named_of self.entry.modules.now
            text.entry.word.now text.entry.inits.now text.entry.statements.now
            scopes.old sofar.old).notes) }
        ensures scope { OnOk result (scopes.new ≡ scopes.old) }
    {
        let names = denotations(self.alloc, text.inits, scopes)?;
        let word = keeping!(names; copy_word(self.alloc, text.word));
        keeping!(names, word; scopes.enter());
        let inside = keeping!(names, word; self.inside(&names, text, scopes, sofar, notes));
        drop(names);
        scopes.leave();
        Ok(CheckedConstructor::Named(word, inside.inits, inside.setups))
    }

    // A constructor with parameters.
    #[tactic(auto, using(ooo_bodies::specs::Noting::noted_append))]
    fn written(
        self,
        text: Text<'_>,
        params: Params<'_>,
        scopes: &mut Scopes,
        sofar: &mut Sofar,
        notes: &mut Notes,
    ) -> Result<CheckedConstructor, AllocError>
        ensures tree { IfOk result (λ tree. tree ≡ (written_of self.entry.modules.now
            text.entry.word.now params.entry.own_name.now params.entry.others.now
            text.entry.inits.now text.entry.statements.now scopes.old sofar.old).tree) }
        ensures behind { OnOk result (sofar.new ≡ (written_of self.entry.modules.now
            text.entry.word.now params.entry.own_name.now params.entry.others.now
            text.entry.inits.now text.entry.statements.now scopes.old sofar.old).behind) }
        ensures notes { OnOk result (notes.new ≡ noted notes.old (written_of
            self.entry.modules.now text.entry.word.now params.entry.own_name.now
            params.entry.others.now text.entry.inits.now text.entry.statements.now
            scopes.old sofar.old).notes) }
        ensures scope { OnOk result (scopes.new ≡ scopes.old) }
    {
        let names = denotations(self.alloc, text.inits, scopes)?;
        let word = keeping!(names; copy_word(self.alloc, text.word));
        let head = keeping!(names, word; read_head(self.alloc, params, scopes, notes));
        let inside = keeping!(names, word, head; self.inside(&names, text, scopes, sofar, notes));
        drop(names);
        scopes.leave();
        let Head { own_name, params } = head;
        Ok(CheckedConstructor::Written(word, own_name, params, inside.inits, inside.setups))
    }

    /// A constructor, whose parameters stand in a block of their own.
    ///
    /// # Errors
    ///
    /// Only where memory runs out; what was noted until then is kept.
    #[tactic(auto, using(ooo_bodies::specs::Noting::noted_append))]
    pub fn constructor(
        self,
        constructor: &Constructor,
        scopes: &mut Scopes,
        sofar: &mut Sofar,
        notes: &mut Notes,
    ) -> Result<CheckedConstructor, AllocError>
        ensures tree { IfOk result (λ tree. tree ≡ (constructor_of self.entry.modules.now
            self.entry.module_name.now scopes.old constructor.now sofar.old).tree) }
        ensures behind { OnOk result (sofar.new ≡ (constructor_of self.entry.modules.now
            self.entry.module_name.now scopes.old constructor.now sofar.old).behind) }
        ensures notes { OnOk result (notes.new ≡ noted notes.old (constructor_of
            self.entry.modules.now self.entry.module_name.now scopes.old
            constructor.now sofar.old).notes) }
        ensures scope { OnOk result (scopes.new ≡ scopes.old) }
    {
        match constructor {
            Constructor::Named(word, inits, statements) => {
                let text = Text {
                    word,
                    inits,
                    statements,
                };
                note_constructor(self.module_name, sofar.has_constructor, word, notes);
                self.named(text, scopes, sofar, notes)
            }
            Constructor::Written(word, own_name, others, inits, statements) => {
                let text = Text {
                    word,
                    inits,
                    statements,
                };
                let params = Params { own_name, others };
                note_constructor(self.module_name, sofar.has_constructor, word, notes);
                self.written(text, params, scopes, sofar, notes)
            }
        }
    }
}
