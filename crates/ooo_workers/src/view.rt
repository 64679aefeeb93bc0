//! The rule of the table, and what each step tells.

ghost use Rattle.ooo_workers.specs.Rule.{Ruled, both_of, first_view, freed, noted_on, pass_left, pass_rest, spent_view, stepped_on, tried};

use crate::board_box::BoardBox;
use atomic_table::{Join, Play, Seat, Split, TableRule};
use ooo_board::Board;
use ooo_dispatch::Step;
use std::collections::LinkedList;
use std::marker::Model;
use std::snapshot::Snapshot;

/// What a pass knows. No value of it is made.
pub struct View {
    /// Its numbers are `number`, and the `parts - 1` after it.
    pub number: u32,
    /// 0 once it was joined to another one.
    pub parts: u32,
    /// The board as it was seen last.
    pub known: Board,
    /// The steps that it made.
    pub made: LinkedList<Step>,
    /// The process whose job is out with it.
    pub out: Option<u32>,
    /// Whether it holds the turn.
    pub turn: bool,
    /// What those had seen that were joined to it.
    pub heard: LinkedList<Board>,
}

/// What the table is told as it is made.
#[derive(Drop)]
pub struct Origin {
    pub board: Snapshot<Board>,
    pub passes: u32,
}

/// The rule of the table.
pub struct Law;

impl TableRule<Option<BoardBox>, View, Origin> for Law {
    ghost holds = { λ key. Ruled key.passes };

    ghost first = { first_view };
}

/// What a caller steps with.
pub type Place = Seat<Option<BoardBox>, View>;

// One number stays, and the rest goes.
pub(crate) struct Cut;

impl Split<View> for Cut {
    ghost left = { pass_left };

    ghost right = { pass_rest };
}

// One pass is joined to another.
pub(crate) struct Glue;

impl Join<View> for Glue {
    ghost both = { both_of };

    ghost spent = { spent_view };
}

// The turn is tried.
pub(crate) struct Try;

impl Play<Option<BoardBox>, View> for Try {
    ghost then = { tried };
}

// The turn is let go, with the board as it was.
pub(crate) struct Free;

impl Play<Option<BoardBox>, View> for Free {
    ghost then = { freed };
}

// A step was made, and the turn is kept.
pub(crate) struct Note;

impl Play<Option<BoardBox>, View> for Note {
    ghost then = { noted_on };
}

// A step was made, and the turn is let go.
pub(crate) struct FreeAfter;

impl Play<Option<BoardBox>, View> for FreeAfter {
    ghost then = { stepped_on };
}

/// The token of one caller of a yard.
#[derive(Drop)]
pub struct Pass {
    pub(crate) place: Place,
    // The process whose job is out with it.
    pub(crate) out: Option<u32>,
}

impl Model for Pass {
    ghost use Rattle.std.specs.Prelude.{◌≡◌, false, []};
    ghost use Rattle.std.specs.Coded.{codes};
    ghost use Rattle.ooo_code.specs.contracts.expression.NodeExpr as e;
    ghost use Rattle.ooo_workers.specs.Passes.{PassIs, pass_of};

    ghost Value = { PassIs };

    ghost coded = { Prim.hlevel (codes, e.the_row.coded) };

    ghost view = { λ p. pass_of p.place.table_id p.place.me.0 };

    ghost invariant = { λ p. (p.place.me.1 ≡ []) × (p.place.me.0.parts ≡ 1)
        × (p.place.me.0.turn ≡ false) × (p.place.me.0.heard ≡ [])
        × (p.place.me.0.out ≡ p.out) };
}
