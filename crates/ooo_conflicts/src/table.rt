ghost use Rattle.std.specs.Prelude.{◌≡◌, ◌<◌, ◌≤◌, ◌↔◌, ℕ, List, length, All, Contains, IfOk};
ghost use Rattle.ooo_value.specs.declared.bound.BoundEvent.{BoundEvent as EventSpec};
ghost use Rattle.ooo_access.specs.Access.{AreAscending, IsInOrder};
ghost use Rattle.ooo_segments.specs.Beginnings.{greatest_segments};
ghost use Rattle.ooo_conflicts.specs.Clashing.{ClashesStrictly};
ghost use Rattle.ooo_conflicts.specs.Kinds.{AllCalled, AreCalled, AreListed, IsRow, IsTable, is_clash, kind_at};

use crate::called::{Called, all_called};
use crate::clashing::all_clashing;
use crate::kind::ClashKind;
use crate::kinds::kind_of;
use ooo_access::Access;
use ooo_code::Design;
use sqlite_items::Items;
use std::alloc::{AllocError, Global};
use std::marker::Model;

/// Of any two segments of a design, whether they clash, and of each segment those that clash strictly with it.
#[derive(Drop)]
pub struct ClashTable {
    rows: Vec<Items<ClashKind>>,
    // Of each segment those that clash strictly with it.
    clashing: Vec<Items<u32>>,
}

impl Model for ClashTable {
    ghost use Rattle.std.specs.Prelude.{List};
    ghost use Rattle.ooo_conflicts.specs.declared.kind.ClashKind.{ClashKind as KindSpec};
    ghost use Rattle.ooo_conflicts.specs.Clashing.{IsWhole};

    ghost Value = { List (List KindSpec) };

    ghost view = { λ t. t.rows.items };

    ghost invariant = { λ t. IsWhole t.rows.items t.clashing.items };
}

impl ClashTable {
    /// The table of the segments of a design, by their accesses, each in order.
    ///
    /// # Errors
    ///
    /// Only where memory runs out.
    pub fn make(alloc: Global, design: &Design, access: &[Access]) -> Result<ClashTable, AllocError>
        requires few { length access.now ≤ greatest_segments }
        requires in_order { All IsInOrder access.now }
        ensures count { IfOk result (λ t. length t ≡ length access.now) }
        ensures exact { IfOk result (IsTable design.now.events access.now) }
        ensures rows { IfOk result (All (λ row. length row ≡ length access.now)) }
    {
        let called = all_called(alloc, design.events.as_slice(), access)?;
        let called = called.as_slice();
        let mut rows = Vec::new(alloc);
        for (b, one) in access.iter().enumerate() {
            rows.push(row_of(alloc, one, &called[b], access, called)?)?;
        }
        let clashing = all_clashing(alloc, rows.as_slice())?;
        Ok(ClashTable { rows, clashing })
    }

    /// Whether segment `b` clashes with segment `g`: strictly, where `b` comes at an earlier stamp.
    pub fn clash(&self, b: u32, g: u32, strict: bool) -> bool
        requires first { b < length self.now }
        requires second { g < length self.now }
        ensures { result ≡ is_clash (kind_at self.now b g) strict }
    {
        let row = &self.rows[b as usize];
        row.as_slice()[g as usize].holds(strict)
    }

    /// The segments that clash with segment `g` strictly, where they come at an earlier stamp: each `b` for which
    /// `clash(b, g, true)` holds, ascending. The list was made with the table, so a call costs one look-up.
    pub fn clashing(&self, g: u32) -> &[u32]
        requires { g < length self.now }
        ensures exact { (b : ℕ) → Contains result.now b ↔ ClashesStrictly self.now b g }
        ensures ascending { AreAscending result.now }
    {
        self.clashing[g as usize].as_slice()
    }
}

// The row of a segment.
fn row_of(
    alloc: Global,
    b: &Access,
    b_calls: &Called,
    access: &[Access],
    called: &[Called],
) -> Result<Items<ClashKind>, AllocError>
    requires first { IsInOrder b.now }
    requires first_calls { AreListed b_calls.now }
    requires in_order { All IsInOrder access.now }
    requires listed { All AreListed called.now }
    requires count { length called.now ≡ length access.now }
    ensures count { IfOk result (λ row. length row ≡ length access.now) }
    ensures kinds { (events : List EventSpec) → AreCalled events b.now b_calls.now →
        AllCalled events access.now called.now → IfOk result (IsRow events b.now access.now) }
{
    let mut row = Items::new(alloc);
    for (g, other) in access.iter().enumerate() {
        row.push(kind_of(b, b_calls, other, &called[g]))?;
    }
    Ok(row)
}
