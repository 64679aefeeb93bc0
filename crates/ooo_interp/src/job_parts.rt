ghost use Rattle.std.specs.Prelude.{◌≡◌, ◌<◌, ◌+◌, ℕ, [], length, IsTrue, slice_get, slice_set, unwrap_or, None, Some, MatchOption, All, IsSomeAnd, is_some};
ghost use Rattle.ooo_code.specs.Expressions.{cells_of};
ghost use Rattle.ooo_interp.specs.Carrying.{IsAscending, StandInOrder, all_cells, listed, numbers_of, with_listed};

use crate::parts::Lent;
use crate::ports::Ports;
use crate::seen_fifos::SeenFifos;
use ooo_code::Cells;
use ooo_value::Value;
use sqlite_items::Items;

/// Parts that a job carries: the locals, the variables that it may change and those that it only reads, and a port for
/// each channel that it sees.
#[derive(Drop)]
pub struct JobParts {
    pub slots: Items<Value>,
    pub owned: Vec<(u32, Cells)>,
    pub copied: Vec<(u32, Cells)>,
    pub ports: Ports,
    pub fifos: SeenFifos,
    /// How many variables the design has.
    pub count: usize,
    /// The number of the first variable that may be changed.
    pub first: u32,
    /// So many of those that may be changed, from the first one on, have numbers one after another: such a one stands as
    /// far on as its number is above the first.
    pub in_order: usize,
    ghost owned_in_order: { StandInOrder first in_order owned.items },
    ghost owned_ascending: { IsAscending owned.items },
    ghost copied_ascending: { IsAscending copied.items },
    ghost owned_below: { All (λ c. c.0 < count) owned.items },
}

impl Lent for JobParts {
    ghost use Rattle.std.specs.Prelude.{ℕ, List};
    ghost use Rattle.ooo_interp.specs.Carrying.{all_cells, numbers_of};
    ghost use Rattle.ooo_interp.specs.Ports.{all_shown, values_in};

    ghost sight = { λ p. record {
      slots = p.slots;
      variables = all_cells p.count p.owned.items p.copied.items;
      seen = all_shown (values_in p.fifos.seen.items) p.ports;
    } };

    ghost Kept = { List ℕ × ℕ };

    ghost kept = { λ p. (numbers_of p.owned.items, p.count) };

    fn slots(&self) -> &[Value] {
        self.slots.as_slice()
    }

    #[inline(always)]
    fn cells(&self, variable: u32) -> &[Value] {
        let at = variable.wrapping_sub(self.first) as usize;
        if at < self.in_order {
            return self.owned[at].1.as_slice();
        }
        self.cells_elsewhere(variable)
    }

    fn signal(&self, channel: u32) -> (Value, bool) {
        self.ports.signal(channel)
    }

    fn first(&self, channel: u32) -> Option<Value> {
        match self.ports.fifo(channel) {
            Some(fifo) => fifo.first(&self.fifos),
            None => None,
        }
    }

    fn available(&self, channel: u32) -> i32 {
        match self.ports.fifo(channel) {
            Some(fifo) => fifo.available(&self.fifos),
            None => 0,
        }
    }

    fn free(&self, channel: u32) -> i32 {
        match self.ports.fifo(channel) {
            Some(fifo) => fifo.free(),
            None => 0,
        }
    }

    fn set_slot(&mut self, slot: u32, v: Value) {
        set_item(&mut self.slots, slot as usize, v);
    }

    #[inline(always)]
    fn set_cell(&mut self, variable: u32, at: usize, v: Value) {
        let place = variable.wrapping_sub(self.first) as usize;
        if place < self.in_order {
            set_at(&mut self.owned, place, at, v);
            return;
        }
        // A copy is lent: the value itself would then be written to the stack for each change.
        let value = v;
        self.set_elsewhere(variable, at, &value);
    }

    fn take(&mut self, channel: u32) {
        self.ports.take(channel, &self.fifos);
    }

    fn put(&mut self, channel: u32) {
        self.ports.put(channel);
    }
}

impl JobParts {
    // The elements of a variable, wherever it stands. It is one short call, since it stands at each place where a variable is
    // read.
    #[inline(never)]
    fn cells_elsewhere(&self, variable: u32) -> &[Value]
        ensures { result.now ≡ cells_of
            (all_cells self.now.count self.now.owned.items self.now.copied.items) variable }
    {
        if variable as usize >= self.count {
            return &[];
        }
        cells_in_either(&self.owned, &self.copied, variable)
    }

    // Gives an element of a variable a value, wherever the variable stands.
    #[inline(never)]
    fn set_elsewhere(&mut self, variable: u32, at: usize, v: &Value)
        ensures set { let before = all_cells self.old.count self.old.owned.items self.old.copied.items in
            all_cells self.new.count self.new.owned.items self.new.copied.items
            ≡ slice_set before variable (slice_set (cells_of before variable) at v.now) }
        ensures slots { self.new.slots ≡ self.old.slots }
        ensures ports { self.new.ports ≡ self.old.ports }
        ensures fifos { self.new.fifos ≡ self.old.fifos }
        ensures numbers { numbers_of self.new.owned.items ≡ numbers_of self.old.owned.items }
        ensures count { self.new.count ≡ self.old.count }
    {
        if set_by_search(&mut self.owned, variable, at, v) {
            return;
        }
        if (variable as usize) < self.count {
            set_by_search(&mut self.copied, variable, at, v);
        }
    }
}

// The number of the first variable that is carried, and 0 where none is.
pub(crate) fn first_of(carried: &[(u32, Cells)]) -> u32 {
    if carried.is_empty() { 0 } else { carried[0].0 }
}

// The elements of a variable, where it is carried, and of the first list, where it stands in both.
fn cells_in_either<'a>(
    owned: &'a [(u32, Cells)],
    copied: &'a [(u32, Cells)],
    variable: u32,
) -> &'a [Value]
    requires owned { IsAscending owned.now }
    requires copied { IsAscending copied.now }
    ensures { result.now
        ≡ unwrap_or (listed owned.now variable) (unwrap_or (listed copied.now variable) []) }
{
    match cells_in(owned, variable) {
        Some(cells) => cells,
        None => match cells_in(copied, variable) {
            Some(cells) => cells,
            None => &[],
        },
    }
}

// Where a variable stands.
fn place_of(carried: &[(u32, Cells)], variable: u32) -> Option<usize>
    requires { IsAscending carried.now }
    ensures { MatchOption result (listed carried.now variable ≡ None)
        (λ at. IsSomeAnd (slice_get carried.now at) (λ c. c.0 ≡ variable)) }
{
    carried.binary_search_by_key(&variable, |c| c.0).ok()
}

// The elements of a variable, where it is carried.
fn cells_in(carried: &[(u32, Cells)], variable: u32) -> Option<&[Value]>
    requires { IsAscending carried.now }
    ensures { MatchOption result (listed carried.now variable ≡ None)
        (λ cells. listed carried.now variable ≡ Some cells.now) }
{
    match place_of(carried, variable) {
        Some(at) => Some(carried[at].1.as_slice()),
        None => None,
    }
}

// How many of the variables that are carried, from the first one on, have numbers one after another, from this one on.
pub(crate) fn in_order(carried: &[(u32, Cells)], first: u32) -> usize
    ensures { StandInOrder first result carried.now }
{
    for (at, entry) in carried.iter().enumerate() {
        if !is_above_by(entry.0, first, at) {
            return at;
        }
    }
    carried.len()
}

// Whether a number is above the first one by so many.
fn is_above_by(number: u32, first: u32, by: usize) -> bool
    ensures number { IsTrue result → number ≡ first + by }
    ensures fits { IsTrue result → first + by < 4294967296 }
{
    number >= first && (number - first) as usize == by
}

// Gives an element of a variable a value, where it is carried and has that element. It answers whether it is carried.
fn set_by_search(carried: &mut Vec<(u32, Cells)>, variable: u32, at: usize, v: &Value) -> bool
    requires { IsAscending carried.old.items }
    ensures found { result ≡ is_some (listed carried.old.items variable) }
    ensures ascending { IsAscending carried.new.items }
    ensures below { (n : ℕ) →
        All (λ c. c.0 < n) carried.old.items → All (λ c. c.0 < n) carried.new.items }
    ensures listed { carried.new.items
        ≡ with_listed variable (λ cells. slice_set cells at v.now) carried.old.items }
{
    match place_of(carried, variable) {
        Some(place) => {
            set_at(carried, place, at, *v);
            true
        }
        None => false,
    }
}

// Gives an element of the variable at a place a value, where it has that element.
#[inline(always)]
fn set_at(carried: &mut Vec<(u32, Cells)>, place: usize, at: usize, v: Value)
    requires ascending { IsAscending carried.old.items }
    requires within { place < length carried.old.items }
    ensures ascending { IsAscending carried.new.items }
    ensures listed { (x : ℕ) → IsSomeAnd (slice_get carried.old.items place) (λ c. c.0 ≡ x) →
        carried.new.items ≡ with_listed x (λ cells. slice_set cells at v) carried.old.items }
{
    set_item(&mut carried[place].1, at, v);
}

// Gives an element a value, where there is that element.
pub(crate) fn set_item(cells: &mut Cells, at: usize, v: Value)
    ensures { cells.new ≡ slice_set cells.old at v }
{
    if at < cells.len() {
        cells.set(at, v);
    }
}
