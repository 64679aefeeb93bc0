//! What holds of the definitions: functions that do nothing, whose clauses are laws.

ghost use Rattle.ooo_time.specs.declared.delay.Delay.{Delay as DelaySpec};
ghost use Rattle.ooo_time.specs.Delays.{joined};
ghost use Rattle.std.specs.Prelude.{ℕ, List, Option};
ghost use Rattle.ooo_access.specs.declared.access.Access.{Access as AccessSpec};
ghost use Rattle.ooo_segments.specs.declared.graphs.Graph.{Graph as GraphSpec};
ghost use Rattle.ooo_advance.specs.Orders.{AtMost};
ghost use Rattle.std.specs.Prelude.{◌<◌, Bool, true, length, slice_set};
ghost use Rattle.ooo_advance.specs.Rows.{delay_at};
ghost use Rattle.ooo_advance.specs.Settled.{IsSettled};
ghost use Rattle.ooo_advance.specs.Turns.{AreLinks, IsLowered, IsNearest, IsUnderWay};
ghost use Rattle.ooo_advance.specs.Walks.{IsLeast};

/// Joining keeps the order of delays, on either side, and a sum is at least its first delay. So the least sums of walks can
/// be found edge by edge, from the nearest segment on.
pub fn joining_keeps_the_order()
    ensures first { (a b e : DelaySpec) → AtMost a b → AtMost (joined a e) (joined b e) }
    ensures second { (a d e : DelaySpec) → AtMost d e → AtMost (joined a d) (joined a e) }
    ensures more { (a e : DelaySpec) → AtMost a (joined a e) }
{}

/// A row of delays that are sums of walks from a segment, and that no edge lowers, has the least sums.
pub fn settled_rows_are_least()
    ensures { (graph : GraphSpec) (access : List AccessSpec) (a : ℕ)
        (row : List (Option DelaySpec)) → IsSettled graph access a row →
        (b : ℕ) → IsLeast graph access a b (delay_at row b) }
{}

/// What holds while a search is under way holds after a turn, in which the nearest segment that isn't done is done.
pub fn turns_keep_the_search()
    ensures { (graph : GraphSpec) (access : List AccessSpec) (a n : ℕ) (x : DelaySpec)
        (row lowered links : List (Option DelaySpec)) (done : List Bool) → n < length done →
        IsUnderWay graph access a row done → IsNearest row done n x →
        AreLinks graph access n links → IsLowered (slice_set done n true) row lowered links x →
        IsUnderWay graph access a lowered (slice_set done n true) }
{}
