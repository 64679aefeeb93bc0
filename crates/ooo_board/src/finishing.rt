//! The run that a board shows which is over.

ghost use Rattle.std.specs.Prelude.{◌≡◌, ◌<◌, ◌≤◌, ◌^◌, ◌++◌, List, [], ◌∷◌, length, filter, IfOk, IfSome};
ghost use Rattle.std.specs.List.Sorted.{IsPermutation, IsSortedBy};
ghost use Rattle.ooo_time.specs.Scales.{greatest_delta};
ghost use Rattle.ooo_code.specs.declared.limits.Limits.{Limits as LimitsSpec};
ghost use Rattle.ooo_tables.specs.declared.tables.Tables.{Tables as TablesSpec};
ghost use Rattle.ooo_meaning.specs.Runs.{IsSequentialRun, Shows};
ghost use Rattle.ooo_meaning.specs.Sequence.{Result as ResultSpec};
ghost use Rattle.ooo_channels.specs.Operations.{Operations};
ghost use Rattle.ooo_schedules.specs.Reports.{is_below_limit};
ghost use Rattle.ooo_dispatch.specs.declared.step.Step.{Step as StepSpec};
ghost use Rattle.ooo_dispatch.specs.ReadOff.{break_shown, counted_before, end_at, ended_by, is_past_break, is_past_stop, latest_stamp, limit_reached, precedes, stop_shown};
ghost use Rattle.ooo_dispatch.specs.Rules.{Rules};
ghost use Rattle.ooo_board.specs.Finishing.{AreHistoriesBy, IsAskedFor, IsFinished, break_of, ends_of, shows};

use crate::cores::Core;
use ooo_channels::Bank;
use ooo_code::Design;
use ooo_fronts::{Break, Cut};
use ooo_history::{End, Entry, Piece, Run};
use ooo_time::{Place, Stamp, Time};
use sqlite_items::Items;
use std::alloc::{AllocError, Global};

impl Core {
    /// The run that is shown once the board is over.
    ///
    /// # Errors
    ///
    /// Only where memory runs out.
    pub(crate) fn finish(&self, alloc: Global, design: &Design) -> Result<Run, AllocError>
        requires few { length design.now.channels < 2 ^ 32 }
        requires over { (limits : LimitsSpec) × (t : TablesSpec) × (steps : List StepSpec)
            × IsFinished design.now limits t steps self.now }
        ensures { IfOk result (λ run. (limits : LimitsSpec) (t : TablesSpec)
            (steps : List StepSpec) (found : ResultSpec) →
            IsFinished design.now limits t steps self.now →
            IsSequentialRun design.now limits found → Shows run found) }
    {
        ooo_dispatch::law::reports_are_read_off();
        ooo_dispatch::law::every_list_agrees();
        let next = self.fronts.least();
        let mut pieces = shown_pieces(alloc, self.pieces.as_slice(), &self.cut, next)?;
        put_in_order(&mut pieces);
        let before = counted_before(&self.cut, next);
        let count = design.channels.len() as u32;
        let channels = keeping!(pieces; histories(alloc, &self.bank, count, before));
        let latest = latest_shown(self.places.as_slice(), &self.cut, next);
        Ok(Run {
            pieces: Items::from_vec(pieces),
            channels: Items::from_vec(channels),
            end: end_of(&self.cut, next, latest),
            activations: count_shown(self.places.as_slice(), &self.cut, next) as u128,
        })
    }
}

// ---- what is shown

// Whether a stamp is before the earliest one of all fronts, where that is at the limit of deltas.
fn is_below_limit(cut: &Cut, next: Option<Stamp>, stamp: Stamp) -> bool
    ensures { result ≡ is_below_limit cut.now.deltas next stamp }
{
    match next {
        Some(next) if next.delta == cut.deltas => stamp.is_before(next),
        _ => true,
    }
}

// Whether a place is after that of the first break.
fn is_past_break(broken: Option<Break>, at: Place) -> bool
    ensures { result ≡ is_past_break (break_of broken) at }
{
    match broken {
        Some(broken) => broken.place.is_before(at),
        None => false,
    }
}

// Whether a stamp is after the first one of `sc_stop`.
fn is_past_stop(stopped: Option<Stamp>, stamp: Stamp) -> bool
    ensures { result ≡ is_past_stop stopped stamp }
{
    match stopped {
        Some(stopped) => stopped.is_before(stamp),
        None => false,
    }
}

// Whether what was done at a place is shown.
fn is_shown(cut: &Cut, next: Option<Stamp>, at: Place) -> bool
    ensures { result ≡ shows cut.now next at }
{
    let is_past = is_past_break(cut.broken, at) || is_past_stop(cut.stopped, at.stamp);
    !is_past && is_below_limit(cut, next, at.stamp)
}

// Copies of the pieces that are shown.
fn shown_pieces(
    alloc: Global,
    pieces: &[Piece],
    cut: &Cut,
    next: Option<Stamp>,
) -> Result<Vec<Piece>, AllocError>
    ensures { IfOk result (λ shown.
        shown.items ≡ filter (λ x. shows cut.now next x.place) pieces.now) }
{
    let mut shown = Vec::new(alloc);
    for piece in pieces {
        if is_shown(cut, next, piece.place) {
            shown = with_copy(alloc, shown, piece)?;
        }
    }
    Ok(shown)
}

// The pieces and a copy of this one.
fn with_copy(alloc: Global, mut pieces: Vec<Piece>, piece: &Piece) -> Result<Vec<Piece>, AllocError>
    ensures { IfOk result (λ all. all.items ≡ pieces.items ++ piece.now ∷ []) }
{
    keeping!(pieces; pieces.reserve(1));
    let bytes = keeping!(pieces; Items::from_slice(alloc, piece.bytes.as_slice()));
    let place = piece.place;
    pieces.push_reserved(Piece { place, bytes });
    Ok(pieces)
}

// Puts pieces in order of place.
fn put_in_order(pieces: &mut Vec<Piece>)
    ensures same { IsPermutation pieces.old.items pieces.new.items }
    ensures in_order { IsSortedBy (λ x y. precedes x.place y.place) pieces.new.items }
{
    pieces.sort_unstable_by_key(|piece| piece.place);
}

// How many of these places are shown.
fn count_shown(places: &[Place], cut: &Cut, next: Option<Stamp>) -> usize
    ensures { result ≡ length (filter (shows cut.now next) places.now) }
{
    let mut shown = 0;
    for place in places {
        if is_shown(cut, next, *place) {
            shown += 1;
        }
    }
    shown
}

// The latest stamp of those that are shown, or time zero where none is.
fn latest_shown(places: &[Place], cut: &Cut, next: Option<Stamp>) -> Stamp
    ensures { result ≡ latest_stamp (filter (shows cut.now next) places.now) }
{
    let mut latest = Stamp {
        time: Time::ZERO,
        delta: 0,
    };
    for place in places {
        if is_shown(cut, next, *place) && latest.is_before(place.stamp) {
            latest = place.stamp;
        }
    }
    latest
}

// ---- how it ends

// The first break, where it is shown.
fn break_shown(cut: &Cut, next: Option<Stamp>) -> Option<Break>
    ensures { break_of result
        ≡ break_shown cut.now.deltas (ends_of cut.now next) (break_of cut.now.broken) }
{
    match cut.broken {
        Some(broken) if is_shown(cut, next, broken.place) => Some(broken),
        _ => None,
    }
}

// The first stamp of `sc_stop`, where it is below the limit.
fn stop_shown(cut: &Cut, next: Option<Stamp>) -> Option<Stamp>
    ensures { result ≡ stop_shown cut.now.deltas next cut.now.stopped }
{
    match cut.stopped {
        Some(at) if is_below_limit(cut, next, at) => Some(at),
        _ => None,
    }
}

// The earliest stamp of a front, where it is at the limit.
fn limit_reached(cut: &Cut, next: Option<Stamp>) -> Option<Stamp>
    ensures { result ≡ limit_reached cut.now.deltas next }
{
    match next {
        Some(at) if at.delta == cut.deltas => Some(at),
        _ => None,
    }
}

// The stamp before which operations count, if not all do.
fn counted_before(cut: &Cut, next: Option<Stamp>) -> Option<Stamp>
    requires { IfSome cut.now.stopped (λ s. s.delta < greatest_delta) }
    ensures { result ≡ counted_before cut.now.deltas (ends_of cut.now next) }
{
    if let Some(broken) = break_shown(cut, next) {
        return Some(broken.place.stamp);
    }
    let Some(at) = stop_shown(cut, next) else {
        return limit_reached(cut, next);
    };
    let delta = at.delta + 1;
    Some(Stamp {
        time: at.time,
        delta,
    })
}

// How the run ends, where this is the latest stamp that is shown.
fn end_of(cut: &Cut, next: Option<Stamp>, latest: Stamp) -> End
    ensures { (r : Rules) → r.limits.stop ≡ cut.now.stop →
        result ≡ ended_by
        (break_shown cut.now.deltas (ends_of cut.now next) (break_of cut.now.broken))
        (stop_shown cut.now.deltas next cut.now.stopped) (end_at r latest next) }
{
    if let Some(broken) = break_shown(cut, next) {
        return broken.end;
    }
    if let Some(at) = stop_shown(cut, next) {
        return End::Stop(at);
    }
    end_at(cut.stop, next, latest)
}

// How a run ends that nothing ended, by the stamp at which a process would run next.
fn end_at(stop: Time, next: Option<Stamp>, latest: Stamp) -> End
    ensures { (r : Rules) → r.limits.stop ≡ stop → result ≡ end_at r latest next }
{
    match next {
        None => End::Idle(latest),
        Some(next) if stop < next.time => End::Time(stop),
        Some(next) => End::Deltas(next),
    }
}

// ---- histories

// The histories of so many channels, by the operations before a stamp, if one is given.
fn histories(
    alloc: Global,
    bank: &Bank,
    channels: u32,
    before: Option<Stamp>,
) -> Result<Vec<Items<Entry>>, AllocError>
    requires { (ops : Operations) × IsAskedFor bank.now ops × (channels ≤ length ops.channels) }
    ensures { IfOk result (λ made. (ops : Operations) → IsAskedFor bank.now ops →
        AreHistoriesBy ops before channels made.items) }
{
    let mut made = Vec::with_capacity(alloc, channels as usize)?;
    for c in 0..channels {
        let history = keeping!(made; bank.history(alloc, c, before));
        made.push_reserved(Items::from_vec(history));
    }
    Ok(made)
}
