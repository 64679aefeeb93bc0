ghost use Rattle.std.specs.Prelude.{◌≡◌, ◌<◌, ◌≤◌, ◌&&◌, false, is_some, length, nat_lt};
ghost use Rattle.ooo_conflicts.specs.Kinds.{is_clash, kind_at};
ghost use Rattle.ooo_fronts.specs.Fronts.{AreAligned, IsFit, IsFitOfItself, process_in};
ghost use Rattle.ooo_fronts.specs.Holds.{clashes_at, hold_at, holds_of, HoldsByNoOther, IsFirstBy};
ghost use Rattle.ooo_fronts.specs.Reaching.{AreReaches, IsListOf, IsMetBy, LeadsAtOnce, Meets};

use crate::front::Front;
use crate::reaching::Reaches;
use ooo_tables::Tables;
use ooo_time::{Stamp, advance};

// The process of segment b.
pub(crate) fn process_of(tables: &Tables, b: u32) -> u32
    requires { b < length tables.now.graph.segments }
    ensures { result ≡ process_in tables.now b }
{
    tables.graph.segments.as_slice()[b as usize].process
}

// Whether segment b at a stamp clashes with the front f of process p: strictly where it comes earlier, and else at the same
// stamp by a lower process.
fn clashes_at(tables: &Tables, b: u32, at: Stamp, p: u32, f: Front) -> bool
    requires aligned { AreAligned tables.now }
    requires segment { b < length tables.now.graph.segments }
    requires front { f.segment < length tables.now.graph.segments }
    ensures { result ≡ clashes_at tables.now b at p f }
{
    if at.is_before(f.stamp) {
        tables.clash.clash(b, f.segment, true)
    } else if at == f.stamp {
        clashes_below(tables, b, p, f)
    } else {
        false
    }
}

// Whether segment b at the stamp of the front f of process p clashes with it: by a lower process.
#[inline(always)]
fn clashes_below(tables: &Tables, b: u32, p: u32, f: Front) -> bool
    requires aligned { AreAligned tables.now }
    requires segment { b < length tables.now.graph.segments }
    requires front { f.segment < length tables.now.graph.segments }
    ensures { result ≡ (nat_lt (process_in tables.now b) p
        && is_clash (kind_at tables.now.clash b f.segment) false) }
{
    process_of(tables, b) < p && tables.clash.clash(b, f.segment, false)
}

// The stamp at which the front g leads to segment b, where that isn't of process p and clashes there with the front f of p.
fn hold_at(tables: &Tables, g: Front, p: u32, f: Front, b: u32) -> Option<Stamp>
    requires aligned { AreAligned tables.now }
    requires segment { b < length tables.now.graph.segments }
    requires fit { IsFitOfItself tables.now g }
    requires front { f.segment < length tables.now.graph.segments }
    ensures { result ≡ hold_at tables.now g p f b }
{
    if process_of(tables, b) == p {
        return None;
    }
    let Some(delay) = tables.advance.least(g.segment, b) else {
        return None;
    };
    let at = advance(g.stamp, delay);
    if clashes_at(tables, b, at, p, f) {
        Some(at)
    } else {
        None
    }
}

// By how many segments the front g holds the front f of process p up: by none, where f comes before it.
#[inline(always)]
pub(crate) fn holds_of(tables: &Tables, reaches: &Reaches, g: Front, p: u32, f: Front) -> u32
    requires aligned { AreAligned tables.now }
    requires reaches { AreReaches tables.now reaches.now }
    requires fit { IsFitOfItself tables.now g }
    requires held { IsFit tables.now p f }
    ensures exact { result ≡ holds_of tables.now g p f }
    ensures few { result ≤ length tables.now.graph.segments }
{
    if f.stamp.is_before(g.stamp) {
        return 0;
    }
    holds_ahead(tables, reaches, g, p, f)
}

// The same, of a front that doesn't come before the other one: none, where it comes before each of those that meet it and to
// which the other leads.
#[inline(always)]
fn holds_ahead(tables: &Tables, reaches: &Reaches, g: Front, p: u32, f: Front) -> u32
    requires aligned { AreAligned tables.now }
    requires reaches { AreReaches tables.now reaches.now }
    requires fit { IsFitOfItself tables.now g }
    requires held { IsFit tables.now p f }
    ensures exact { result ≡ holds_of tables.now g p f }
    ensures few { result ≤ length tables.now.graph.segments }
{
    let Some(delay) = reaches.soonest(g.segment, f.segment) else {
        return 0;
    };
    if f.stamp.is_before(advance(g.stamp, delay)) {
        return 0;
    }
    count_holds(tables, reaches, g, p, f)
}

// The same, by counting. The one leads to nothing before its own stamp: so another at its stamp is held up only by segments to
// which it leads with no delay. A later one only by segments to which it leads and that meet f's, so it goes over whichever of
// these and those are fewer.
#[inline(never)]
fn count_holds(tables: &Tables, reaches: &Reaches, g: Front, p: u32, f: Front) -> u32
    requires aligned { AreAligned tables.now }
    requires reaches { AreReaches tables.now reaches.now }
    requires fit { IsFitOfItself tables.now g }
    requires held { IsFit tables.now p f }
    ensures exact { result ≡ holds_of tables.now g p f }
    ensures few { result ≤ length tables.now.graph.segments }
{
    if f.stamp == g.stamp {
        return count_at_once(tables, reaches.at_once(g.segment), g, p, f);
    }
    let leads = reaches.leads(g.segment);
    let meeting = reaches.meeting(f.segment);
    if leads.len() <= meeting.len() {
        count_among(tables, leads, g, p, f)
    } else {
        count_meeting(tables, meeting, g, p, f)
    }
}

// The same at one stamp, of the segments to which the front g leads with no delay.
fn count_at_once(tables: &Tables, segments: &[u32], g: Front, p: u32, f: Front) -> u32
    requires aligned { AreAligned tables.now }
    requires same { f.stamp ≡ g.stamp }
    requires all { IsListOf (LeadsAtOnce tables.now g.segment) segments.now }
    requires front { f.segment < length tables.now.graph.segments }
    ensures { result ≡ holds_of tables.now g p f }
{
    let mut count = 0;
    for b in segments {
        if holds_at_once(tables, g, p, f, *b) {
            count += 1;
        }
    }
    count
}

// Whether the front g holds the front f of process p up at one stamp, by segment b, to which it leads with no delay.
#[inline(always)]
fn holds_at_once(tables: &Tables, _g: Front, p: u32, f: Front, b: u32) -> bool
    requires aligned { AreAligned tables.now }
    requires same { f.stamp ≡ _g.stamp }
    requires leads { LeadsAtOnce tables.now _g.segment b }
    requires front { f.segment < length tables.now.graph.segments }
    ensures { result ≡ is_some (hold_at tables.now _g p f b) }
{
    clashes_below(tables, b, p, f)
}

// By how many of these segments, which are all that meet f's, the front g holds the front f of process p up.
fn count_meeting(tables: &Tables, meeting: &[u32], g: Front, p: u32, f: Front) -> u32
    requires aligned { AreAligned tables.now }
    requires all { IsListOf (IsMetBy tables.now f.segment) meeting.now }
    requires fit { IsFitOfItself tables.now g }
    requires held { IsFit tables.now p f }
    ensures { result ≡ holds_of tables.now g p f }
{
    let mut count = 0;
    for b in meeting {
        if holds_by(tables, g, p, f, *b) {
            count += 1;
        }
    }
    count
}

// Whether the front g holds the front f of process p up by segment b, which meets f's. So it does wherever it leads to it at an
// earlier stamp.
#[inline(always)]
fn holds_by(tables: &Tables, g: Front, p: u32, f: Front, b: u32) -> bool
    requires aligned { AreAligned tables.now }
    requires segment { b < length tables.now.graph.segments }
    requires meets { Meets tables.now b f.segment }
    requires fit { IsFitOfItself tables.now g }
    requires held { IsFit tables.now p f }
    ensures { result ≡ is_some (hold_at tables.now g p f b) }
{
    let Some(delay) = tables.advance.least(g.segment, b) else {
        return false;
    };
    let at = advance(g.stamp, delay);
    if at.is_before(f.stamp) {
        return true;
    }
    clashes_at(tables, b, at, p, f)
}

// By how many of these segments the front g holds the front f of process p up, where it does so by no other.
fn count_among(tables: &Tables, segments: &[u32], g: Front, p: u32, f: Front) -> u32
    requires aligned { AreAligned tables.now }
    requires all { HoldsByNoOther tables.now g p f segments.now }
    requires fit { IsFitOfItself tables.now g }
    requires front { f.segment < length tables.now.graph.segments }
    ensures { result ≡ holds_of tables.now g p f }
{
    let mut count = 0;
    for b in segments {
        if hold_at(tables, g, p, f, *b).is_some() {
            count += 1;
        }
    }
    count
}

// The first segment by which the front g holds the front f of process p up, with the stamp.
pub(crate) fn first_of(tables: &Tables, g: Front, p: u32, f: Front) -> Option<(u32, Stamp)>
    requires aligned { AreAligned tables.now }
    requires fit { IsFitOfItself tables.now g }
    requires front { f.segment < length tables.now.graph.segments }
    ensures { IsFirstBy tables.now g p f result }
{
    let clashing = tables.clash.clashing(f.segment);
    for b in clashing {
        if let Some(at) = hold_at(tables, g, p, f, *b) {
            return Some((*b, at));
        }
    }
    None
}
