ghost use Rattle.std.specs.Prelude.{◌≡◌, ◌∷◌, [], ◌++◌, None, Some, IfOk, OnOk, length, slice_get};
ghost use Rattle.ooo_elaborate.specs.Bindings.{channel_behind, channels_of, fits, fits_channel, fits_port};
ghost use Rattle.ooo_elaborate.specs.Bindings.{fits_found_channel, fits_found_port, is_in, is_nothing};
ghost use Rattle.ooo_elaborate.specs.Bindings.{is_signal, linked, linked_found, linked_port, links_by};
ghost use Rattle.ooo_elaborate.specs.Bindings.{channel_meant, is_unbound, links_of, refusal_of, same_kind};
ghost use Rattle.ooo_elaborate.specs.Bindings.{port_meant, unbound, unbound_from};

use ooo_checked::{Direction, Thing};
use ooo_constants::Meaning;
use ooo_lexer::Position;
use ooo_value::{ChannelKind, Kind, Name};
use ooo_walk::{ElabBreach, Refusal, Walk, WalkedBinding, WalkedChannel, WalkedPort};
use sqlite_items::{Items, at};
use std::alloc::{AllocError, Global};

/// What each port is bound to, as far as the bindings were looked at, and what is refused.
#[derive(Drop)]
pub struct Links {
    pub ends: Items<Meaning>,
    pub refusal: Option<Refusal>,
}

// Two kinds are the same.
fn same_kind(a: Kind, b: Kind) -> bool
    ensures { result ≡ same_kind a b }
{
    match (a, b) {
        (Kind::Bool, Kind::Bool)
        | (Kind::Int, Kind::Int)
        | (Kind::Uint, Kind::Uint)
        | (Kind::Long, Kind::Long)
        | (Kind::Ulong, Kind::Ulong) => true,
        _ => false,
    }
}

// It is a signal.
fn is_signal(kind: ChannelKind) -> bool
    ensures { result ≡ is_signal kind }
{
    matches!(kind, ChannelKind::Signal)
}

// The port only reads.
fn is_in(direction: Direction) -> bool
    ensures { result ≡ is_in direction }
{
    matches!(direction, Direction::In)
}

// Nothing is meant.
fn is_nothing(meaning: Meaning) -> bool
    ensures { result ≡ is_nothing meaning }
{
    matches!(meaning, Meaning::Nothing)
}

// Nothing is bound to a port.
fn is_unbound(end: Option<Meaning>) -> bool
    ensures { result ≡ is_unbound end }
{
    match end {
        Some(end) => is_nothing(end),
        None => true,
    }
}

// The channel that is meant, if one is.
fn channel_meant(end: Option<Meaning>) -> Option<u32>
    ensures { result ≡ channel_meant end }
{
    match end {
        Some(Meaning::Channel(channel)) => Some(channel),
        _ => None,
    }
}

// The port that is meant, if one is.
fn port_meant(end: Option<Meaning>) -> Option<u32>
    ensures { result ≡ port_meant end }
{
    match end {
        Some(Meaning::Port(port)) => Some(port),
        _ => None,
    }
}

// A channel to which a port of a sort may be bound.
fn fits_channel(form: Thing, channel: &WalkedChannel) -> bool
    ensures { result ≡ fits_channel form channel.now }
{
    let is_signal = is_signal(channel.bound.kind);
    let value = channel.bound.value;
    match form {
        Thing::SignalPort(direction, kind) => {
            is_signal && same_kind(value, kind) && (!channel.is_clock || is_in(direction))
        }
        Thing::FifoIn(kind) | Thing::FifoOut(kind) => !is_signal && same_kind(value, kind),
        _ => false,
    }
}

// A port of the parent to which a port of a sort may be bound.
fn fits_port(form: Thing, port: Thing) -> bool
    ensures { result ≡ fits_port form port }
{
    match (form, port) {
        (Thing::SignalPort(own, kind), Thing::SignalPort(outer, other)) => {
            same_kind(other, kind) && (is_in(own) || !is_in(outer))
        }
        (Thing::FifoIn(kind), Thing::FifoIn(other))
        | (Thing::FifoOut(kind), Thing::FifoOut(other)) => same_kind(other, kind),
        _ => false,
    }
}

// What a port of a sort may be bound to.
fn fits(walk: &Walk, form: Thing, to: Meaning) -> bool
    ensures { result ≡ fits walk.now form to }
{
    match to {
        Meaning::Channel(channel) => match walk.channels.get(channel as usize) {
            Some(channel) => fits_channel(form, channel),
            None => false,
        },
        Meaning::Port(port) => match walk.ports.get(port as usize) {
            Some(port) => fits_port(form, port.form),
            None => false,
        },
        _ => false,
    }
}

// Adds the same name to others.
pub(crate) fn push_copy(
    alloc: Global,
    name: &Name,
    names: &mut Items<Name>,
) -> Result<(), AllocError>
    ensures { OnOk result (names.new ≡ names.old ++ name.now ∷ []) }
{
    let copy = name.copy(alloc)?;
    names.push(copy)
}

// A refusal.
pub(crate) fn refusal(
    alloc: Global,
    what: ElabBreach,
    at: Position,
    name: &Name,
) -> Result<Option<Refusal>, AllocError>
    ensures { IfOk result (λ refusal. refusal ≡ refusal_of what at name.now) }
{
    let mut names = Items::new(alloc);
    keeping!(names; push_copy(alloc, name, &mut names));
    Ok(Some(Refusal { what, at, names }))
}

impl Links {
    // Looks at a binding of a port that is bound to this so far.
    fn link_port(
        &mut self,
        alloc: Global,
        walk: &Walk,
        binding: WalkedBinding,
        port: &WalkedPort,
        so_far: Meaning,
    ) -> Result<(), AllocError>
        ensures { OnOk result (self.new ≡ linked_port walk.now binding port.now so_far self.old) }
    {
        if !fits(walk, port.form, binding.to) {
            self.refusal = got!(refusal(alloc, ElabBreach::PortKind, binding.at, &port.name));
            return Ok(());
        }
        if !is_nothing(so_far) {
            self.refusal = got!(refusal(alloc, ElabBreach::PortBoundTwice, binding.at, &port.name));
            return Ok(());
        }
        if (binding.port as usize) < self.ends.len() {
            self.ends.set(binding.port as usize, binding.to);
        }
        Ok(())
    }

    // Looks at a binding, unless something is refused.
    fn link(&mut self, alloc: Global, walk: &Walk, binding: WalkedBinding) -> Result<(), AllocError>
        ensures { OnOk result (self.new ≡ linked walk.now binding self.old) }
    {
        if self.refusal.is_some() {
            return Ok(());
        }
        let so_far = self.ends.get(binding.port as usize).copied();
        match (walk.ports.get(binding.port as usize), so_far) {
            (Some(port), Some(so_far)) => self.link_port(alloc, walk, binding, port, so_far),
            _ => Ok(()),
        }
    }

    // What a port is bound to so far.
    fn end(&self, port: u32) -> Option<Meaning>
        ensures { result ≡ slice_get self.now.ends port }
    {
        self.ends.get(port as usize).copied()
    }

    // The channel behind what a port is bound to, through no more ports than these.
    #[tactic(auto, using(crate::proofs::Behind::behind_port, crate::proofs::Behind::behind_channel))]
    fn channel_behind(&self, left: usize, from: Option<Meaning>) -> Option<u32>
        ensures { result ≡ channel_behind left self.now.ends from }
    {
        let mut end = from;
        'turns: for turn in 0..left {
            match port_meant(end) {
                Some(port) => end = self.end(port),
                None => return channel_meant(end),
            }
        }
        channel_meant(end)
    }

    /// Of each port the channel to which it is bound in the end.
    ///
    /// # Errors
    ///
    /// Only where memory runs out.
    pub(crate) fn channels(&self, alloc: Global) -> Result<Items<Option<u32>>, AllocError>
        ensures { IfOk result (λ all. all ≡ channels_of self.now.ends self.now.ends) }
    {
        let mut all = Items::new(alloc);
        'parts: for e in self.ends.as_slice() {
            let channel = self.channel_behind(self.ends.len(), Some(*e));
            keeping!(all; all.push(channel));
        }
        Ok(all)
    }
}

/// What each port of a walk is bound to, or what is refused of the bindings, in the order of the walk.
///
/// # Errors
///
/// Only where memory runs out.
pub(crate) fn link_all(alloc: Global, walk: &Walk) -> Result<Links, AllocError>
    ensures { IfOk result (λ links. links ≡ links_of walk.now) }
{
    let ends = got!(Vec::from_elem(alloc, Meaning::Nothing, walk.ports.len()));
    let mut links = Links {
        ends: Items::from_vec(ends),
        refusal: None,
    };
    'parts: for e in walk.bindings.as_slice() {
        keeping!(links; links.link(alloc, walk, *e));
    }
    Ok(links)
}

/// The first port to which nothing is bound, as a refusal.
///
/// # Errors
///
/// Only where memory runs out.
pub(crate) fn unbound(
    alloc: Global,
    ports: &[WalkedPort],
    ends: &[Meaning],
) -> Result<Option<Refusal>, AllocError>
    ensures { IfOk result (λ refusal. refusal ≡ unbound_from 0 ports.now ends.now) }
{
    'parts: for (place, e) in ports.iter().enumerate() {
        if is_unbound(at(ends, place).copied()) {
            return refusal(alloc, ElabBreach::PortNotBound, e.at, &e.name);
        }
    }
    Ok(None)
}
