ghost use Rattle.std.specs.Prelude.{◌≡◌, ◌≢◌, ◌<◌, ◌↔◌, ◌++◌, [], ◌∷◌, slice_get, All, IfOk, OnErr, OnOk, IsSomeAnd, IsTrue, MatchOption};
ghost use Rattle.ooo_code.specs.Expressions.{fifo_seen, signal_seen};
ghost use Rattle.ooo_code.specs.Nodes.{seen_after_put, seen_after_take};
ghost use Rattle.ooo_interp.specs.Ports.{PortsAscend, ShowAlike, ShowsIts, ValuesOf, all_shown, channel_of, fifo_shown, less_one_slot, less_one_value, shown};

use crate::fifo_port::FifoPort;
use crate::fifo_values::FifoValues;
use crate::port::Port;
use ooo_value::Value;
use std::alloc::{AllocError, Global};
use std::marker::Model;

/// What a process sees of channels: a port for each, ascending by the channels' numbers.
#[derive(Drop)]
pub struct Ports {
    items: Vec<Port>,
}

impl Model for Ports {
    ghost use Rattle.std.specs.Prelude.{List};
    ghost use Rattle.ooo_interp.specs.Ports.{PortsAscend};
    ghost use Rattle.ooo_interp.specs.declared.port.Port.{Port as PortSpec};

    ghost Value = { List PortSpec };

    ghost view = { λ p. p.items.items };

    ghost invariant = { λ p. PortsAscend p.items.items };
}

impl Ports {
    /// No ports. It takes no memory.
    pub fn new(alloc: Global) -> Ports
        ensures { result ≡ [] }
    {
        Ports {
            items: Vec::new(alloc),
        }
    }

    /// No ports, with room for so many.
    ///
    /// # Errors
    ///
    /// Only where memory runs out.
    pub fn with_capacity(alloc: Global, count: usize) -> Result<Ports, AllocError>
        ensures { IfOk result (λ ports. ports ≡ []) }
    {
        let items = Vec::with_capacity(alloc, count)?;
        Ok(Ports { items })
    }

    /// Drops all ports. Their memory is used again.
    pub fn clear(&mut self)
        ensures { self.new ≡ [] }
    {
        self.items.clear();
    }

    /// Whether all of its channels have lower numbers.
    pub fn is_below(&self, channel: u32) -> bool
        ensures { IsTrue result ↔ All (λ p. channel_of p < channel) self.now }
    {
        match self.items.last() {
            Some(last) => last.channel() < channel,
            None => true,
        }
    }

    /// Adds a port of a channel with a greater number.
    ///
    /// # Errors
    ///
    /// Only where memory runs out; the ports are then as before.
    pub fn push(&mut self, port: Port) -> Result<(), AllocError>
        requires { All (λ p. channel_of p < channel_of port) self.old }
        ensures ok { OnOk result (self.new ≡ self.old ++ port ∷ []) }
        ensures err { OnErr result (self.new ≡ self.old) }
    {
        self.items.push(port)?;
        Ok(())
    }

    // The value of a signal, and whether it changed.
    pub(crate) fn signal(&self, channel: u32) -> (Value, bool)
        ensures value { (values : ValuesOf) →
            result.0 ≡ (signal_seen (all_shown values self.now) channel).value }
        ensures changed { (values : ValuesOf) →
            result.1 ≡ (signal_seen (all_shown values self.now) channel).changed }
    {
        match self.of(channel) {
            Some(port) => port.signal(),
            None => (Value::Int(0), false),
        }
    }

    // The port of a fifo.
    pub(crate) fn fifo(&self, channel: u32) -> Option<&FifoPort>
        ensures { let seen = λ (values : ValuesOf). fifo_seen (all_shown values self.now) channel in
            MatchOption result ((values : ValuesOf) → seen values ≡ record { values = []; free = 0 })
            (λ f. (values : ValuesOf) → seen values ≡ fifo_shown values f.now) }
    {
        match self.of(channel) {
            Some(port) => match port {
                Port::Fifo(fifo) => Some(fifo),
                Port::Signal(_, _, _) => None,
            },
            None => None,
        }
    }

    // The port of a channel.
    fn of(&self, channel: u32) -> Option<&Port>
        ensures { MatchOption result ((values : ValuesOf) → ShowAlike values channel self.now [])
            (λ p. (values : ValuesOf) → ShowsIts values channel self.now p.now) }
    {
        match place_of(&self.items, channel) {
            Some(at) => Some(&self.items[at]),
            None => None,
        }
    }

    // Takes a value of a fifo.
    pub(crate) fn take<F: FifoValues>(&mut self, channel: u32, fifos: &F)
        ensures { let values = F.values fifos.now in
            all_shown values self.new ≡ seen_after_take (all_shown values self.old) channel }
    {
        if let Some(at) = place_of(&self.items, channel) {
            take_of(&mut self.items[at], fifos);
        }
    }

    // Fills a slot of a fifo.
    pub(crate) fn put(&mut self, channel: u32)
        ensures { (values : ValuesOf) →
            all_shown values self.new ≡ seen_after_put (all_shown values self.old) channel }
    {
        if let Some(at) = place_of(&self.items, channel) {
            put_of(&mut self.items[at]);
        }
    }
}

// Where the port of a channel stands.
fn place_of(ports: &[Port], channel: u32) -> Option<usize>
    requires { PortsAscend ports.now }
    ensures { MatchOption result (All (λ p. channel_of p ≢ channel) ports.now)
        (λ at. IsSomeAnd (slice_get ports.now at) (λ p. channel_of p ≡ channel)) }
{
    ports
        .binary_search_by_key(&channel, |port| port.channel())
        .ok()
}

// Takes a value, where the port is of a fifo.
fn take_of<F: FifoValues>(port: &mut Port, fifos: &F)
    ensures channel { channel_of port.new ≡ channel_of port.old }
    ensures shown { let values = F.values fifos.now in
        shown values port.new ≡ less_one_value (shown values port.old) }
{
    if let Port::Fifo(fifo) = port {
        fifo.take(fifos);
    }
}

// Fills a slot, where the port is of a fifo.
fn put_of(port: &mut Port)
    ensures channel { channel_of port.new ≡ channel_of port.old }
    ensures shown { (values : ValuesOf) →
        shown values port.new ≡ less_one_slot (shown values port.old) }
{
    if let Port::Fifo(fifo) = port {
        fifo.put();
    }
}
