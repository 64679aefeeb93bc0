ghost use Rattle.std.specs.Prelude.{◌≡◌, slice_get};
ghost use Rattle.ooo_code.specs.Sound.{IsSound};
ghost use Rattle.ooo_plain.specs.Opening.{MayOpen, is_fifo};

use crate::laws::laws;
use ooo_channels::Bank;
use ooo_code::Design;
use ooo_interp::FifoValues;
use ooo_time::Stamp;
use ooo_value::{ChannelKind, Value};
use std::marker::Model;

/// The fifos of a bank, as they may be read in the cycle of a stamp. No value is copied before it is asked for.
#[derive(Drop)]
pub struct BankFifos<'b> {
    bank: &'b Bank,
    design: &'b Design,
    at: Stamp,
}

impl<'b> Model for BankFifos<'b> {
    ghost use Rattle.ooo_plain.specs.Opening.{OpenFifos, MayRead};

    ghost Value = { OpenFifos };

    ghost view = { λ f. record { bank = f.bank.now; at = f.at } };

    ghost invariant = { λ f. MayRead f.design.now f.bank.now f.at };
}

impl<'b> BankFifos<'b> {
    /// The fifos of a bank of a design, at a stamp.
    pub fn new(design: &'b Design, bank: &'b Bank, at: Stamp) -> BankFifos<'b>
        requires sound { IsSound design.now }
        requires may { MayOpen design.now bank.now at }
        ensures { result ≡ record { bank = bank.now; at = at } }
    {
        BankFifos { bank, design, at }
    }
}

impl<'b> FifoValues for BankFifos<'b> {
    ghost use Rattle.ooo_plain.specs.Opening.{readable_by};

    ghost values = { λ f. readable_by f.bank f.at };

    fn count(&self, channel: u32) -> u32 {
        laws();
        if is_fifo(self.design, channel) {
            self.bank.available(channel, self.at)
        } else {
            0
        }
    }

    fn value(&self, channel: u32, n: u32) -> Option<Value> {
        laws();
        let count = self.count(channel);
        if n < count {
            Some(self.bank.value(channel, n))
        } else {
            None
        }
    }
}

// Whether a channel of a design is a fifo.
fn is_fifo(design: &Design, channel: u32) -> bool
    ensures { result ≡ is_fifo (slice_get design.now.channels channel) }
{
    match design.channels.as_slice().get(channel as usize) {
        Some(bound) => match bound.kind {
            ChannelKind::Fifo => true,
            ChannelKind::Signal => false,
        },
        None => false,
    }
}
