ghost use Rattle.std.specs.Prelude.{◌≡◌, ◌<◌, length, OnOk, All, AllPairs};
ghost use Rattle.ooo_code.specs.Sound.{IsSound};
ghost use Rattle.ooo_channels.specs.Operations.{Operations};
ghost use Rattle.ooo_meaning.specs.World.{World};
ghost use Rattle.ooo_interp.specs.Ports.{all_shown};
ghost use Rattle.ooo_plain.specs.Opening.{MayOpen, IsSeenIn, OpensTo, readable_by};
ghost use Rattle.ooo_plain.specs.Seeing.{all_open};

use crate::laws::laws;
use ooo_channels::Bank;
use ooo_code::Design;
use ooo_interp::{FifoPort, Port, Ports};
use ooo_time::Stamp;
use ooo_value::ChannelKind;
use std::alloc::AllocError;

/// What is open to see of these channels at a stamp, in ports that are dropped first. The values of fifos stay in the
/// bank.
///
/// # Errors
///
/// Only where memory runs out.
pub fn open_ports(
    ports: &mut Ports,
    design: &Design,
    bank: &Bank,
    at: Stamp,
    channels: &Vec<u32>,
) -> Result<(), AllocError>
    requires sound { IsSound design.now }
    requires ascending { AllPairs (λ a b. a < b) channels.now.items }
    requires within { All (λ c. c < length design.now.channels) channels.now.items }
    requires may { MayOpen design.now bank.now at }
    ensures { let values = readable_by bank.now at in
        OnOk result ((w : World) (ops : Operations) → IsSeenIn design.now bank.now at ops w →
        all_shown values ports.new ≡ all_open w channels.now.items) }
{
    ports.clear();
    let channels = channels.as_slice();
    for c in channels {
        ports.push(open_port(design, bank, at, *c))?;
    }
    Ok(())
}

// What is open to see of a channel.
fn open_port(design: &Design, bank: &Bank, at: Stamp, c: u32) -> Port
    requires sound { IsSound design.now }
    requires within { c < length design.now.channels }
    requires may { MayOpen design.now bank.now at }
    ensures { OpensTo design.now bank.now at c result }
{
    laws();
    match design.channels.as_slice()[c as usize].kind {
        ChannelKind::Signal => {
            let (v, changed) = bank.signal(c, at);
            Port::Signal(c, v, changed)
        }
        ChannelKind::Fifo => Port::Fifo(FifoPort::new(c, bank.free(c, at))),
    }
}
