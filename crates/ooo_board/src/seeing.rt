//! What a job sees of channels, asked of the bank.

ghost use Rattle.std.specs.Prelude.{◌≡◌, [], ◌∷◌, All, IfOk, if◌then◌else◌};
ghost use Rattle.ooo_value.specs.declared.bound.ChannelKind.TheVariants as kind;
ghost use Rattle.ooo_code.specs.Sound.{FitsChannel};
ghost use Rattle.ooo_interp.specs.Jobs.{IsFew, SeenAscend};
ghost use Rattle.ooo_channels.specs.Bank.{IsBankAfter};
ghost use Rattle.ooo_channels.specs.Conditions.{HasChannel};
ghost use Rattle.ooo_channels.specs.Operations.{Operations};
ghost use Rattle.ooo_channels.specs.Cycles.{channel_in, readable, writable};
ghost use Rattle.ooo_board.specs.Seeing.{Ascend, IsAskedAt, MayAsk, sights_of};

use crate::links::Watched;
use ooo_channels::Bank;
use ooo_code::{Design, Seen};
use ooo_time::Stamp;
use ooo_value::{ChannelKind, Value};
use sqlite_items::Items;
use std::alloc::{AllocError, Global};

/// What is seen of these channels at a stamp.
///
/// # Errors
///
/// Only where memory runs out.
pub(crate) fn sights(
    alloc: Global,
    design: &Design,
    bank: &Bank,
    watched: &[Watched],
    at: Stamp,
) -> Result<Vec<Seen>, AllocError>
    requires may { MayAsk design.now bank.now at watched.now }
    requires fits { All FitsChannel design.now.channels }
    requires ascending { Ascend watched.now }
    ensures seen { IfOk result (λ seen. (ops : Operations) → IsAskedAt design.now bank.now at ops →
        seen.items ≡ sights_of at ops design.now.channels watched.now) }
    ensures few { IfOk result (λ seen. All IsFew seen.items) }
    ensures ascending { IfOk result (λ seen. SeenAscend seen.items) }
{
    let mut seen = Vec::with_capacity(alloc, watched.len())?;
    for channel in watched {
        seen.push_reserved(keeping!(seen; sight(alloc, design, bank, *channel, at)));
    }
    Ok(seen)
}

// What is seen of a channel at a stamp.
fn sight(
    alloc: Global,
    design: &Design,
    bank: &Bank,
    watched: Watched,
    at: Stamp,
) -> Result<Seen, AllocError>
    requires may { MayAsk design.now bank.now at (watched ∷ []) }
    ensures { IfOk result (λ seen. (ops : Operations) → IsAskedAt design.now bank.now at ops →
        seen ∷ [] ≡ sights_of at ops design.now.channels (watched ∷ [])) }
{
    let c = watched.channel;
    match design.channels.as_slice()[c as usize].kind {
        ChannelKind::Signal => {
            let (value, changed) = bank.signal(c, at);
            Ok(Seen::Signal(c, value, changed))
        }
        ChannelKind::Fifo => {
            let values = values_if(alloc, bank, watched.takes, c, at)?;
            Ok(Seen::Fifo(c, values, free_if(bank, watched.puts, c, at)))
        }
    }
}

// The values of a fifo that may be read, if its reading end is held.
fn values_if(
    alloc: Global,
    bank: &Bank,
    takes: bool,
    c: u32,
    at: Stamp,
) -> Result<Items<Value>, AllocError>
    requires { (ops : Operations) × IsBankAfter bank.now ops × HasChannel ops c kind.Fifo }
    ensures { IfOk result (λ values. (ops : Operations) → IsBankAfter bank.now ops →
        HasChannel ops c kind.Fifo →
        values ≡ (if takes then readable (channel_in at ops c) else [])) }
{
    if !takes {
        return Ok(Items::new(alloc));
    }
    values_of(alloc, bank, c, at)
}

// The values of a fifo that may be read.
fn values_of(alloc: Global, bank: &Bank, c: u32, at: Stamp) -> Result<Items<Value>, AllocError>
    requires { (ops : Operations) × IsBankAfter bank.now ops × HasChannel ops c kind.Fifo }
    ensures { IfOk result (λ values. (ops : Operations) → IsBankAfter bank.now ops →
        HasChannel ops c kind.Fifo → values ≡ readable (channel_in at ops c)) }
{
    let count = bank.available(c, at);
    let mut values = Vec::with_capacity(alloc, count as usize)?;
    for n in 0..count {
        values.push_reserved(bank.value(c, n));
    }
    Ok(Items::from_vec(values))
}

// How many values a fifo takes, if its writing end is held.
fn free_if(bank: &Bank, puts: bool, c: u32, at: Stamp) -> u32
    requires { (ops : Operations) × IsBankAfter bank.now ops × HasChannel ops c kind.Fifo }
    ensures { (ops : Operations) → IsBankAfter bank.now ops → HasChannel ops c kind.Fifo →
        result ≡ (if puts then writable (channel_in at ops c) else 0) }
{
    if puts { bank.free(c, at) } else { 0 }
}
