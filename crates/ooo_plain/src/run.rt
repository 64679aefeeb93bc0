ghost use Rattle.std.specs.Prelude.{◌≡◌, IfOk, IsTrue};
ghost use Rattle.std.specs.List.{list_any};
ghost use Rattle.ooo_code.specs.declared.design.Design.{Design as DesignSpec};
ghost use Rattle.ooo_code.specs.Sound.{IsSound};
ghost use Rattle.ooo_meaning.specs.World.{World};
ghost use Rattle.ooo_history.specs.Reporting.{output_text};
ghost use Rattle.ooo_plain.specs.Engine.{IsFew};
ghost use Rattle.ooo_plain.specs.Cycles.{AreInRange, IsOver};
ghost use Rattle.ooo_plain.specs.Running.{ShowsRun, ShowsOver, Reaches};

use crate::cycles::CycleEnd;
use crate::engine::Engine;
use crate::laws::laws;
use crate::starting::start;
use ooo_channels::Bank;
use ooo_code::{Design, Limits, Proc};
use ooo_history::{End, Piece, Run};
use ooo_interp::Emitted;
use ooo_time::{Place, Stamp, Time};
use sqlite_items::Items;
use std::alloc::{AllocError, Global};

/// The sequential run of a design (IEEE 1666-2011, 4.2.1): what was printed, the history of each channel, how the run
/// ended, and how many activations there were.
///
/// # Errors
///
/// Only where memory runs out. A design of more processes, channels or events than there are numbers of 32 bits counts
/// as too large for the memory.
pub fn run_plain(alloc: Global, design: &Design, limits: Limits) -> Result<Run, AllocError>
    requires sound { IsSound design.now }
    requires range { AreInRange limits }
    ensures { IfOk result (ShowsRun design.now limits) }
{
    laws();
    if !is_few(design) {
        return Err(AllocError);
    }
    let engine = start(alloc, design)?;
    if is_some_initialized(design.processes.as_slice()) {
        return run_on(alloc, design, limits, engine);
    }
    let zero = Stamp {
        time: Time::ZERO,
        delta: 0,
    };
    finish(alloc, engine, End::Idle(zero), zero)
}

// Whether some process is initialized.
fn is_some_initialized(processes: &[Proc]) -> bool
    ensures { result ≡ list_any (λ x. x.initialize) processes.now }
{
    processes.iter().any(|process| process.initialize)
}

/// Whether each process, channel and event has a number of 32 bits.
pub fn is_few(design: &Design) -> bool
    ensures { IsTrue result → IsFew design.now }
{
    design.processes.len() <= u32::MAX as usize
        && design.channels.len() <= u32::MAX as usize
        && design.events.len() <= u32::MAX as usize
}

/// The run from where the engine is, cycle by cycle, to its end.
///
/// # Errors
///
/// Only where memory runs out.
pub fn run_on(
    alloc: Global,
    design: &Design,
    limits: Limits,
    engine: Engine,
) -> Result<Run, AllocError>
    requires sound { IsSound design.now }
    requires few { IsFew design.now }
    requires range { AreInRange limits }
    requires reaches { Reaches design.now limits engine }
    ensures { IfOk result (ShowsRun design.now limits) }
{
    let mut engine = engine;
    let mut emitted = Emitted::new(alloc);
    'cycles: loop {
        let next = keeping!(engine, emitted; engine.cycle(alloc, design, &mut emitted, &limits));
        match next {
            CycleEnd::Over(end, at) => {
                return finish(alloc, engine, end, at);
            }
            CycleEnd::Goes => {}
        }
    }
}

/// What a run gives that is over: what was printed, the history of each channel up to the cycle of a stamp, how the run
/// ended, and how many activations there were.
///
/// # Errors
///
/// Only where memory runs out.
pub fn finish(alloc: Global, engine: Engine, end: End, at: Stamp) -> Result<Run, AllocError>
    requires { (design : DesignSpec) × (w : World) × IsOver design engine at w }
    ensures { IfOk result (ShowsOver engine at end) }
{
    let Told {
        bank,
        output,
        activations,
    } = told_by(engine);
    let channels = keeping!(output; bank.into_histories(alloc, at));
    let pieces = keeping!(channels; one_piece(alloc, output));
    Ok(Run {
        pieces,
        channels: Items::from_vec(channels),
        end,
        activations,
    })
}

// What an engine tells when its run is over.
#[derive(Drop)]
struct Told {
    bank: Bank,
    output: Vec<u8>,
    activations: u128,
}

// What an engine tells; all else of it goes.
fn told_by(engine: Engine) -> Told
    ensures bank { result.bank ≡ engine.bank }
    ensures output { result.output ≡ engine.output }
    ensures activations { result.activations ≡ engine.activations }
{
    Told {
        bank: engine.bank,
        output: engine.output,
        activations: engine.activations,
    }
}

// What was printed, in one piece.
fn one_piece(alloc: Global, output: Vec<u8>) -> Result<Items<Piece>, AllocError>
    ensures { IfOk result (λ pieces. output_text pieces ≡ output.items) }
{
    let place = Place {
        stamp: Stamp {
            time: Time::ZERO,
            delta: 0,
        },
        process: 0,
    };
    let mut pieces = Vec::new(alloc);
    pieces.push(Piece {
        place,
        bytes: Items::from_vec(output),
    })?;
    Ok(Items::from_vec(pieces))
}
