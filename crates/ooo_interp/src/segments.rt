ghost use Rattle.std.specs.Prelude.{◌≡◌, ◌<◌, IfOk, All};
ghost use Rattle.ooo_code.specs.Outcomes.{View};
ghost use Rattle.ooo_interp.specs.Acting.{job_end, wait_of};
ghost use Rattle.ooo_interp.specs.Carrying.{IsAscending};
ghost use Rattle.ooo_interp.specs.Jobs.{Fits, IsFew, IsKeptBy, IsOf, IsPartOf, SeenAscend, done_on, job_on, number_seen};
ghost use Rattle.ooo_interp.specs.Parts.{AreLent};
ghost use Rattle.ooo_interp.specs.Ports.{ValuesOf, all_shown, channel_of, shown, values_in};

use crate::doing::{Emitted, Halt, Pause};
use crate::fifo_port::FifoPort;
use crate::job::{Done, Job};
use crate::job_parts::{JobParts, first_of, in_order};
use crate::port::Port;
use crate::ports::Ports;
use crate::processes::{Start, run_process};
use crate::seen_fifos::SeenFifos;
use ooo_code::law::{changes_what_is_touched, reads_what_is_touched};
use ooo_code::{Cells, Frame, JobEnd, Seen, WaitOn};
use ooo_value::Value;
use sqlite_items::Items;
use std::alloc::{AllocError, Global};

/// Runs the segment of a job: the activation of its process, on every view of all variables that the job is part of.
///
/// # Errors
///
/// Only where memory runs out; the job is then given up.
#[inline(never)]
pub fn run_segment(alloc: Global, job: Job) -> Result<Done, AllocError>
    requires { Fits job }
    ensures does { IfOk result
        (λ done. (v : View) → IsPartOf job v → job_on job v ≡ done_on done v) }
    ensures of { IfOk result (λ done. IsOf job done) }
{
    reads_what_is_touched();
    changes_what_is_touched();
    let Job {
        design,
        process,
        activation,
        stamp,
        statements,
        frame: Frame { entry, slots },
        owned,
        copied,
        seen,
    } = job;
    let count = design.variables.len();
    let mut parts = keeping!(design; parts_of(alloc, count, slots, owned, copied, seen));
    let start = Start {
        process,
        entry,
        stamp,
        statements,
    };
    let mut emitted = Emitted::new(alloc);
    let halt = keeping!(parts, emitted; run_process(&mut parts, &mut emitted, &design, start));
    let entry = halt.entry_after(entry);
    let end = keeping!(parts, emitted; own_end(alloc, halt));
    Ok(Done {
        process,
        activation,
        frame: Frame {
            entry,
            slots: parts.slots,
        },
        owned: parts.owned,
        emitted,
        end,
    })
}

// The parts that an activation is lent, of a design with so many variables.
fn parts_of(
    alloc: Global,
    count: usize,
    slots: Items<Value>,
    owned: Vec<(u32, Cells)>,
    copied: Vec<(u32, Cells)>,
    seen: Vec<Seen>,
) -> Result<JobParts, AllocError>
    requires owned { IsAscending owned.items × All (λ c. c.0 < count) owned.items }
    requires copied { IsAscending copied.items }
    requires seen { SeenAscend seen.items × All IsFew seen.items }
    ensures { IfOk result (AreLent count slots owned.items copied.items seen.items) }
{
    let ports = keeping!(slots, owned, copied, seen; ports_of(alloc, seen.as_slice()));
    let fifos = SeenFifos::new(seen);
    let first = first_of(owned.as_slice());
    let in_order = in_order(owned.as_slice(), first);
    Ok(JobParts {
        slots,
        owned,
        copied,
        ports,
        fifos,
        count,
        first,
        in_order,
    })
}

// How an activation ended, with a copy of the events that it waits for.
fn own_end(alloc: Global, halt: Halt<'_>) -> Result<JobEnd, AllocError>
    ensures { IfOk result (λ end. end ≡ job_end halt.entry) }
{
    match halt {
        Halt::Waits(_, pause) => {
            let on = wait_on(alloc, pause)?;
            Ok(JobEnd::Waits(on))
        }
        Halt::Ended => Ok(JobEnd::Ended),
        Halt::Faulted(fault, line) => Ok(JobEnd::Faulted(fault, line)),
        Halt::Limit(line) => Ok(JobEnd::Limit(line)),
    }
}

// What is waited for, with a copy of its events.
fn wait_on(alloc: Global, pause: Pause<'_>) -> Result<WaitOn, AllocError>
    ensures { IfOk result (λ on. on ≡ wait_of pause.entry) }
{
    let events = Items::from_slice(alloc, pause.events.as_slice())?;
    Ok(WaitOn {
        time: pause.time,
        events,
    })
}

// A port for each channel that is seen.
fn ports_of(alloc: Global, seen: &[Seen]) -> Result<Ports, AllocError>
    requires few { All IsFew seen.now }
    requires ascending { SeenAscend seen.now }
    ensures { IfOk result (λ ports. all_shown (values_in seen.now) ports ≡ seen.now) }
{
    let mut ports = Ports::with_capacity(alloc, seen.len())?;
    for channel in seen {
        keeping!(ports; ports.push(port_of(channel)));
    }
    Ok(ports)
}

// The port of a channel.
fn port_of(seen: &Seen) -> Port
    requires { IsFew seen.now }
    ensures number { channel_of result ≡ number_seen seen.now }
    ensures shown { (values : ValuesOf) →
        IsKeptBy values seen.now → shown values result ≡ seen.now }
{
    match seen {
        Seen::Signal(channel, v, changed) => Port::Signal(*channel, *v, *changed),
        Seen::Fifo(channel, _, free) => Port::Fifo(FifoPort::new(*channel, *free)),
    }
}
