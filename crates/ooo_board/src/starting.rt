//! What a board keeps as it starts.

ghost use Rattle.std.specs.Prelude.{◌≡◌, map, replicate, IfOk};
ghost use Rattle.ooo_code.specs.declared.limits.Limits.{Limits as LimitsSpec};
ghost use Rattle.ooo_tables.specs.Tables.{AreTables};
ghost use Rattle.ooo_dispatch.specs.Least.{rules_of};
ghost use Rattle.ooo_dispatch.specs.Rules.{start_wait};
ghost use Rattle.ooo_dispatch.specs.Steps.{nothing_done};
ghost use Rattle.ooo_board.specs.Cores.{AreProcesses, IsCore, wait_is};
ghost use Rattle.ooo_board.specs.Links.{AreLinks};
ghost use Rattle.ooo_board.specs.Starting.{IsFirst, first_cells, first_front, zeros_of};

use crate::cores::Core;
use crate::links::Links;
use crate::process::{Process, Waiting};
use ooo_channels::Bank;
use ooo_code::{Cells, Design, Limits, Proc, SegmentEntry};
use ooo_fronts::{Cut, Front, Fronts, State};
use ooo_tables::Tables;
use ooo_time::{Stamp, Time};
use ooo_value::{BoundVariable, Kind, Value};
use sqlite_items::Items;
use std::alloc::{AllocError, Global};

// Room for so many values lies between those of one process or variable and what follows them in memory: as much as two
// lines of a cache hold. Workers who write into one line wait for each other.
const GAP: usize = 8;

impl Core {
    /// What a board keeps of a design with its tables as it starts: nothing was done.
    ///
    /// # Errors
    ///
    /// Only where memory runs out.
    pub(crate) fn make(
        alloc: Global,
        design: &Design,
        tables: &Tables,
        links: &Links,
        limits: &Limits,
    ) -> Result<Core, AllocError>
        requires tables { AreTables design.now tables.now }
        requires links { AreLinks design.now tables.now links.now }
        ensures { IfOk result (IsCore design.now limits.now tables.now
            (nothing_done (rules_of design.now limits.now tables.now))) }
    {
        ooo_fronts::law::tables_are_aligned();
        let processes = first_processes(alloc, design, tables, links)?;
        let fronts = keeping!(processes; first_fronts(alloc, processes.as_slice()));
        let fronts = keeping!(processes; Fronts::make(alloc, tables, &links.reaches, fronts));
        let states = vec![in alloc; State::Waiting; processes.len()];
        let states = keeping!(processes, fronts; states);
        let variables = first_variables(alloc, design.variables.as_slice());
        let variables = keeping!(processes, fronts, states; variables);
        let bank = keeping!(processes, fronts, states, variables; Bank::make(alloc, design));
        Ok(Core {
            bank,
            below: Stamp::default(),
            variables,
            states,
            processes,
            fronts,
            cut: Cut::new(limits),
            pieces: Vec::new(alloc),
            places: Vec::new(alloc),
        })
    }
}

// Each process at its start.
fn first_processes(
    alloc: Global,
    design: &Design,
    tables: &Tables,
    links: &Links,
) -> Result<Vec<Process>, AllocError>
    requires tables { AreTables design.now tables.now }
    requires links { AreLinks design.now tables.now links.now }
    ensures { (limits : LimitsSpec) → let r = rules_of design.now limits tables.now in
        IfOk result (λ made. AreProcesses r (nothing_done r).board made.items) }
{
    let segments = tables.graph.segments.as_slice();
    let processes = design.processes.as_slice();
    let mut made = Vec::with_capacity(alloc, processes.len())?;
    for p in 0..processes.len() as u32 {
        let segment = links.segment(segments, p, SegmentEntry::Start);
        let process = first_process(alloc, segment, &processes[p as usize]);
        made.push_reserved(keeping!(made; process));
    }
    Ok(made)
}

// A process at its start, with its first segment: none of its activations was committed.
fn first_process(alloc: Global, segment: u32, process: &Proc) -> Result<Process, AllocError>
    ensures { IfOk result (IsFirst segment process.now) }
{
    let waiting = first_wait(alloc, segment, process)?;
    let slots = keeping!(waiting; zeros(alloc, process.slots.as_slice()));
    let slots = keeping!(waiting; set_apart(slots));
    Ok(Process {
        slots: Items::from_vec(slots),
        waiting: Some(waiting),
        activations: 0,
    })
}

// A 0 of each kind.
fn zeros(alloc: Global, kinds: &[Kind]) -> Result<Vec<Value>, AllocError>
    ensures { IfOk result (λ values. values.items ≡ zeros_of kinds.now) }
{
    kinds.iter().map(|kind| kind.zero()).collect(alloc)
}

// The same values, with room behind them.
fn set_apart(values: Vec<Value>) -> Result<Vec<Value>, AllocError>
    ensures { IfOk result (λ apart. apart.items ≡ values.items) }
{
    let mut apart = values;
    apart.reserve_exact(GAP)?;
    Ok(apart)
}

// How a process waits as it starts, with its first segment: for time zero where it is initialized, and else for its static
// events.
fn first_wait(alloc: Global, segment: u32, process: &Proc) -> Result<Waiting, AllocError>
    ensures { IfOk result (λ waiting. wait_is waiting ≡ start_wait segment process.now) }
{
    let (timeout, events) = if process.initialize {
        let zero = Stamp {
            time: Time::ZERO,
            delta: 0,
        };
        (Some(zero), Items::new(alloc))
    } else {
        (
            None,
            Items::from_slice(alloc, process.sensitive.as_slice())?,
        )
    };
    Ok(Waiting {
        segment,
        timeout,
        events,
        since: None,
    })
}

// The fronts of processes at their starts.
fn first_fronts(alloc: Global, processes: &[Process]) -> Result<Vec<Option<Front>>, AllocError>
    ensures { IfOk result (λ fronts. fronts.items ≡ map first_front processes.now) }
{
    processes.iter().map(first_front).collect(alloc)
}

// The front of a process at its start, by its time-out: no event was notified.
fn first_front(process: &Process) -> Option<Front>
    ensures { result ≡ first_front process.now }
{
    let Some(waiting) = &process.waiting else {
        return None;
    };
    Some(Front {
        segment: waiting.segment,
        stamp: waiting.timeout?,
    })
}

// Each variable with its start value, with room behind its cells.
fn first_variables(alloc: Global, bound: &[BoundVariable]) -> Result<Vec<Cells>, AllocError>
    ensures { IfOk result (λ made. made.items ≡ first_cells bound.now) }
{
    let mut made = Vec::with_capacity(alloc, bound.len())?;
    for x in bound {
        made.push_reserved(keeping!(made; cells_of(alloc, x)));
    }
    Ok(made)
}

// The cells of a variable with its start value, with room behind them.
fn cells_of(alloc: Global, x: &BoundVariable) -> Result<Cells, AllocError>
    ensures { IfOk result (λ cells. cells ≡ replicate x.now.length x.now.start) }
{
    let cells = set_apart(vec![in alloc; x.start; x.length as usize]?)?;
    Ok(Items::from_vec(cells))
}
