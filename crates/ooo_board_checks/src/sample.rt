//! The model of a text, of which boards are made.

ghost use Rattle.std.specs.Prelude.{IfOk, IfSome};
ghost use Rattle.ooo_board.specs.Starting.{AreInRange};
ghost use Rattle.ooo_board_checks.specs.Samples.{IsReady};

use ooo_bound::Bound;
use ooo_code::{Design, Limits};
use ooo_front::{Accepted, front};
use ooo_lexer::MOST_BYTES;
use ooo_time::Time;
use ooo_value::Names;
use ooo_words::RunOptions;
use std::alloc::{AllocError, Global};
use std::sync::Arc;

// More delta cycles at one time than the words can ask for.
const MOST_DELTAS: u32 = 1_000_000;

/// A design with the names of its processes and channels, and the limits of its runs.
#[derive(Drop)]
pub(crate) struct Sample {
    pub(crate) design: Arc<Design>,
    pub(crate) names: Names,
    pub(crate) limits: Limits,
}

impl Sample {
    /// That of a text and of what the words say of a run. None where the text is refused, or nothing stops its run.
    pub(crate) fn make(
        alloc: Global,
        text: &[u8],
        options: RunOptions,
    ) -> Result<Option<Sample>, AllocError>
        ensures { IfOk result (λ sample. IfSome sample IsReady) }
    {
        if text.len() > MOST_BYTES {
            return Ok(None);
        }
        let Ok(accepted) = front(alloc, text) else {
            return Ok(None);
        };
        let Accepted { bound, design, .. } = accepted;
        let Bound { names, stop, .. } = bound;
        let design = Arc::new(alloc, design)?;
        let Some(limits) = limits_of(options, stop) else {
            return Ok(None);
        };
        Ok(Some(Sample {
            design,
            names,
            limits,
        }))
    }
}

// The limits of a run up to the stop time that is given, else to the model's own.
fn limits_of(options: RunOptions, own: Option<Time>) -> Option<Limits>
    ensures { IfSome result AreInRange }
{
    let stop = match options.stop {
        Some(given) => given,
        None => own?,
    };
    if stop.0 > Time::GREATEST.0 || options.deltas == 0 || options.deltas > MOST_DELTAS {
        return None;
    }
    Some(Limits {
        stop,
        deltas: options.deltas,
        statements: options.statements,
    })
}
