ghost use Rattle.std.specs.Prelude.{◌≡◌};
ghost use Rattle.ooo_cli.specs.Ends.{IsOfReply};
ghost use Rattle.ooo_sim.specs.Outcomes.{number_of};
ghost use Rattle.ooo_sim.specs.Requests.{words_of};
ghost use Rattle.ooo_sim.specs.declared.outcome.Outcome.{Outcome};

use crate::remarks::{Seen, remark};
use crate::tail::Tail;
use crate::text_read::TextRead;
use ooo_outside::{OpenGate, ReadSource, WriteSink};
use ooo_sim::simulate;
use std::alloc::Global;
use std::io::{Read, Write};
use std::sync::Wait;
use std::thread::Threads;

/// Does what the words ask for, with this input and output, says on standard error what is wrong, and answers the
/// number to end with.
pub fn perform<I: Read + Drop, O: Write>(
    rt: &(impl Threads + Wait + Sync + Eprint),
    alloc: Global,
    words: &[String],
    input: I,
    output: &mut O,
) -> u8
    // The number is that of an outcome, and unless this is a failure it is that of a reply to the words.
    ensures { (outcome : Outcome)
        × (result ≡ number_of outcome) × IsOfReply (words_of words.now) outcome }
{
    let mut text = TextRead::new(alloc, input);
    let mut tail = Tail::new(output);
    let mut source = ReadSource::new(&mut text);
    let mut sink = WriteSink::new(&mut tail);
    let (outcome, board) = simulate(rt, alloc, words, &mut source, &mut sink, &OpenGate);
    drop(board);
    let seen = Seen {
        source: text.kept(),
        last: tail.last(),
    };
    remark(rt, alloc, &outcome, &seen);
    outcome.number()
}
