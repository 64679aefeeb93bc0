ghost use Rattle.std.specs.Prelude.{◌≡◌, IfOk};
ghost use Rattle.ooo_parser.specs.Reaches.{AWordFollowsAs, FollowsAs, follow_of, root_of};
ghost use Rattle.ooo_parser.specs.Refusals.{IsWithin};

use crate::readings::{Extent, Start, reach};
use crate::words::{in_place, words};
use ooo_grammar::law::{beginnings, beginnings_within, readers};
use ooo_syntax::{Symbol, Terminal};
use std::alloc::{AllocError, Global};

/// Whether a word may follow symbols.
#[derive(Clone, Copy)]
pub(crate) enum Follow {
    /// No text goes on with it.
    Never,
    /// Some text goes on with it, but it is too deep there.
    TooDeep,
    /// Some text goes on with it, which keeps to the limits as far as that.
    Within,
}

// Whether the last symbol of a list may follow, by how far a reading of the list reaches.
fn follow_of(extent: Extent) -> Follow
    ensures { result ≡ follow_of extent }
{
    match extent {
        Extent::Whole | Extent::Refused(0) => Follow::Within,
        Extent::Refused(_) => Follow::Never,
        Extent::TooDeep(_) => Follow::TooDeep,
    }
}

// Whether the word may follow in the place of the symbol.
fn follows<'a>(
    alloc: Global,
    start: Start,
    read: &'a [Symbol<'a>],
    symbol: Symbol<'a>,
    word: Terminal,
) -> Result<Follow, AllocError>
    requires { IsWithin (root_of start) read.now }
    ensures { IfOk result (λ f. FollowsAs (root_of start) read.now symbol.entry word f) }
{
    readers();
    beginnings();
    beginnings_within();
    let mut trial = Vec::from_slice(alloc, read)?;
    trial.push(in_place(read, symbol, word))?;
    Ok(follow_of(reach(alloc, start, trial.as_slice())?))
}

/// Whether some word may follow in the place of the symbol.
pub(crate) fn a_word_follows<'a>(
    alloc: Global,
    start: Start,
    read: &'a [Symbol<'a>],
    symbol: Symbol<'a>,
) -> Result<Follow, AllocError>
    requires { IsWithin (root_of start) read.now }
    ensures { IfOk result (λ f. AWordFollowsAs (root_of start) read.now symbol.entry f) }
{
    beginnings_within();
    let mut most = Follow::Never;
    for word in words() {
        match follows(alloc, start, read, symbol, *word)? {
            Follow::Within => return Ok(Follow::Within),
            Follow::TooDeep => most = Follow::TooDeep,
            Follow::Never => {}
        }
    }
    Ok(most)
}
