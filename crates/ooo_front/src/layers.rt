ghost use Rattle.std.specs.Prelude.{◌≤◌, length, IfOk};
ghost use Rattle.ooo_activation.specs.Sound.{IsSound as IsSoundModel};
ghost use Rattle.ooo_code.specs.Sound.{IsSound};
ghost use Rattle.ooo_lexer.specs.declared.position.TheConstants.{MOST_BYTES};
ghost use Rattle.ooo_front.specs.Layers.{IsAnswerTo};

use crate::answer::{Accepted, Refused};
use ooo_elaborate::elaborate;
use ooo_lexer::lex;
use ooo_lower::lower;
use ooo_parser::parse;
use ooo_segments::segment_count;
use ooo_sound::law::sound;
use ooo_types::check;
use std::alloc::Global;

// Of an outcome what was made; an error is a refusal, and the value made before it is let go.
macro_rules! keeping {
    ($kept:ident; $made:expr) => {
        match $made {
            Ok(made) => made,
            Err(error) => {
                let refused = Refused::from(error);
                drop($kept);
                return Err(refused);
            }
        }
    };
}

/// Goes with a text through lexer, parser, types, elaboration and lowering, and counts the segments of its design.
///
/// Tokens and trees are let go as soon as the next layer has read them, so that they take no memory any more: the tree of
/// the text member by member, as the types are checked.
///
/// # Errors
///
/// What the first layer that refuses the text refuses, or `OutOfMemory` where memory ran out.
pub fn front(alloc: Global, source: &[u8]) -> Result<Accepted, Refused>
    requires { length source.now ≤ MOST_BYTES }
    ensures answer { IsAnswerTo source.now result }
    ensures model { IfOk result (λ accepted. IsSoundModel accepted.bound) }
    ensures design { IfOk result (λ accepted. IsSound accepted.design) }
{
    sound();
    let tokens = lex(alloc, source)?;
    let tree = keeping!(tokens; parse(alloc, source, &tokens));
    drop(tokens);
    let checked = check(alloc, tree)?;
    let bound = keeping!(checked; elaborate(alloc, checked.tree()));
    drop(checked);
    let design = keeping!(bound; lower(alloc, &bound));
    let Some(segments) = segment_count(&design) else {
        drop(design);
        drop(bound);
        return Err(Refused::TooManySegments);
    };
    Ok(Accepted {
        bound,
        design,
        segments,
    })
}
