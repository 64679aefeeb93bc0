ghost use Rattle.ooo_constants.specs.Bare.{IsBare};

use ooo_checked::CheckedStat;

/// The statements of a body; where that is a block alone, those of the block, however many blocks lie in one another.
pub(crate) fn bare(body: &[CheckedStat]) -> &[CheckedStat]
    ensures { IsBare result.now body.now }
{
    let mut inside = body;
    'turns: while let [only] = inside {
        match only {
            CheckedStat::Block(_, inner) => inside = inner.as_slice(),
            _ => return inside,
        }
    }
    inside
}
