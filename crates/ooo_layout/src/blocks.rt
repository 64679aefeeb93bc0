ghost use Rattle.ooo_layout.specs.Blocks.{IsBare};

use ooo_bound::BoundStat;

/// The statements of a body; where that is a block alone, those of the block, however many blocks lie in one another.
pub fn bare(body: &[BoundStat]) -> &[BoundStat]
    ensures { IsBare result.now body.now }
{
    let mut inside = body;
    'turns: while let [only] = inside {
        match only {
            BoundStat::Block(inner) => inside = inner.as_slice(),
            _ => return inside,
        }
    }
    inside
}
