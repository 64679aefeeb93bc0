ghost use Rattle.ooo_plain.specs.Laws.{Laws};

use ooo_channels::law::{activates, fires, forgets, in_order, others_stay, settles, shows, starts};
use ooo_code::law::{changes_what_is_touched, own_steps_are_seen, reads_what_is_touched};

/// What holds of channels and of code. It does nothing.
pub fn laws()
    ensures { Laws }
{
    others_stay();
    starts();
    activates();
    settles();
    forgets();
    shows();
    fires();
    in_order();
    reads_what_is_touched();
    changes_what_is_touched();
    own_steps_are_seen();
}
