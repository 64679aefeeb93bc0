use ooo_meaning::law;
use ooo_meaning::law::Relation;

// Equal places.
struct Equal;

impl Relation<u32, u32> for Equal {
    ghost use Rattle.std.specs.Prelude.{◌≡◌};

    ghost relates = { λ p k l. k ≡ l };
}

// Each law at a type, so that its bounds can be met.
#[test]
fn laws_hold_at_a_type() {
    law::worked_runs();
    law::one_run::<u32>();
    law::same_runs::<u32, u32, Equal>();
    law::keeps_place::<u32>();
    law::every_run_ends::<u32>();
    law::every_design_runs();
}
