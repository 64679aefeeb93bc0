ghost use Rattle.ooo_board.specs.Laws.{Laws};

use ooo_dispatch::law::{
    commits_put_back, commits_walk, cut_stays, every_list_agrees, fronts_in_reach, none_overtakes,
    nothing_away, stay_allowed, steps_are_lawful,
};
use ooo_fronts::law::{
    counts_are_of_the_rule, holds_are_of_the_rule, least_is_picked, tables_are_aligned,
};

/// What holds of designs, and of every lawful list of steps. It does nothing.
pub(crate) fn laws()
    ensures { Laws }
{
    tables_are_aligned();
    counts_are_of_the_rule();
    holds_are_of_the_rule();
    steps_are_lawful();
    fronts_in_reach();
    every_list_agrees();
    nothing_away();
    stay_allowed();
    commits_walk();
    cut_stays();
    none_overtakes();
    commits_put_back();
    least_is_picked();
}
