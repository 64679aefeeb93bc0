//! What holds of the definitions: functions that do nothing, whose clauses are laws.

ghost use Rattle.std.specs.Prelude.{◌≡◌, [], ◌∷◌, codes};
ghost use Rattle.ooo_sim.specs.declared.request.Request.TheVariants as request;
ghost use Rattle.ooo_sim.specs.declared.request.Told.TheVariants as tell;
ghost use Rattle.ooo_sim.specs.declared.request.Wanted.TheVariants as wanted;
ghost use Rattle.ooo_sim.specs.Laws.{AcceptedAreReady, HasOneReply};
ghost use Rattle.ooo_sim.specs.Requests.{request_of};
ghost use Rattle.ooo_words.specs.Limits.{by_default, default_items, default_seed, default_stages, default_workers};

use ooo_code::Frame;

/// What the front accepts may be run: its model is sound, its design is the model's and has as many segments as it says,
/// and no more than it may have, all processes and channels have names, and its own stop time is in range.
pub fn accepted_are_ready()
    ensures { AcceptedAreReady }
{
    ooo_sound::law::sound();
    ooo_sound_model::law::stops();
    ooo_sound_model::law::named();
}

/// A request has one reply from the bytes that it reads: one text to write, and what that comes to.
pub fn one_reply()
    ensures { HasOneReply }
{
    ooo_front::law::one_answer();
    accepted_are_ready();
    ooo_tables::law::one_tables();
    ooo_shapes::law::same_runs();
    ooo_meaning::law::one_run::<Frame>();
}

/// The one word `plain` asks for a run by the sequential scheduler, and the one word `run` for one by one worker, up to the
/// model's own stop time, of at most 10,000 delta cycles at one time and 1,000,000 statements in one activation.
pub fn plain_and_run_ask()
    ensures plain { request_of (codes "plain" ∷ [])
        ≡ request.OfText (wanted.Run tell.Report by_default) }
    ensures run { request_of (codes "run" ∷ [])
        ≡ request.Run by_default default_workers }
{}

/// The one word `bench` asks for the summary of a run by one worker of the text of 4 stages and 16 items, with the seed 1.
pub fn bench_asks()
    ensures { request_of (codes "bench" ∷ [])
        ≡ request.Bench default_stages default_items default_seed default_workers }
{}

/// The one word `check` asks for the numbers of processes and segments, and the one word `tables` for the tables.
pub fn check_and_tables_ask()
    ensures check { request_of (codes "check" ∷ []) ≡ request.OfText wanted.Counts }
    ensures tables { request_of (codes "tables" ∷ []) ≡ request.OfText wanted.Tables }
{}
