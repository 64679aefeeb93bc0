ghost use Rattle.std.specs.Prelude.{◌≡◌, ℕ, ◌+◌, ◌%◌, ◌<◌, ◌≤◌, true, false, [], ◌∷◌, Some, None, IfOk, IfErr, OnOk, OnErr, IfSome, IfNone, IsSome, length, vec_capacity};
ghost use Rattle.ooo_dispatch.specs.Steps.{job_of};
ghost use Rattle.ooo_dispatch.specs.declared.step.Step.TheVariants.{Abandon, Commit};
ghost use Rattle.ooo_board.specs.Boards.{rules, state, with_step};
ghost use Rattle.ooo_workers.specs.Boards.{Begins, IsGivenOn, IsQuiet};
ghost use Rattle.ooo_workers.specs.Passes.{Acted, Closes, EndIs, GaveAndTook, Has, Ranged, Rested, RoundIs, Stepped, TurnIs, WorkedIs, fresh_from, job_or_end, out_from};
ghost use Rattle.ooo_workers.specs.Rule.{KeepsJob, May, first_view, noted, seized, stepped};

use crate::board_box::BoardBox;
use crate::lengths::Lengths;
use crate::turn::{Turn, Worked};
use crate::view::{Cut, Free, FreeAfter, Glue, Law, Note, Origin, Pass, Place, Try, View};
use atomic_table::{Refused, Table};
use ooo_board::Board;
use ooo_dispatch::Step;
use ooo_interp::{Done, Job, run_segment};
use ooo_outside::Gate;
use std::alloc::{AllocError, Global};
use std::hint::spin_loop;
use std::snapshot::Snapshot;
use std::sync::Wait;
use std::sync::atomic::AtomicU64;
use std::sync::atomic::Ordering::SeqCst;
use std::thread::yield_now;

/// One board that several callers share, each with a pass of its own.
///
/// A word says whether the board may be taken, and counts the steps: it is even while the board lies in its slot. Who takes it
/// holds the turn, makes one call of the board or two, and puts it back.
#[derive(Drop)]
pub struct Yard {
    table: Table<Option<BoardBox>, View, Origin, Law, Global>,
    passes: u32,
    // How many callers sleep, or are about to, until a step is made.
    sleepers: AtomicU64,
    lengths: Lengths,
    alloc: Global,
    ghost sized: { (table.shared.table_id.words ≡ 1) × (table.shared.table_id.slots ≡ 1) },
    ghost counted: { table.shared.key.passes ≡ passes },
}

// Who is to be woken after a step.
#[derive(Clone, Copy)]
enum Call {
    Nobody,
    One,
    All,
}

// Which jobs a caller is given.
#[derive(Clone, Copy)]
enum Wish {
    // Any.
    Any,
    // Any but one that is better left to who runs another one.
    WorthAWorker,
}

// The word after a step. It may come round, since only sleepers read more of it than its last bit.
fn next_even(word: u64) -> u64
    requires { word % 2 ≡ 0 }
    ensures { result % 2 ≡ 0 }
{
    if word < u64::MAX - 2 { word + 2 } else { 0 }
}

// The word while the turn is held that was found free at this word.
fn odd_of(word: u64) -> u64
    requires { word % 2 ≡ 0 }
    ensures { result % 2 ≡ 1 }
{
    if word < u64::MAX { word + 1 } else { 1 }
}

// Why no job may be had, if that is for good.
fn end_of(board: &Board) -> Option<Turn>
    ensures { IfSome result (EndIs board.now) }
{
    if board.is_lost() {
        Some(Turn::Lost)
    } else if board.is_over() {
        Some(Turn::Over)
    } else {
        None
    }
}

// The job that was had, or why work ends.
fn job_or_end(turn: Turn) -> Result<Option<Job>, Worked>
    ensures { result ≡ job_or_end turn }
{
    match turn {
        Turn::Job(job) => Ok(Some(job)),
        Turn::Over => Err(Worked::Over),
        Turn::Lost => Err(Worked::Lost),
    }
}

// The process of the job, if it is one.
fn process_of(turn: &Result<Option<Turn>, AllocError>) -> Option<u32>
    ensures { result ≡ out_from turn.now }
{
    match turn {
        Ok(Some(Turn::Job(job))) => Some(job.process),
        _ => None,
    }
}

// The one slot of the table, with the board in it.
fn slots_of(alloc: Global, board: BoardBox) -> Result<Vec<Option<BoardBox>>, AllocError>
    ensures { IfOk result (λ slots. slots.items ≡ Some board ∷ []) }
{
    let mut slots = Vec::with_capacity(alloc, 1)?;
    slots.push_reserved(Some(board));
    Ok(slots)
}

// The table over its slot, with the first view.
fn table_of(
    alloc: Global,
    slots: Vec<Option<BoardBox>>,
    origin: &Origin,
) -> Result<(Table<Option<BoardBox>, View, Origin, Law, Global>, Place), AllocError>
    requires some { 0 < origin.now.passes }
    requires board { (slots.items ≡ Some origin.now.board.value ∷ [])
        × IsQuiet origin.now.board.value }
    ensures counts { IfOk result (λ r. (r.0.shared.table_id.words ≡ 1)
        × (r.0.shared.table_id.slots ≡ 1)) }
    ensures key { IfOk result (λ r. r.0.shared.key ≡ origin.now) }
    ensures seat { IfOk result (λ r. (r.1.table_id ≡ r.0.shared.table_id)
        × (r.1.me ≡ (first_view origin.now, []))) }
{
    match Table::new(alloc, &[0], slots, origin) {
        Ok(made) => Ok(made),
        Err(Refused { slots: _ }) => Err(AllocError),
    }
}

impl Yard {
    // How often the turn is looked for before the processor is left to others.
    const SPINS: u32 = 200;

    /// A yard round a board, and its passes in the order of their numbers.
    ///
    /// # Errors
    ///
    /// Only where memory runs out; the board is then given up.
    pub fn make(alloc: Global, board: Board, passes: u32) -> Result<(Yard, Vec<Pass>), AllocError>
        requires passes { (0 < passes) × (passes ≤ 64) }
        requires board { IsQuiet board }
        ensures { IfOk result (λ r. (r.0.passes ≡ passes)
            × (r.1.items ≡ fresh_from r.0.table.shared.table_id board 0 passes)) }
    {
        let processes = board.holds().len();
        let origin = Origin {
            board: Snapshot::of(&board),
            passes,
        };
        let board = BoardBox::new(alloc, board)?;
        Yard::around(alloc, board, &origin, processes)
    }

    // A yard round a board of so many processes, and its passes.
    fn around(
        alloc: Global,
        board: BoardBox,
        origin: &Origin,
        processes: usize,
    ) -> Result<(Yard, Vec<Pass>), AllocError>
        requires some { 0 < origin.now.passes }
        requires board { (origin.now.board.value ≡ board) × IsQuiet board }
        ensures { IfOk result (λ r. (r.0.passes ≡ origin.now.passes)
            × (r.1.items ≡ fresh_from r.0.table.shared.table_id board 0 origin.now.passes)) }
    {
        let slots = slots_of(alloc, board)?;
        let lengths = Lengths::unknown(alloc, processes)?;
        let mut all = Vec::with_capacity(alloc, origin.passes as usize)?;
        let (table, first) = table_of(alloc, slots, origin)?;
        let yard = Yard {
            table,
            passes: origin.passes,
            sleepers: AtomicU64::new(0),
            lengths,
            alloc,
        };
        yard.deal(&mut all, first);
        Ok((yard, all))
    }

    // Cuts the first view into one pass for each number.
    fn deal(&self, all: &mut Vec<Pass>, first: Place)
        requires room { (all.old.items ≡ []) × (self.now.passes ≤ vec_capacity all.old)
            × (0 < self.now.passes) }
        requires own { (first.table_id ≡ self.now.table.shared.table_id) × (first.me.1 ≡ []) }
        requires whole { (first.me.0.number ≡ 0) × (first.me.0.parts ≡ self.now.passes)
            × (first.me.0.made ≡ first.me.0.known.schedule) }
        requires idle { (first.me.0.out ≡ None) × (first.me.0.turn ≡ false)
            × (first.me.0.heard ≡ []) }
        ensures { all.new.items ≡ fresh_from first.table_id first.me.0.known 0 self.now.passes }
    {
        let mut rest = first;
        let mut left = self.passes;
        'passes: while left > 1 {
            let next = self.table.shared.split_seat::<Cut>(&mut rest);
            all.push_reserved(Pass {
                place: rest,
                out: None,
            });
            rest = next;
            left -= 1;
        }
        all.push_reserved(Pass {
            place: rest,
            out: None,
        });
    }

    /// The board, once every pass is back: in the order of their numbers, and with no job out. It waits for nobody and takes
    /// no memory.
    pub fn close(self, mut passes: Vec<Pass>) -> Board
        requires { (length passes.items ≡ self.passes) × (0 < self.passes)
            × Ranged self.table.shared.table_id 0 passes.items }
        ensures { Closes passes.items result }
    {
        let last = passes.pop().unwrap();
        let Pass { mut place, out: _ } = last;
        'joins: while let Some(pass) = passes.pop() {
            let Pass {
                place: other,
                out: _,
            } = pass;
            self.table.shared.join_seat::<Glue>(&mut place, other);
        }
        let Yard { table, .. } = self;
        let mut closed = table.close_with(place);
        let board = closed.take(0).unwrap();
        closed.free();
        Box::into_inner(board.open())
    }

    /// A job, or the reason why there is none. It waits while none may be had, as long as some process runs and no job was
    /// abandoned.
    ///
    /// # Errors
    ///
    /// Only where memory runs out; no step was made then.
    pub fn take<R: Wait>(&self, rt: &R, pass: &mut Pass) -> Result<Turn, AllocError>
        requires own { pass.old.yard ≡ self.now.table.shared.table_id }
        requires idle { pass.old.out ≡ None }
        ensures turn { IfOk result (TurnIs pass.old pass.new) }
        ensures refused { OnErr result (Rested pass.old pass.new) }
    {
        self.take_one(rt, pass, Wish::Any)
    }

    // A job as it is wished for, or the reason why there is none.
    fn take_one<R: Wait>(&self, rt: &R, pass: &mut Pass, wish: Wish) -> Result<Turn, AllocError>
        requires own { pass.old.yard ≡ self.now.table.shared.table_id }
        requires idle { pass.old.out ≡ None }
        ensures turn { IfOk result (TurnIs pass.old pass.new) }
        ensures refused { OnErr result (Rested pass.old pass.new) }
    {
        let mut seen = 0;
        for _ in rt.forever() {
            if let Some(turn) = self.try_take(rt, pass, wish, &mut seen)? {
                return Ok(turn);
            }
            self.rest(rt, seen);
        }
        unreachable!()
    }

    /// Hands in what the job that is out with the pass gave.
    ///
    /// # Errors
    ///
    /// Only where memory runs out; no step was made then, and what was done is handed back.
    pub fn give<R: Wait>(
        &self,
        rt: &R,
        pass: &mut Pass,
        done: Done,
    ) -> Result<(), (AllocError, Done)>
        requires own { pass.old.yard ≡ self.now.table.shared.table_id }
        requires job { (pass.old.out ≡ Some done.process) × IsGivenOn pass.old.known done }
        ensures ok { OnOk result (Stepped (Commit done.process) None pass.old pass.new) }
        ensures refused { IfErr result (λ e. Rested pass.old pass.new × (e.1 ≡ done)) }
    {
        let process = done.process;
        let counted = done.emitted.counted;
        let (mut board, word) = self.seize(rt, &mut pass.place);
        match board.commit(done) {
            Ok(()) => {
                self.lengths.end(process, counted);
                let call = self.call_after(&board);
                self.free_after(&mut pass.place, board, Step::Commit(process), word);
                pass.out = None;
                self.wake(call);
                Ok(())
            }
            Err(refused) => {
                self.free(&mut pass.place, board, word);
                Err(refused)
            }
        }
    }

    /// Hands in what the job that is out with the pass gave, and asks for the next one, in one turn. None where none may be had
    /// now, or memory ran out for it; it doesn't wait for one.
    ///
    /// # Errors
    ///
    /// Only where memory runs out as the job is handed in; no step was made then, and what was done is handed back.
    pub fn give_and_take<R: Wait>(
        &self,
        rt: &R,
        pass: &mut Pass,
        done: Done,
    ) -> Result<Option<Turn>, (AllocError, Done)>
        requires own { pass.old.yard ≡ self.now.table.shared.table_id }
        requires job { (pass.old.out ≡ Some done.process) × IsGivenOn pass.old.known done }
        ensures ok { IfOk result (λ had. GaveAndTook done.process had pass.old pass.new) }
        ensures refused { IfErr result (λ e. Rested pass.old pass.new × (e.1 ≡ done)) }
    {
        self.give_and_take_one(rt, pass, done, Wish::Any)
    }

    // Hands in what the job that is out with the pass gave, and asks for the next one as it is wished for, in one turn.
    fn give_and_take_one<R: Wait>(
        &self,
        rt: &R,
        pass: &mut Pass,
        done: Done,
        wish: Wish,
    ) -> Result<Option<Turn>, (AllocError, Done)>
        requires own { pass.old.yard ≡ self.now.table.shared.table_id }
        requires job { (pass.old.out ≡ Some done.process) × IsGivenOn pass.old.known done }
        ensures ok { IfOk result (λ had. GaveAndTook done.process had pass.old pass.new) }
        ensures refused { IfErr result (λ e. Rested pass.old pass.new × (e.1 ≡ done)) }
    {
        let process = done.process;
        let counted = done.emitted.counted;
        let (mut board, word) = self.seize(rt, &mut pass.place);
        if let Err(refused) = board.commit(done) {
            self.free(&mut pass.place, board, word);
            return Err(refused);
        }
        self.lengths.end(process, counted);
        let board = self.note(&mut pass.place, board, Step::Commit(process), word);
        let turn = self.act(&mut pass.place, board, next_even(word), wish);
        pass.out = process_of(&turn);
        Ok(turn.unwrap_or(None))
    }

    /// Gives the job up that is out with the pass. No job may be had from then on. It takes no memory.
    pub fn abandon<R: Wait>(&self, rt: &R, pass: &mut Pass)
        requires own { pass.old.yard ≡ self.now.table.shared.table_id }
        requires job { IsSome pass.old.out }
        ensures { IfSome pass.old.out (λ p. Stepped (Abandon p) None pass.old pass.new) }
    {
        let process = pass.out.unwrap();
        let (mut board, word) = self.seize(rt, &mut pass.place);
        board.abandon(process);
        self.free_after(&mut pass.place, board, Step::Abandon(process), word);
        pass.out = None;
        self.wake(Call::All);
    }

    /// Takes jobs, passes the gate, runs them and hands in what they gave, until there are none. Where memory runs out with a
    /// job out, that is abandoned.
    pub fn work<G: Gate, R: Wait>(&self, rt: &R, pass: &mut Pass, gate: &G) -> Worked
        requires own { pass.old.yard ≡ self.now.table.shared.table_id }
        requires idle { pass.old.out ≡ None }
        ensures { WorkedIs pass.old pass.new result }
    {
        let mut had = None;
        for _ in rt.forever() {
            match self.round(rt, pass, gate, had) {
                Ok(next) => had = next,
                Err(end) => return end,
            }
        }
        unreachable!()
    }

    // Runs the job that was had, hands in what it gave, and has the next one; or takes one, where none was had.
    fn round<G: Gate, R: Wait>(
        &self,
        rt: &R,
        pass: &mut Pass,
        gate: &G,
        had: Option<Job>,
    ) -> Result<Option<Job>, Worked>
        requires own { pass.old.yard ≡ self.now.table.shared.table_id }
        requires has { Has pass.old had }
        ensures { RoundIs pass.old pass.new result }
    {
        match had {
            None => self.start(rt, pass),
            Some(job) => {
                gate.pass(job.process, job.activation);
                self.go_on(rt, pass, job)
            }
        }
    }

    // Takes a job.
    fn start<R: Wait>(&self, rt: &R, pass: &mut Pass) -> Result<Option<Job>, Worked>
        requires own { pass.old.yard ≡ self.now.table.shared.table_id }
        requires idle { pass.old.out ≡ None }
        ensures { RoundIs pass.old pass.new result }
    {
        match self.take_one(rt, pass, Wish::WorthAWorker) {
            Ok(turn) => job_or_end(turn),
            Err(_) => Err(Worked::NoMemory),
        }
    }

    // Runs the job, hands in what it gave, and has the next one, if one may be had.
    fn go_on<R: Wait>(&self, rt: &R, pass: &mut Pass, job: Job) -> Result<Option<Job>, Worked>
        requires own { pass.old.yard ≡ self.now.table.shared.table_id }
        requires has { Has pass.old (Some job) }
        ensures { RoundIs pass.old pass.new result }
    {
        match self.run(rt, pass, job) {
            Ok(None) => Ok(None),
            Ok(Some(turn)) => job_or_end(turn),
            Err(_) => Err(Worked::NoMemory),
        }
    }

    // Runs the job, hands in what it gave, and has the next turn, if one may be had. Where memory runs out it gives the job up.
    fn run<R: Wait>(&self, rt: &R, pass: &mut Pass, job: Job) -> Result<Option<Turn>, AllocError>
        requires own { pass.old.yard ≡ self.now.table.shared.table_id }
        requires has { Has pass.old (Some job) }
        ensures ok { IfOk result (λ had. GaveAndTook job.process had pass.old pass.new) }
        ensures refused { OnErr result (Stepped (Abandon job.process) None pass.old pass.new) }
    {
        let Ok(done) = run_segment(self.alloc, job) else {
            self.abandon(rt, pass);
            return Err(AllocError);
        };
        match self.give_and_take_one(rt, pass, done, Wish::WorthAWorker) {
            Ok(had) => Ok(had),
            Err(_) => {
                self.abandon(rt, pass);
                Err(AllocError)
            }
        }
    }

    // Waits for the turn, and takes the board out. Beside it stands the word that was found, which is even.
    fn seize<R: Wait>(&self, rt: &R, place: &mut Place) -> (Box<Board>, u64)
        requires own { place.old.table_id ≡ self.now.table.shared.table_id }
        requires idle { (place.old.me.1 ≡ []) × (place.old.me.0.turn ≡ false)
            × (0 < place.old.me.0.parts) }
        ensures own { place.new.table_id ≡ place.old.table_id }
        ensures now { place.new.me ≡ (seized place.old.me.0 result.0.value, (0, None) ∷ []) }
        ensures begins { Begins place.old.me.0.known result.0.value }
        ensures job { KeepsJob place.old.me.0 result.0.value }
        ensures out { (p : ℕ) → place.old.me.0.out ≡ Some p →
            IsSome (job_of (rules result.0.value) (state result.0.value) p) }
        ensures even { result.1 % 2 ≡ 0 }
    {
        let shared = &self.table.shared;
        for _ in rt.forever() {
            let word = shared.peek(0);
            if word % 2 == 0
                && word < u64::MAX
                && shared.compare_exchange::<Try>(place, 0, word, word + 1) == word
            {
                let board = shared.exchange(place, 0, None).unwrap();
                return (board.open(), word);
            }
            self.wait_a_little();
        }
        unreachable!()
    }

    // Waits until the turn is free, or for a little while.
    fn wait_a_little(&self) {
        for _ in 0..Yard::SPINS {
            if self.table.shared.peek(0) % 2 == 0 {
                return;
            }
            spin_loop();
        }
        yield_now();
    }

    // Puts the board back as it was.
    fn free(&self, place: &mut Place, board: Box<Board>, word: u64)
        requires even { word % 2 ≡ 0 }
        requires own { place.old.table_id ≡ self.now.table.shared.table_id }
        requires held { (place.old.me.1 ≡ (0, None) ∷ []) × (place.old.me.0.turn ≡ true)
            × (place.old.me.0.known ≡ board.value) × (0 < place.old.me.0.parts) }
        ensures own { place.new.table_id ≡ place.old.table_id }
        ensures now { place.new.me ≡ (record place.old.me.0 { turn = false }, []) }
    {
        let board = BoardBox::closed(board);
        drop(self.table.shared.exchange(place, 0, Some(board)));
        self.table.shared.store::<Free>(place, 0, word);
    }

    // Puts the board back after one step.
    fn free_after(&self, place: &mut Place, board: Box<Board>, _step: Step, word: u64)
        requires even { word % 2 ≡ 0 }
        requires own { place.old.table_id ≡ self.now.table.shared.table_id }
        requires held { (place.old.me.1 ≡ (0, None) ∷ []) × (place.old.me.0.turn ≡ true)
            × (0 < place.old.me.0.parts) }
        requires step { (board.value ≡ with_step place.old.me.0.known _step)
            × May place.old.me.0 _step }
        ensures own { place.new.table_id ≡ place.old.table_id }
        ensures now { place.new.me ≡ (stepped place.old.me.0 _step, []) }
    {
        let board = BoardBox::closed(board);
        drop(self.table.shared.exchange(place, 0, Some(board)));
        self.table
            .shared
            .store::<FreeAfter>(place, 0, next_even(word));
    }

    // Notes one step, and keeps the turn.
    fn note(&self, place: &mut Place, board: Box<Board>, _step: Step, word: u64) -> Box<Board>
        requires even { word % 2 ≡ 0 }
        requires own { place.old.table_id ≡ self.now.table.shared.table_id }
        requires held { (place.old.me.1 ≡ (0, None) ∷ []) × (place.old.me.0.turn ≡ true)
            × (0 < place.old.me.0.parts) }
        requires step { (board.value ≡ with_step place.old.me.0.known _step)
            × May place.old.me.0 _step }
        ensures own { place.new.table_id ≡ place.old.table_id }
        ensures now { place.new.me ≡ (noted place.old.me.0 _step, (0, None) ∷ []) }
        ensures board { result.value ≡ board.value }
    {
        let shared = &self.table.shared;
        drop(shared.exchange(place, 0, Some(BoardBox::closed(board))));
        shared.store::<Note>(place, 0, odd_of(word));
        shared.exchange(place, 0, None).unwrap().open()
    }

    // With the turn held: one look at the board, and a job as it is wished for, if one may be had. The turn is let go.
    fn act(
        &self,
        place: &mut Place,
        mut board: Box<Board>,
        word: u64,
        wish: Wish,
    ) -> Result<Option<Turn>, AllocError>
        requires own { place.old.table_id ≡ self.now.table.shared.table_id }
        requires held { (place.old.me.1 ≡ (0, None) ∷ []) × (place.old.me.0.turn ≡ true)
            × (place.old.me.0.known ≡ board.value) × (0 < place.old.me.0.parts) }
        requires idle { place.old.me.0.out ≡ None }
        requires even { word % 2 ≡ 0 }
        ensures own { (place.new.table_id ≡ place.old.table_id) × (place.new.me.1 ≡ []) }
        ensures some { IfOk result (λ r. IfSome r (Acted place.old.me.0 place.new.me.0)) }
        ensures none { IfOk result (λ r. IfNone r
            (place.new.me.0 ≡ record place.old.me.0 { turn = false })) }
        ensures refused { OnErr result
            (place.new.me.0 ≡ record place.old.me.0 { turn = false }) }
    {
        let Some(p) = board.pick() else {
            let end = end_of(&board);
            self.free(place, board, word);
            if end.is_some() {
                self.wake(Call::All);
            }
            return Ok(end);
        };
        if wish == Wish::WorthAWorker && self.lengths.is_left(p) {
            self.free(place, board, word);
            return Ok(None);
        }
        match board.dispatch(self.alloc, p) {
            Ok(job) => {
                self.lengths.begin(p);
                let call = self.call_beside(&board, p);
                self.free_after(place, board, Step::Dispatch(p), word);
                self.wake(call);
                Ok(Some(Turn::Job(job)))
            }
            Err(none) => {
                self.free(place, board, word);
                // Who sleeps would wait for this caller's job.
                self.wake(Call::All);
                Err(none)
            }
        }
    }

    // One look at the board, and a turn as it is wished for, if there is one. The word that was found is left in `seen`.
    fn try_take<R: Wait>(
        &self,
        rt: &R,
        pass: &mut Pass,
        wish: Wish,
        seen: &mut u64,
    ) -> Result<Option<Turn>, AllocError>
        requires own { pass.old.yard ≡ self.now.table.shared.table_id }
        requires idle { pass.old.out ≡ None }
        ensures some { IfOk result (λ r. IfSome r (TurnIs pass.old pass.new)) }
        ensures none { IfOk result (λ r. IfNone r (Rested pass.old pass.new)) }
        ensures refused { OnErr result (Rested pass.old pass.new) }
    {
        let (board, word) = self.seize(rt, &mut pass.place);
        *seen = word;
        let turn = self.act(&mut pass.place, board, word, wish);
        pass.out = process_of(&turn);
        turn
    }

    // Sleeps while nobody made a step since the word was found.
    fn rest<R: Wait>(&self, rt: &R, word: u64) {
        self.sleepers.fetch_add(1, SeqCst);
        self.table.shared.park(rt, 0, (word % (1 << 32)) as u32);
        self.sleepers.fetch_sub(1, SeqCst);
    }

    // Who is to be woken once the board is put back: one sleeper, where there is a job to have for it, and all, where the work
    // has ended. It is asked with the turn held.
    fn call_after(&self, board: &Board) -> Call {
        if self.sleepers.load(SeqCst) == 0 {
            Call::Nobody
        } else if board.pick().is_some() {
            Call::One
        } else if board.is_lost() || board.is_over() {
            Call::All
        } else {
            Call::Nobody
        }
    }

    // Who is to be woken once the board is put back, while a job of process `p` is run: nobody, where that is likely to be
    // handed in before anybody woke up.
    fn call_beside(&self, board: &Board, p: u32) -> Call {
        if self.lengths.is_long(p) {
            self.call_after(board)
        } else {
            Call::Nobody
        }
    }

    // Wakes whom a step calls.
    fn wake(&self, call: Call) {
        match call {
            Call::Nobody => {}
            Call::One => self.table.shared.wake_one(0),
            Call::All => self.table.shared.wake_all(0),
        }
    }
}
