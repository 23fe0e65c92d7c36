// The queues of all tasks side by side, and the next attempts: what one attempt leaves of them.

ghost use Rattle.std.specs.Prelude.{◌≡◌, false, true, Some, None, ℕ, ◌+◌, ◌^◌, ◌≤◌, ◌<◌, ◌*◌, ◌-◌, get_or, set, ◌≢◌, eqb};
ghost use Rattle.std.specs.Int.Count.{count_trailing_zeros};
ghost use Rattle.operation.specs.Environment.{kind_of};
ghost use Rattle.operation.specs.declared.Wait.TheVariants.{Data};
ghost use Rattle.step.specs.Queues.{places, numbers, pt_count, head_of, turned, shifted, joined, below_total};
ghost use Rattle.step.specs.Act.{turned_at, passed_to};
ghost use Rattle.step.specs.Code.Parts.{moved_queues, waved_motion, created_motion};
ghost use Rattle.step.specs.declared.Motion.TheVariants.{Leaves};
ghost use Rattle.step.specs.declared.Attempt.TheVariants.{Try};
ghost use Rattle.run_rings.specs.Code.Rings.{ring_count};
ghost use Rattle.run_next.specs.declared.NextRole.TheVariants.{Tries, Follows};
ghost use Rattle.run_next.specs.Code.Next.{next_at, next_is, only, standing, place_after, attempt_at, had_in, going_motion, no_place};
ghost use Rattle.run_next.specs.Code.Settled.{Makes, Ready, Others, Settles, going_place, trap_by};
ghost use Rattle.run_next.specs.Code.Stands.{Stands};
ghost use Rattle.run_next.specs.Code.Tally.{tally_cells};
ghost use Rattle.run_schedule.specs.Code.Carried.{lines_of, Keeps};
ghost use Rattle.run_schedule.specs.Code.Queued.{all_queues, queue_of, RingMoves, QueuedGoes, both_lens, Acts};

use crate::{CELLS, Carried, Queued};
use operation::{Course, Trap};
use run_next::{Next, NextRole};
use run_rings::Rings;
use step::{NO_TRAP, NUMBERS, PLACES, PTS};

// Places of the counts, of task t at place + t: those of steps, behind them those of tries that end an item, and of tries that a step follows. They
// are numbers since a cell is reached by one sum.
pub(crate) const EXECUTED: usize = 0;

pub(crate) const WAVED: usize = NUMBERS;

pub(crate) const TRAPPED: usize = 2 * NUMBERS;

pub(crate) const IDLE: usize = 3 * NUMBERS;

pub(crate) const TRY: usize = 4 * NUMBERS;

pub(crate) const THEN: usize = 7 * NUMBERS;

// The place of the PSW of a created process.
pub(crate) const FRESH: usize = PTS;

// ---- queues side by side

// The PT at the head of ring k.
fn front(rings: &Rings, k: usize) -> u8
    requires { k < ring_count }
    ensures { result ≡ head_of (queue_of rings.now k) }
{
    rings.pts[PLACES * k + rings.heads[k] % PLACES]
}

// Head to tail; a queue of fewer than two processes is its own turn.
fn turn(rings: &mut Rings, k: usize)
    requires { (k < ring_count) × (get_or rings.old.lens k 0 ≤ places) }
    ensures { RingMoves k turned rings.old rings.new × (rings.new.lens ≡ rings.old.lens) }
{
    let len = rings.lens[k];
    if len < 2 {
        return;
    }
    let head = rings.heads[k] % PLACES;
    let pt = rings.pts[PLACES * k + head];
    rings.pts[PLACES * k + (head + len) % PLACES] = pt;
    rings.heads[k] = (head + 1) % PLACES;
}

// The head leaves.
fn leave(rings: &mut Rings, k: usize)
    requires { (k < ring_count) × (0 < get_or rings.old.lens k 0) }
    ensures { RingMoves k shifted rings.old rings.new }
{
    rings.heads[k] = (rings.heads[k] % PLACES + 1) % PLACES;
    rings.lens[k] -= 1;
}

// A PT joins at the tail.
fn join(rings: &mut Rings, k: usize, pt: u8)
    requires { (k < ring_count) × (get_or rings.old.lens k 0 < places) }
    ensures { RingMoves k (λ q. joined q pt) rings.old rings.new }
{
    let len = rings.lens[k];
    rings.pts[PLACES * k + (rings.heads[k] % PLACES + len) % PLACES] = pt;
    rings.lens[k] = len + 1;
}

// The head of ring k goes to the tail of ring to.
fn pass(rings: &mut Rings, k: usize, to: usize)
    requires { (k < ring_count) × (to < ring_count) × (k ≢ to) × (1 ≤ get_or rings.old.lens k 0) × (get_or rings.old.lens to 0 < places) }
    ensures { all_queues rings.new ≡ passed_to (all_queues rings.old) k to }
{
    let pt = front(rings, k);
    leave(rings, k);
    join(rings, to, pt);
}

// The process of a try goes to the tail of the task's queue, or where it waits to that of the SFU queue.
fn went(rings: &mut Rings, t: usize, place: usize)
    requires { (t < numbers) × (both_lens t rings.old ≤ places) × (1 ≤ get_or rings.old.lens (2 * t + 1) 0) }
    ensures { all_queues rings.new ≡ moved_queues (going_motion (eqb place 8) Try) Try t (all_queues rings.old) }
{
    let own = 2 * t;
    if place == WAVED {
        turn(rings, own + 1);
        return;
    }
    pass(rings, own + 1, own);
}

// ---- the next attempt of a task

// The role of the head of a queue of n processes.
fn only(n: usize) -> NextRole
    ensures { result ≡ only n }
{
    if n == 1 {
        return NextRole::Alone;
    }
    NextRole::Several
}

// The next attempt of an active task where no item is under way.
fn standing(rings: &Rings, t: usize) -> Option<Next>
    requires { t < numbers }
    ensures { result ≡ standing false t (all_queues rings.now) }
{
    let own = 2 * t;
    if rings.lens[own + 1] != 0 {
        return Some(Next {
            pt: front(rings, own + 1),
            role: NextRole::Tries,
        });
    }
    let len = rings.lens[own];
    if len == 0 {
        return None;
    }
    Some(Next {
        pt: front(rings, own),
        role: only(len),
    })
}

impl Queued {
    // A try is over, whose count would be at place; the step follows where the task had a process of its own.
    fn tried(&mut self, t: usize, had: bool, place: usize) -> usize
        requires { (t < numbers) × (place < 32) }
        ensures { (result ≡ place_after Try had place) × (self.new.rings ≡ self.old.rings) × (self.new.next ≡ set self.old.next t (standing had t (all_queues self.old.rings))) }
    {
        if !had {
            self.next[t] = standing(&self.rings, t);
            return TRY + place;
        }
        self.next[t] = Some(Next {
            pt: front(&self.rings, 2 * t),
            role: NextRole::Follows,
        });
        THEN + place
    }

    // The process of a step goes to the tail of its queue.
    fn stepped(&mut self, t: usize, next: Next)
        requires { Acts t next self.old × (next.role ≢ Tries) }
        ensures { (all_queues self.new.rings ≡ turned_at (all_queues self.old.rings) (2 * t)) × (self.new.next ≡ set self.old.next t (standing false t (all_queues self.new.rings))) }
    {
        let own = 2 * t;
        turn(&mut self.rings, own);
        if let NextRole::Follows = next.role {
            self.next[t] = standing(&self.rings, t);
            return;
        }
        self.next[t] = Some(Next {
            pt: front(&self.rings, own),
            role: next.role,
        });
    }

    // The process goes on or waits, though not for a data word: place is that of the count of a step.
    fn moves_on(&mut self, t: usize, next: Next, place: usize) -> usize
        requires { Acts t next self.old × (place < 32) }
        ensures { (result ≡ place_after (attempt_at t self.old.next) (had_in t self.old.rings.lens) place) × QueuedGoes t (going_motion (eqb place 8)) self.old self.new }
    {
        if let NextRole::Tries = next.role {
            let had = self.rings.lens[2 * t] != 0;
            went(&mut self.rings, t, place);
            return self.tried(t, had, place);
        }
        self.stepped(t, next);
        place
    }

    // The process waits for a data word: in a step to the SFU queue, in a try to its tail.
    fn parks(&mut self, t: usize, next: Next) -> usize
        requires { Acts t next self.old }
        ensures { (result ≡ place_after (attempt_at t self.old.next) (had_in t self.old.rings.lens) 8) × QueuedGoes t (λ a. waved_motion a Data) self.old self.new }
    {
        let own = 2 * t;
        if let NextRole::Tries = next.role {
            let had = self.rings.lens[own] != 0;
            turn(&mut self.rings, own + 1);
            return self.tried(t, had, WAVED);
        }
        pass(&mut self.rings, own, own + 1);
        self.next[t] = standing(&self.rings, t);
        WAVED
    }

    // The process leaves for good.
    fn leaves(&mut self, t: usize, next: Next) -> usize
        requires { Acts t next self.old }
        ensures { (result ≡ place_after (attempt_at t self.old.next) (had_in t self.old.rings.lens) 0) × QueuedGoes t (λ a. Leaves) self.old self.new }
    {
        let own = 2 * t;
        if let NextRole::Tries = next.role {
            let had = self.rings.lens[own] != 0;
            leave(&mut self.rings, own + 1);
            return self.tried(t, had, EXECUTED);
        }
        leave(&mut self.rings, own);
        if let NextRole::Several = next.role {
            self.next[t] = Some(Next {
                pt: front(&self.rings, own),
                role: only(self.rings.lens[own]),
            });
            return EXECUTED;
        }
        self.next[t] = standing(&self.rings, t);
        EXECUTED
    }

    // The created process p joins the task's queue, behind its creator.
    fn joins(&mut self, t: usize, next: Next, p: u8) -> usize
        requires { Acts t next self.old × (both_lens t self.old.rings < places) }
        ensures { (result ≡ place_after (attempt_at t self.old.next) (had_in t self.old.rings.lens) 0) × QueuedGoes t (λ a. created_motion a p) self.old self.new }
    {
        let own = 2 * t;
        if let NextRole::Alone = next.role {
            join(&mut self.rings, own, p);
            self.next[t] = Some(Next {
                pt: next.pt,
                role: NextRole::Several,
            });
            return EXECUTED;
        }
        if let NextRole::Tries = next.role {
            let had = self.rings.lens[own] != 0;
            pass(&mut self.rings, own + 1, own);
            join(&mut self.rings, own, p);
            return self.tried(t, had, EXECUTED);
        }
        turn(&mut self.rings, own);
        join(&mut self.rings, own, p);
        self.next[t] = standing(&self.rings, t);
        EXECUTED
    }
}

// ---- the word of free PTs: digit p from the right is 1 where PT p is free

// The lowest free PT, 64 where none is.
fn lowest(free: u64) -> usize
    ensures { result ≡ count_trailing_zeros pt_count free }
{
    u64::trailing_zeros(free) as usize
}

// The word in which PT p alone is free.
fn alone_free(p: usize) -> u64
    requires { p < 64 }
    ensures { result ≡ 2 ^ p }
{
    1u64 << p
}

// ---- what becomes of a task by the course of its attempt

// The place of a course that only moves the process on.
fn going(c: Course) -> Option<usize>
    ensures { result ≡ going_place c }
{
    match c {
        Course::Continues => Some(EXECUTED),
        Course::Waits => Some(WAVED),
        _ => None,
    }
}

// The trap of a course; a create that reached the total faults.
fn trap_by(c: Course) -> Trap
    ensures { result ≡ trap_by c }
{
    match c {
        Course::IllegalInstruction => Trap::IllegalInstruction,
        Course::ProtectionViolation => Trap::ProtectionViolation,
        Course::PrivilegedInstruction => Trap::PrivilegedInstruction,
        Course::SupervisorCall => Trap::SupervisorCall,
        Course::SimulatedInstruction => Trap::SimulatedInstruction,
        Course::DataException => Trap::DataException,
        _ => Trap::CreateFault,
    }
}

impl Carried {
    // The process leaves for good: its PT is free again, and one process fewer lives.
    fn quits(&mut self, t: usize, next: Next) -> usize
        requires { Acts t next self.old.queued × (next.pt < 64) × (self.old.free + 2 ^ next.pt < 2 ^ 64) × (0 < self.old.count) }
        ensures { (self.new.free ≡ self.old.free + 2 ^ next.pt) × (self.new.count ≡ self.old.count - 1) × (self.new.psws ≡ self.old.psws) × (self.new.flag ≡ self.old.flag) × Keeps self.old self.new × (result ≡ place_after (attempt_at t self.old.queued.next) (had_in t self.old.queued.rings.lens) 0) × QueuedGoes t (λ a. Leaves) self.old.queued self.new.queued }
    {
        self.free += alone_free(next.pt as usize);
        self.count -= 1;
        self.queued.leaves(t, next)
    }

    // A process is made with the lowest free PT; the one that makes the total faults, and no place is answered.
    fn creates(&mut self, t: usize, next: Next) -> Option<usize>
        requires { Acts t next self.old.queued × (count_trailing_zeros pt_count self.old.free < 64) × (2 ^ count_trailing_zeros pt_count self.old.free ≤ self.old.free) × (self.old.count < 64) × (both_lens t self.old.queued.rings < places) }
        ensures { (self.new.free ≡ self.old.free - 2 ^ count_trailing_zeros pt_count self.old.free) × (self.new.count ≡ self.old.count + 1) × (self.new.psws ≡ set self.old.psws (count_trailing_zeros pt_count self.old.free) (get_or self.old.psws 64 0)) × Keeps self.old self.new × Makes t (count_trailing_zeros pt_count self.old.free) (below_total self.old.count) result self.old.queued.next self.old.queued.rings.pts self.old.queued.rings.heads self.old.queued.rings.lens self.old.flag self.new.queued.next self.new.queued.rings.pts self.new.queued.rings.heads self.new.queued.rings.lens self.new.flag }
    {
        let p = lowest(self.free);
        let below = step_queue::below_total(self.count);
        self.free -= alone_free(p);
        self.count += 1;
        self.psws[p] = self.psws[FRESH];
        if !below {
            self.flag = 1;
            join(&mut self.queued.rings, 2 * t, p as u8);
            return None;
        }
        Some(self.queued.joins(t, next, p as u8))
    }

    // A trap stores kind and PSW, and the task is idle from now on.
    fn trap(&mut self, t: usize, next: Next, kind: u8, p: u64) -> usize
        requires { (t < numbers) × (next_at self.old.queued.next t ≡ Some next) }
        ensures { (result ≡ place_after (attempt_at t self.old.queued.next) false 16) × (self.new.kinds ≡ set self.old.kinds t kind) × (self.new.stored ≡ set self.old.stored t p) × (self.new.queued.next ≡ set self.old.queued.next t None) × (self.new.queued.rings ≡ self.old.queued.rings) × (self.new.psws ≡ self.old.psws) × (self.new.flag ≡ self.old.flag) × (self.new.free ≡ self.old.free) × (self.new.count ≡ self.old.count) × (self.new.tally ≡ self.old.tally) }
    {
        self.kinds[t] = kind;
        self.stored[t] = p;
        self.queued.next[t] = None;
        if let NextRole::Tries = next.role {
            return TRY + TRAPPED;
        }
        TRAPPED
    }

    // A course that changes the queues: its place, none where the task traps.
    fn others(&mut self, c: Course, t: usize, next: Next) -> Option<usize>
        requires { (going_place c ≡ None) × Ready t next c (lines_of self.old) }
        ensures { ((p : ℕ) → Others t next.pt c p result (lines_of self.old) (lines_of self.new)) × Keeps self.old self.new }
    {
        match c {
            Course::WaitsForData => Some(self.queued.parks(t, next)),
            Course::Quits => Some(self.quits(t, next)),
            Course::Creates => self.creates(t, next),
            _ => None,
        }
    }

    // What becomes of task t by the course of its attempt, whose process then has the PSW p: the place of its count.
    pub(crate) fn settle(&mut self, c: Course, t: usize, next: Next, p: u64) -> usize
        requires { Ready t next c (lines_of self.old) }
        ensures { Settles t next.pt c p result (lines_of self.old) (lines_of self.new) × (self.new.tally ≡ self.old.tally) }
    {
        if let Some(place) = going(c) {
            if let NextRole::Alone = next.role {
                return place;
            }
            return self.queued.moves_on(t, next, place);
        }
        if let Some(place) = self.others(c, t, next) {
            return place;
        }
        self.trap(t, next, operation::kind(trap_by(c)), p)
    }
}

// The queues, and the next attempts of all tasks where no item is under way: none of a task that has trapped or is unlisted.
pub(crate) fn laid(rings: Rings, kinds: &[u8; NUMBERS]) -> Queued
    ensures { (result.rings ≡ rings) × Stands kinds.now result.next (all_queues rings) }
{
    let mut next = [None; NUMBERS];
    for t in 0..NUMBERS {
        if kinds[t] != NO_TRAP {
            continue;
        }
        next[t] = standing(&rings, t);
    }
    Queued { rings, next }
}

// One attempt more at this place of task t.
pub(crate) fn count_attempt(tally: &mut [u32; CELLS], place: usize, t: usize)
    requires { (t < numbers) × (place < no_place) × (get_or tally.old (place + t) 0 < 2 ^ 32 - 1) }
    ensures { tally.new ≡ set tally.old (place + t) (get_or tally.old (place + t) 0 + 1) }
{
    tally[place + t] += 1;
}
