ghost use Rattle.std.specs.Prelude.{◌≡◌, ◌⊎◌, ℕ, ◌^◌, ◌<◌, ◌≤◌, [], true, length, map, sum_by, unwrap_or, All, IfOk, OnOk, OnErr};
ghost use Rattle.osb_recipe.specs.declared.outcomes.Outcome.TheVariants as ends;
ghost use Rattle.osb_tree.specs.Trees.{tree_size};
ghost use Rattle.osb_tree.specs.Chunks.{AreOfATree};
ghost use Rattle.osb_recipe.specs.Plans.{IsSound};
ghost use Rattle.osb_board.specs.Boards.{outcomes};
ghost use Rattle.osb_cache.specs.Caches.{stored_of, counted, CanOpen};
ghost use Rattle.osb_state.specs.Openings.{opened_state};
ghost use Rattle.osb_state.specs.Kept.{Valid};
ghost use Rattle.osb_state.specs.States.{Allows, gives, after, is_ready, is_refusable};
ghost use Rattle.std.specs.List.{slice_index_or};
ghost use Rattle.osb_job.specs.Moves.{reserve_event};

use crate::Opened;
use crate::openings::{count_kept, deps_of, keys_of, marked_of};
use crate::places::{note, spare};
use crate::stagings::{Staging, count_put, take_staging};
use osb_board::{Board, Claim};
use osb_cache::{Cache, Look, Pin, Reserve, Stored, Ticket};
use osb_job::{Action, Entry, Event, Reply, word_of};
use osb_recipe::{Outcome, Plan};
use osb_tree::{Chunk, Key, List, NoMemory, Shared as Owned, TaskNo, WorkerNo};
use std::alloc::{AllocError, Global};
use std::marker::Model;

/// What is left at the end.
#[derive(Drop)]
pub struct Finished {
    /// By task: for want of memory where a task is not done.
    pub outcomes: List<Outcome>,
    /// The entries of the cache, first the one that was used first.
    pub entries: List<Stored<Chunk>>,
    pub opened: Opened,
    pub log: List<Entry>,
}

/// What workers share: a cache, a board of tasks and the log.
#[derive(Drop)]
pub struct Shared {
    cache: Cache<Chunk>,
    board: Board<Outcome>,
    marked: List<List<Key>>,
    keys: u64,
    opened: Opened,
    log: Vec<Entry>,
    /// What is staged, in numbers.
    stagings: Vec<Staging>,
    /// How many places of the log are owed to later releases.
    due: usize,
}

impl Model for Shared {
    ghost use Rattle.std.specs.Prelude.{vec_capacity};
    ghost use Rattle.osb_state.specs.States.{State};
    ghost use Rattle.osb_machine.specs.Owed.{IsShared};

    ghost Value = { State };

    ghost view = { λ s. record { cache = s.cache; board = s.board; marked = s.marked; keys = s.keys; opened = s.opened; log = s.log.items } };

    ghost invariant = { λ s. IsShared (record { cache = s.cache; board = s.board; marked = s.marked; keys = s.keys; opened = s.opened; log = s.log.items }) s.stagings.items s.due (vec_capacity s.log) };
}

impl Shared {
    /// The shared state before the first action: the cache has these entries, without those that are too much.
    pub fn open(
        alloc: Global,
        plan: &Plan,
        opening: Vec<Stored<Chunk>>,
        limit: u64,
    ) -> Result<Self, NoMemory>
        requires sound { IsSound plan.now }
        requires can_open { CanOpen tree_size limit opening.items }
        requires known { All (λ stored. stored.key.0 < length plan.now.table.recipes) opening.items }
        requires trees { All (λ stored. AreOfATree stored.chunks) opening.items }
        ensures opened { IfOk result (λ shared. shared ≡ opened_state plan.now opening.items limit) }
    {
        let tasks = plan.tasks.as_slice();
        let deps = deps_of(alloc, tasks)?;
        let marked = List::new(marked_of(alloc, tasks)?);
        let keys = keys_of(alloc, &opening)?;
        let cache = Cache::open(alloc, limit, opening)?;
        let kept = count_kept(&cache, &keys);
        let opened = Opened {
            kept: kept as u64,
            bytes: cache.counted(),
            evicted: (keys.len() - kept) as u64,
        };
        Ok(Shared {
            cache,
            board: Board::new(alloc, &deps)?,
            marked,
            keys: plan.table.recipes().len() as u64,
            opened,
            log: Vec::new(alloc),
            stagings: Vec::new(alloc),
            due: 0,
        })
    }

    /// What holds of the state, for proofs.
    pub(crate) fn state_is_valid(&self)
        ensures valid { Valid self.now }
    {
        let _ = &self.log;
    }

    /// Whether the action need not wait for another worker: a claim has to where tasks wait and none is ready.
    pub fn ready(&self, _worker: WorkerNo, action: &Action) -> bool
        ensures ready { result ≡ is_ready self.now action.now }
        ensures valid { Valid self.now }
    {
        match action {
            Action::Claim => !self.board.is_idle(),
            _ => true,
        }
    }

    /// An action of a worker.
    pub fn play(
        &mut self,
        alloc: Global,
        worker: WorkerNo,
        action: Action,
    ) -> Result<Reply, NoMemory>
        requires allowed { Allows self.old worker action }
        ensures reply { IfOk result (λ reply. reply ≡ gives self.old worker action) }
        ensures after { OnOk result (self.new ≡ after self.old worker action) }
        ensures err { OnErr result (self.new ≡ self.old) }
        ensures sure { (is_refusable action ≡ true) ⊎ OnErr result ⊥ }
    {
        match action {
            Action::Claim => return self.claim(worker),
            Action::Fetch(dep) => return self.fetch(worker, dep),
            Action::Look(task) => return self.look(worker, task),
            Action::Read(key, place) => return self.read(worker, key, place),
            Action::Reserve(key, size, count) => {
                return self.reserve(alloc, worker, key, size, count);
            }
            Action::Unpin(key) => self.unpin(worker, key),
            Action::Put(key, chunk) => self.put(worker, key, chunk),
            Action::Commit(key) => self.commit(worker, key),
            Action::Drop(key) => self.give_up(worker, key),
            Action::Done(task, outcome) => self.done(worker, task, outcome),
        }
        Ok(Reply::Plain)
    }

    /// The bytes of what is committed and of what is staged, together.
    pub fn counted(&self) -> u64
        ensures counted { result ≡ counted self.now.cache }
    {
        self.cache.counted()
    }

    /// What is left at the end.
    pub fn finish(self, alloc: Global) -> Result<Finished, NoMemory>
        ensures outcomes { IfOk result (λ finished. finished.outcomes ≡ map (λ outcome. unwrap_or outcome ends.NoMemory) (outcomes self.board)) }
        ensures entries { IfOk result (λ finished. finished.entries ≡ map stored_of self.cache.lines) }
        ensures can_open { IfOk result
            (λ finished. (limit : ℕ) → limit ≤ 2 ^ 62 → CanOpen tree_size limit finished.entries) }
        ensures within { IfOk result
            (λ finished. sum_by (λ stored. sum_by tree_size stored.chunks) finished.entries ≤ self.cache.limit) }
        ensures known { IfOk result (λ finished. All (λ stored. stored.key.0 < self.keys) finished.entries) }
        ensures trees { IfOk result (λ finished. All (λ stored. AreOfATree stored.chunks) finished.entries) }
        ensures opened { IfOk result (λ finished. finished.opened ≡ self.opened) }
        ensures log { IfOk result (λ finished. finished.log ≡ self.log) }
    {
        let Shared {
            cache,
            board,
            marked: _,
            keys: _,
            opened,
            log,
            stagings: _,
            due: _,
        } = self;
        Ok(Finished {
            outcomes: List::new(ended(alloc, board.into_outcomes(alloc)?)?),
            entries: List::new(cache.into_entries(alloc)?),
            opened,
            log: List::new(log),
        })
    }

    fn claim(&mut self, worker: WorkerNo) -> Result<Reply, NoMemory>
        requires { Allows self.old worker Action.Claim }
        ensures reply { IfOk result (λ reply. reply ≡ gives self.old worker Action.Claim) }
        ensures after { OnOk result (self.new ≡ after self.old worker Action.Claim) }
        ensures err { OnErr result (self.new ≡ self.old) }
    {
        spare(&mut self.log, self.due, 2)?;
        let claim = self.board.claim(worker);
        match claim {
            Claim::Task(task) => {
                note(&mut self.log, worker, Event::Claim(task));
                self.due += 1;
            }
            Claim::Over => note(&mut self.log, worker, Event::Over),
            Claim::Idle => {}
        }
        Ok(Reply::Claimed(claim))
    }

    fn fetch(&mut self, worker: WorkerNo, dep: TaskNo) -> Result<Reply, NoMemory>
        requires { Allows self.old worker (Action.Fetch dep) }
        ensures reply { IfOk result (λ reply. reply ≡ gives self.old worker (Action.Fetch dep)) }
        ensures after { OnOk result (self.new ≡ after self.old worker (Action.Fetch dep)) }
        ensures err { OnErr result (self.new ≡ self.old) }
    {
        spare(&mut self.log, self.due, 1)?;
        let outcome = self.board.fetch(dep)?;
        note(&mut self.log, worker, Event::Fetch(dep, word_of(&outcome)));
        Ok(Reply::Fetched(outcome))
    }

    fn look(&mut self, worker: WorkerNo, task: TaskNo) -> Result<Reply, NoMemory>
        requires { Allows self.old worker (Action.Look task) }
        ensures reply { IfOk result (λ reply. reply ≡ gives self.old worker (Action.Look task)) }
        ensures after { OnOk result (self.new ≡ after self.old worker (Action.Look task)) }
        ensures err { OnErr result (self.new ≡ self.old) }
    {
        spare(&mut self.log, self.due, 2)?;
        let keys = marked_for(self.marked.as_slice(), task);
        let look = self.cache.look(worker, keys)?;
        match look {
            Look::Hit { key, .. } => {
                note(&mut self.log, worker, Event::Hit(key));
                self.due += 1;
            }
            Look::Miss => note(&mut self.log, worker, Event::Miss),
        }
        Ok(Reply::Looked(look))
    }

    fn read(&mut self, worker: WorkerNo, key: Key, place: usize) -> Result<Reply, NoMemory>
        requires { Allows self.old worker (Action.Read key place) }
        ensures reply { IfOk result (λ reply. reply ≡ gives self.old worker (Action.Read key place)) }
        ensures after { OnOk result (self.new ≡ after self.old worker (Action.Read key place)) }
        ensures err { OnErr result (self.new ≡ self.old) }
    {
        spare(&mut self.log, self.due, 1)?;
        let chunk = self.cache.read(Pin { worker, key }, place)?;
        note(&mut self.log, worker, Event::Read(key, place));
        Ok(Reply::Chunk(chunk))
    }

    fn reserve(
        &mut self,
        alloc: Global,
        worker: WorkerNo,
        key: Key,
        size: u64,
        count: usize,
    ) -> Result<Reply, NoMemory>
        requires { Allows self.old worker (Action.Reserve key size count) }
        ensures reply { IfOk result (λ reply. reply ≡ gives self.old worker (Action.Reserve key size count)) }
        ensures after { OnOk result (self.new ≡ after self.old worker (Action.Reserve key size count)) }
        ensures err { OnErr result (self.new ≡ self.old) }
    {
        let Some(more) = count.checked_add(2) else {
            return Err(AllocError);
        };
        spare(&mut self.log, self.due, more)?;
        self.stagings.reserve(1)?;
        let reserve = self.cache.reserve(alloc, worker, key, size, count)?;
        note(&mut self.log, worker, reserve_event(key, reserve));
        if let Reserve::Room { .. } = reserve {
            self.stagings.push_reserved(Staging {
                worker,
                key,
                count,
                left: count,
            });
            self.due += count + 1;
        }
        Ok(Reply::Reserved(reserve))
    }

    fn unpin(&mut self, worker: WorkerNo, key: Key)
        requires { Allows self.old worker (Action.Unpin key) }
        ensures { self.new ≡ after self.old worker (Action.Unpin key) }
    {
        self.cache.unpin(Pin { worker, key });
        note(&mut self.log, worker, Event::Unpin(key));
        self.due -= 1;
    }

    fn put(&mut self, worker: WorkerNo, key: Key, chunk: Owned<Chunk>)
        requires { Allows self.old worker (Action.Put key chunk) }
        ensures { self.new ≡ after self.old worker (Action.Put key chunk) }
    {
        self.cache.put(Ticket { worker, key }, chunk);
        let place = count_put(&mut self.stagings, worker, key);
        note(&mut self.log, worker, Event::Put(key, place));
        self.due -= 1;
    }

    fn commit(&mut self, worker: WorkerNo, key: Key)
        requires { Allows self.old worker (Action.Commit key) }
        ensures { self.new ≡ after self.old worker (Action.Commit key) }
    {
        self.cache.commit(Ticket { worker, key });
        let _ = take_staging(&mut self.stagings, worker, key);
        note(&mut self.log, worker, Event::Commit(key));
        self.due -= 1;
    }

    fn give_up(&mut self, worker: WorkerNo, key: Key)
        requires { Allows self.old worker (Action.Drop key) }
        ensures { self.new ≡ after self.old worker (Action.Drop key) }
    {
        self.cache.drop_ticket(Ticket { worker, key });
        let staging = take_staging(&mut self.stagings, worker, key);
        note(&mut self.log, worker, Event::Drop(key));
        self.due -= staging.left + 1;
    }

    fn done(&mut self, worker: WorkerNo, task: TaskNo, outcome: Outcome)
        requires { Allows self.old worker (Action.Done task outcome) }
        ensures { self.new ≡ after self.old worker (Action.Done task outcome) }
    {
        let word = word_of(&outcome);
        self.board.done(worker, task, outcome);
        note(&mut self.log, worker, Event::Done(task, word));
        self.due -= 1;
    }
}

/// The outcomes, those that lack for want of memory.
fn ended(alloc: Global, outcomes: List<Option<Outcome>>) -> Result<Vec<Outcome>, NoMemory>
    ensures { IfOk result (λ ended. ended.items ≡ map (λ outcome. unwrap_or outcome ends.NoMemory) outcomes) }
{
    outcomes
        .into_vec()
        .into_iter()
        .map(|outcome| end_of(outcome))
        .collect(alloc)
}

fn end_of(outcome: Option<Outcome>) -> Outcome
    ensures { result ≡ unwrap_or outcome ends.NoMemory }
{
    match outcome {
        Some(outcome) => outcome,
        None => Outcome::NoMemory,
    }
}

fn marked_for(marked: &[List<Key>], task: TaskNo) -> &[Key]
    ensures { result.now ≡ slice_index_or marked.now task.0 [] }
{
    match marked.get(task.0 as usize) {
        Some(keys) => keys.as_slice(),
        None => &[],
    }
}

fn reserve_event(key: Key, reserve: Reserve) -> Event
    ensures { result ≡ reserve_event key reserve }
{
    match reserve {
        Reserve::Room { evicted } => Event::Room(key, evicted),
        Reserve::Already => Event::Already(key),
        Reserve::TooLarge => Event::TooLarge(key),
        Reserve::Full => Event::Full(key),
    }
}
