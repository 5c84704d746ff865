//! The lists together, and what waits.
use crate::counts::{Counts, Place};
use crate::escapes::{Aim, Escape};
use crate::lists::{EdgeStack, NodeStack};
use crate::random::Random;
use pf_geom::NoMemory;
use std::alloc::Global;

// A bisection waits where so many were made at its place.
const WORN: u32 = 3;

// How many operations are taken at random after a bisection that had waited.
const SPREE: u32 = 20;

// How often what another worker stood in the way of is tried again though nothing was done since.
const IDLE_ROUNDS: u32 = 3;

/// Why an edge is looked at.
#[derive(Clone, Copy, Debug, PartialEq, Eq)]
pub enum Kind {
    /// Its squared length is more than twice what its band allows.
    Far,
    /// Its other diagonal is shorter.
    Flip,
    /// It is longer than its band allows.
    Long,
    /// It is shorter than its band allows.
    Short,
    /// The same, and it couldn't be contracted the other way.
    Onto,
    /// It is long, and its bisection waited.
    Late,
    /// Its bisection waited, and no escape was found.
    Forced,
}

/// An edge and why it is looked at, from the end `from`. A contraction takes `from` onto `to`.
#[derive(Clone, Copy, Debug, PartialEq, Eq)]
pub struct EdgeTask {
    pub kind: Kind,
    pub from: u32,
    pub to: u32,
}

/// What to look at next.
#[derive(Clone, Copy, Debug, PartialEq, Eq)]
pub enum Task {
    /// A node whose star changed.
    Node { n: u32 },
    /// An edge.
    Edge { edge: EdgeTask },
    /// A longer edge, to which the walk from a long edge came.
    Walk { from: u32, to: u32 },
    /// An edge near one that was bisected too often.
    Escape { from: u32, to: u32 },
}

// A walk from a long edge to longer ones.
#[derive(Clone, Copy, Debug, PartialEq, Eq)]
struct Walk {
    origin: EdgeTask,
    from: u32,
    to: u32,
}

/// The work lists of a worker.
#[derive(Drop)]
pub struct Order {
    nodes: NodeStack,
    far: EdgeStack,
    flip: EdgeStack,
    long: EdgeStack,
    short: EdgeStack,
    walk: Option<Walk>,
    escape: Option<Escape>,
    pending: Option<EdgeTask>,
    late: Vec<EdgeTask>,
    late_from: usize,
    stuck: Vec<EdgeTask>,
    busy: Vec<Task>,
    gone: NodeStack,
    counts: Counts,
    random: Random,
    spree: u32,
    near: Vec<u32>,
    place: Option<Place>,
    worked: bool,
    idle: u32,
}

// The edge with its lower name first.
fn rising(a: u32, b: u32) -> (u32, u32) {
    (a.min(b), a.max(b))
}

impl Order {
    /// Nothing to look at. There are about so many places at which bisections are counted. Want of memory is the only
    /// failure.
    pub fn new(alloc: Global, places: usize) -> Result<Order, NoMemory> {
        let counts = Counts::new(alloc, places)?;
        Ok(Order {
            nodes: NodeStack::new(alloc),
            far: EdgeStack::new(alloc),
            flip: EdgeStack::new(alloc),
            long: EdgeStack::new(alloc),
            short: EdgeStack::new(alloc),
            walk: None,
            escape: None,
            pending: None,
            late: Vec::new(alloc),
            late_from: 0,
            stuck: Vec::new(alloc),
            busy: Vec::new(alloc),
            gone: NodeStack::new(alloc),
            counts,
            random: Random::new(),
            spree: 0,
            near: Vec::new(alloc),
            place: None,
            worked: false,
            idle: 0,
        })
    }

    /// Puts a node on its list. Want of memory is its only failure.
    pub fn push_node(&mut self, n: u32) -> Result<(), NoMemory> {
        self.nodes.push(n)
    }

    /// Puts an edge on its list. Want of memory is its only failure.
    pub fn push_edge(&mut self, kind: Kind, a: u32, b: u32) -> Result<(), NoMemory> {
        let (lo, hi) = rising(a, b);
        match kind {
            Kind::Far => self.far.push(lo, hi),
            Kind::Flip => self.flip.push(lo, hi),
            Kind::Short | Kind::Onto => self.short.push(lo, hi),
            Kind::Long | Kind::Late | Kind::Forced => self.long.push(lo, hi),
        }
    }

    // Lets an edge wait until something was done.
    fn push_stuck(&mut self, edge: EdgeTask) -> Result<(), NoMemory> {
        self.stuck.push(edge).map_err(|_| NoMemory)
    }

    /// Lets a task wait in whose way another worker stood. Want of memory is its only failure.
    pub fn put_off(&mut self, task: Task) -> Result<(), NoMemory> {
        match task {
            Task::Node { .. } | Task::Edge { .. } => self.busy.push(task).map_err(|_| NoMemory),
            Task::Walk { .. } => self.put_off_walk(),
            Task::Escape { .. } => self.miss(),
        }
    }

    // The same for a walk.
    fn put_off_walk(&mut self) -> Result<(), NoMemory> {
        let Some(walk) = self.walk else {
            return Ok(());
        };
        self.walk = None;
        self.busy
            .push(Task::Edge { edge: walk.origin })
            .map_err(|_| NoMemory)
    }

    /// Begins anew the list of nodes whose stars the next operation changes. It bisects no edge, unless that is said.
    pub fn begin_aim(&mut self) {
        self.near.clear();
        self.place = None;
    }

    /// Puts a node on that list. Want of memory is its only failure.
    pub fn push_near(&mut self, n: u32) -> Result<(), NoMemory> {
        self.near.push(n).map_err(|_| NoMemory)
    }

    /// Says that the next operation bisects an edge at this place.
    pub fn set_place(&mut self, place: Place) {
        self.place = Some(place);
    }

    /// Whether so many edges were bisected at this place that one more has to wait.
    pub fn is_worn(&self, place: Place) -> bool {
        self.spree == 0 && self.counts.at(place) >= WORN
    }

    // From which edge a task at an edge began.
    fn origin_of(&self, task: Task) -> Option<EdgeTask> {
        match task {
            Task::Edge { edge } => Some(edge),
            Task::Walk { .. } => match self.walk {
                Some(walk) => Some(walk.origin),
                None => None,
            },
            Task::Node { .. } | Task::Escape { .. } => None,
        }
    }

    /// Whether the task is to be done however many edges were bisected at its place.
    pub fn is_forced(&self, task: Task) -> bool {
        match self.origin_of(task) {
            Some(edge) => edge.kind == Kind::Forced,
            None => false,
        }
    }

    /// Whether the task waited already.
    pub fn is_late(&self, task: Task) -> bool {
        match self.origin_of(task) {
            Some(edge) => edge.kind == Kind::Late,
            None => false,
        }
    }

    /// Goes on with the walk from a long edge, at a longer one.
    pub fn walk_on(&mut self, task: Task, lo: u32, hi: u32) {
        self.walk = match self.origin_of(task) {
            Some(origin) => Some(Walk {
                origin,
                from: lo,
                to: hi,
            }),
            None => None,
        };
    }

    /// Lets the bisection wait until all lists are empty. Want of memory is its only failure.
    pub fn postpone(&mut self, task: Task) -> Result<(), NoMemory> {
        let origin = self.origin_of(task);
        self.walk = None;
        match origin {
            Some(edge) => self
                .late
                .push(EdgeTask {
                    kind: Kind::Late,
                    from: edge.from,
                    to: edge.to,
                })
                .map_err(|_| NoMemory),
            None => Ok(()),
        }
    }

    /// Looks for an escape near the edge from `from` to `to` before it is bisected at this place.
    pub fn begin_escape(&mut self, task: Task, from: u32, to: u32, place: Place) {
        let origin = self.origin_of(task);
        self.walk = None;
        let count = self.counts.at(place);
        self.escape = Some(Escape::new(from, to, count, true, origin, &mut self.random));
    }

    /// Drops the task, which asks for nothing any more. Want of memory is its only failure.
    pub fn drop_task(&mut self, task: Task) -> Result<(), NoMemory> {
        match task {
            Task::Node { .. } | Task::Edge { .. } => Ok(()),
            Task::Walk { .. } => {
                self.walk = None;
                Ok(())
            }
            Task::Escape { .. } => self.miss(),
        }
    }

    /// Where the escape is to be looked for.
    pub fn aim(&self) -> Aim {
        match self.escape {
            Some(escape) => escape.aim,
            None => Aim::Contract,
        }
    }

    /// One of two sides.
    pub fn coin(&mut self) -> bool {
        self.random.coin()
    }

    /// Goes on with the escape from the edge from `from` to `to`.
    pub fn escape_on(&mut self, from: u32, to: u32, aim: Aim) {
        if let Some(escape) = self.escape {
            self.escape = Some(escape.moved(from, to, aim));
        }
    }

    /// What the escape is to try where its walk ended.
    pub fn next_aim(&self) -> Aim {
        match self.escape {
            Some(escape) => escape.next_aim(),
            None => Aim::Contract,
        }
    }

    // The escape's try came to nothing.
    fn miss(&mut self) -> Result<(), NoMemory> {
        let Some(escape) = self.escape else {
            return Ok(());
        };
        self.escape = escape.next_try(&mut self.random);
        if self.escape.is_none() && escape.before {
            self.pending = Some(EdgeTask {
                kind: Kind::Forced,
                from: escape.from,
                to: escape.to,
            });
            return self.push_origin(escape.origin);
        }
        Ok(())
    }

    // Puts a long edge back on its list.
    fn push_origin(&mut self, origin: Option<EdgeTask>) -> Result<(), NoMemory> {
        match origin {
            Some(edge) => self.push_edge(Kind::Long, edge.from, edge.to),
            None => Ok(()),
        }
    }

    // Puts the nodes on their list whose stars changed.
    fn push_changed(&mut self) -> Result<(), NoMemory> {
        for k in 0..self.near.len() {
            let n = self.near[k];
            self.nodes.push(n)?;
        }
        self.near.clear();
        Ok(())
    }

    /// Notes that a node is no longer live. Want of memory is its only failure.
    pub fn note_gone(&mut self, n: u32) -> Result<(), NoMemory> {
        self.gone.push(n)
    }

    // Counts a bisection at its place.
    fn count_place(&mut self) {
        if let Some(place) = self.place {
            self.counts.add(place);
        }
        self.place = None;
    }

    /// Notes that the operation of the task was made, and by a bisection the node `made`. Want of memory is its only
    /// failure.
    pub fn note_done(&mut self, task: Task, made: Option<u32>) -> Result<(), NoMemory> {
        self.worked = true;
        self.idle = 0;
        self.spree = self.spree.saturating_sub(1);
        self.count_place();
        self.push_changed()?;
        match task {
            Task::Node { .. } => Ok(()),
            Task::Edge { edge } => {
                if edge.kind == Kind::Forced {
                    self.begin_spree(made, edge.from);
                }
                Ok(())
            }
            Task::Walk { from, .. } => self.end_walk(made, from),
            Task::Escape { .. } => self.end_escape(),
        }
    }

    // Ends a walk whose last edge was bisected: the long edge from which it began comes up again.
    fn end_walk(&mut self, made: Option<u32>, from: u32) -> Result<(), NoMemory> {
        let Some(walk) = self.walk else {
            return Ok(());
        };
        self.walk = None;
        if walk.origin.kind == Kind::Forced {
            self.begin_spree(made, from);
        }
        self.push_origin(Some(walk.origin))
    }

    // Ends an escape that passed.
    fn end_escape(&mut self) -> Result<(), NoMemory> {
        let Some(escape) = self.escape else {
            return Ok(());
        };
        self.escape = None;
        self.push_origin(escape.origin)
    }

    // Begins operations in random order, and an escape from the new node.
    fn begin_spree(&mut self, made: Option<u32>, to: u32) {
        self.spree = SPREE;
        if let Some(from) = made {
            self.escape = Some(Escape::new(from, to, WORN, false, None, &mut self.random));
        }
    }

    /// Notes that the operation of the task was refused. Want of memory is its only failure.
    pub fn note_refused(&mut self, task: Task) -> Result<(), NoMemory> {
        match task {
            Task::Node { .. } => Ok(()),
            Task::Edge { edge } => self.refuse(edge),
            Task::Walk { .. } => {
                let Some(walk) = self.walk else {
                    return Ok(());
                };
                self.walk = None;
                self.push_stuck(walk.origin)
            }
            Task::Escape { .. } => self.miss(),
        }
    }

    // The same for an edge.
    fn refuse(&mut self, edge: EdgeTask) -> Result<(), NoMemory> {
        match edge.kind {
            Kind::Far | Kind::Long | Kind::Late | Kind::Forced => self.push_stuck(edge),
            Kind::Flip | Kind::Onto => Ok(()),
            Kind::Short => {
                self.pending = Some(EdgeTask {
                    kind: Kind::Onto,
                    from: edge.to,
                    to: edge.from,
                });
                Ok(())
            }
        }
    }

    // Whether both ends may still be live.
    fn is_there(&self, from: u32, to: u32) -> bool {
        !self.gone.contains(from) && !self.gone.contains(to)
    }

    // The newest edge of a list.
    fn pop(&mut self, kind: Kind) -> Option<(u32, u32)> {
        match kind {
            Kind::Far => self.far.pop(),
            Kind::Flip => self.flip.pop(),
            Kind::Short | Kind::Onto => self.short.pop(),
            Kind::Long | Kind::Late | Kind::Forced => self.long.pop(),
        }
    }

    // How many edges a list has.
    fn count(&self, kind: Kind) -> usize {
        match kind {
            Kind::Far => self.far.len(),
            Kind::Flip => self.flip.len(),
            Kind::Short | Kind::Onto => self.short.len(),
            Kind::Long | Kind::Late | Kind::Forced => self.long.len(),
        }
    }

    // The newest edge of a list whose ends may still be live.
    fn newest(&mut self, kind: Kind) -> Option<Task> {
        for _ in 0..self.count(kind) {
            let Some((from, to)) = self.pop(kind) else {
                return None;
            };
            if self.is_there(from, to) {
                return Some(Task::Edge {
                    edge: EdgeTask { kind, from, to },
                });
            }
        }
        None
    }

    // The newest edge of the first list that has one.
    fn first_edge(&mut self) -> Option<Task> {
        if let Some(task) = self.newest(Kind::Far) {
            return Some(task);
        }
        if let Some(task) = self.newest(Kind::Flip) {
            return Some(task);
        }
        if let Some(task) = self.newest(Kind::Long) {
            return Some(task);
        }
        self.newest(Kind::Short)
    }

    // Takes the edge at this place of a list.
    fn take_at(&mut self, kind: Kind, at: usize) -> Option<(u32, u32)> {
        match kind {
            Kind::Far => self.far.take_at(at),
            Kind::Flip => self.flip.take_at(at),
            Kind::Short | Kind::Onto => self.short.take_at(at),
            Kind::Long | Kind::Late | Kind::Forced => self.long.take_at(at),
        }
    }

    // A random list that isn't empty, where a few tries find one.
    fn random_kind(&mut self) -> Option<Kind> {
        for _ in 0..16 {
            let kind = match self.random.below(4) {
                0 => Kind::Far,
                1 => Kind::Flip,
                2 => Kind::Long,
                _ => Kind::Short,
            };
            if self.count(kind) > 0 {
                return Some(kind);
            }
        }
        None
    }

    // A random edge of a random list, a short one in a random direction.
    fn random_edge(&mut self) -> Option<Task> {
        let Some(kind) = self.random_kind() else {
            return self.first_edge();
        };
        let most = self.count(kind).min(1_048_576) as u32;
        let at = self.random.below(most) as usize;
        let Some((lo, hi)) = self.take_at(kind, at) else {
            return self.first_edge();
        };
        let (from, to) = if kind == Kind::Short && self.random.coin() {
            (hi, lo)
        } else {
            (lo, hi)
        };
        Some(Task::Edge {
            edge: EdgeTask { kind, from, to },
        })
    }

    // The next edge of the lists.
    fn next_edge(&mut self) -> Option<Task> {
        if self.spree > 0 {
            match self.random_edge() {
                Some(task) => return Some(task),
                None => self.spree = 0,
            }
        }
        self.first_edge()
    }

    // What is begun and not ended.
    fn next_begun(&mut self) -> Option<Task> {
        if let Some(escape) = self.escape {
            return Some(Task::Escape {
                from: escape.at,
                to: escape.toward,
            });
        }
        if let Some(walk) = self.walk {
            return Some(Task::Walk {
                from: walk.from,
                to: walk.to,
            });
        }
        if let Some(edge) = self.pending {
            self.pending = None;
            return Some(Task::Edge { edge });
        }
        None
    }

    // The bisection that has waited longest.
    fn next_late(&mut self) -> Option<Task> {
        match self.late.get(self.late_from) {
            Some(edge) => {
                let edge = *edge;
                self.late_from += 1;
                Some(Task::Edge { edge })
            }
            None => {
                self.late.clear();
                self.late_from = 0;
                None
            }
        }
    }

    // The next task on the lists.
    fn next(&mut self) -> Option<Task> {
        if let Some(n) = self.nodes.pop() {
            return Some(Task::Node { n });
        }
        if let Some(task) = self.next_begun() {
            return Some(task);
        }
        if let Some(task) = self.next_edge() {
            return Some(task);
        }
        self.next_late()
    }

    // Puts what couldn't be done back on the lists.
    fn renew_stuck(&mut self) -> Result<(), NoMemory> {
        for _ in 0..self.stuck.len() {
            let Some(edge) = self.stuck.pop() else {
                return Ok(());
            };
            self.push_edge(Kind::Long, edge.from, edge.to)?;
        }
        Ok(())
    }

    // Puts what another worker stood in the way of back on the lists.
    fn renew_busy(&mut self) -> Result<(), NoMemory> {
        for _ in 0..self.busy.len() {
            match self.busy.pop() {
                Some(Task::Node { n }) => self.nodes.push(n)?,
                Some(Task::Edge { edge }) => self.push_edge(edge.kind, edge.from, edge.to)?,
                _ => {}
            }
        }
        Ok(())
    }

    // Puts what waits back on the lists, where that may help.
    fn renew(&mut self) -> Result<(), NoMemory> {
        if self.worked {
            self.worked = false;
            self.renew_stuck()?;
            return self.renew_busy();
        }
        if self.idle < IDLE_ROUNDS {
            self.idle += 1;
            return self.renew_busy();
        }
        Ok(())
    }

    /// Takes the next task, and `None` where none is left that is worth a try. Want of memory is its only failure.
    pub fn take(&mut self) -> Result<Option<Task>, NoMemory> {
        if let Some(task) = self.next() {
            return Ok(Some(task));
        }
        self.renew()?;
        Ok(self.next())
    }
}
