// The calls of a verdict and of a sweep.
ghost use Rattle.std.specs.Prelude.{◌≡◌, ◌<◌, ◌^◌, ℕ, true, false, [], length, MatchOption, if◌then◌else◌};
ghost use Rattle.space_model.specs.Counts.{CountIs};
ghost use Rattle.space_heap.specs.HeapView.{is_unswept};
ghost use Rattle.space_heap.specs.SoundHeap.{IsSoundHeap};
ghost use Rattle.space_heap.specs.Sweeping.{settled, minors_after, others_after, swept, IsFirstUnswept, IsGone, HasNoGone};

use crate::heap::Heap;
use crate::marks::marks_of;
use crate::sweeps::{hold_pages, settle_pages, sweep_one};
use space_model::{Kind, Phase};

// The phase after a verdict.
fn phase_after(some: bool) -> Phase
    ensures { result ≡ (if some then Phase.Sweeping else Phase.Idle) }
{
    if some { Phase::Sweeping } else { Phase::Idle }
}

// How many minor verdicts there are with one more of this kind.
fn count_minor(kind: Kind, count: u64) -> u64
    requires { count < 2 ^ 62 }
    ensures { result ≡ minors_after kind count }
{
    match kind {
        Kind::Minor => count + 1,
        Kind::Major => count,
        Kind::Full => count,
    }
}

// How many major and full verdicts there are with one more of this kind.
fn count_other(kind: Kind, count: u64) -> u64
    requires { count < 2 ^ 62 }
    ensures { result ≡ others_after kind count }
{
    match kind {
        Kind::Minor => count,
        Kind::Major => count + 1,
        Kind::Full => count + 1,
    }
}

impl Heap {
    /// How many minor verdicts there were.
    pub fn minor_verdicts(&self) -> u64
        ensures { result ≡ self.now.counters.minor_verdicts }
    {
        self.minor_verdicts
    }

    /// How many major and full verdicts there were.
    pub fn other_verdicts(&self) -> u64
        ensures { result ≡ self.now.counters.other_verdicts }
    {
        self.other_verdicts
    }

    /// How many slots of gone objects were made free by sweeps.
    pub fn freed(&self) -> u64
        ensures { result ≡ self.now.counters.freed }
    {
        self.freed
    }

    /// Whether the page waits for a sweep. A spare one doesn't.
    #[tactic(auto, using(crate::proofs::fields::Unswept::waiting))]
    pub fn page_unswept(&self, page: u32) -> bool
        requires { page < length self.now.pages }
        ensures { result ≡ is_unswept self.now page }
    {
        self.pools.page_unswept(page)
    }

    /// The lowest page that waits for a sweep, or `None` where none does. It isn't searched for.
    pub fn first_unswept(&self) -> Option<u32>
        ensures first { MatchOption result (self.now.unswept ≡ []) (IsFirstUnswept self.now) }
        ensures sound { IsSoundHeap self.now }
    {
        self.pools.first_unswept()
    }

    /// How many pages wait for a sweep.
    pub fn unswept_pages(&self) -> u32
        ensures count { result ≡ length self.now.unswept }
        ensures sound { IsSoundHeap self.now }
    {
        self.pools.unswept_pages()
    }

    /// Changes the phase.
    #[tactic(auto, using(crate::proofs::updates::SettledSlots::phases))]
    pub fn set_phase(&mut self, phase: Phase)
        ensures { self.new ≡ record self.old { phase = phase } }
    {
        self.phase = phase;
    }

    /// A verdict: each white object is gone, and each page with a pool waits for a sweep. The phase
    /// is that of sweeping, or nothing is under way where no page has a pool. The verdict is counted.
    /// Each protected object that is left is one older, up to age 3 (CRuby 3.3). Guards and all other marks stay. That a verdict is on all pages, before the first
    /// sweep, is this project's own.
    pub fn settle(&mut self, kind: Kind)
        requires none_grey { self.old.grey ≡ [] }
        requires none_gone { HasNoGone self.old }
        requires minors { self.old.counters.minor_verdicts < 2 ^ 62 }
        requires others { self.old.counters.other_verdicts < 2 ^ 62 }
        ensures { self.new ≡ settled self.old kind }
    {
        settle_pages(&mut self.marks);
        let some = hold_pages(&mut self.pools);
        self.phase = phase_after(some);
        self.minor_verdicts = count_minor(kind, self.minor_verdicts);
        self.other_verdicts = count_other(kind, self.other_verdicts);
    }

    /// Sweeps a page, as CRuby 3.3 sweeps page by page: the slots of its gone objects are free, and it is
    /// spare where all its slots are free then. The freed slots are counted. The phase stays.
    pub fn sweep_page(&mut self, page: u32)
        requires unswept { is_unswept self.old page ≡ true }
        requires few { self.old.counters.freed < 2 ^ 62 }
        ensures swept { self.new ≡ swept self.old page }
        ensures sound { IsSoundHeap self.old }
    {
        let gone = sweep_one(&mut self.pools, &mut self.marks, page, &mut self.working);
        self.freed += u64::from(gone);
    }

    /// How many gone objects wait for the sweep of their pages.
    pub fn gone_count(&self) -> u64
        ensures gone { CountIs (IsGone self.now) result }
        ensures sound { IsSoundHeap self.now }
    {
        let mut count = 0;
        'pages: for page in 0..self.pools.page_count() {
            count += u64::from(marks_of(&self.marks, page).gone.count());
        }
        count
    }
}
