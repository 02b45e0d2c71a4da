// What `stat` counts.

/// Twelve counts of a space. The names are those of CRuby's `GC.stat`; a gone object that isn't swept is neither live nor free.
#[derive(Clone, Copy, Debug, PartialEq, Eq)]
pub struct Stat {
    /// The next two added.
    pub count: u64,
    /// Minor verdicts.
    pub minor_gc_count: u64,
    /// Major and full verdicts.
    pub major_gc_count: u64,
    /// Pages ever made, spare ones too.
    pub heap_allocated_pages: u64,
    /// Objects that aren't gone.
    pub heap_live_slots: u64,
    /// Free slots of the pages that have a pool, swept or not.
    pub heap_free_slots: u64,
    /// Objects ever made.
    pub total_allocated_objects: u64,
    /// Slots of gone objects that sweeps made free.
    pub total_freed_objects: u64,
    /// Old objects that aren't gone.
    pub old_objects: u64,
    /// Kept objects that aren't gone.
    pub remembered_wb_unprotected_objects: u64,
    /// Compactions that ended.
    pub compact_count: u64,
    /// Moves.
    pub total_moved_objects: u64,
}
