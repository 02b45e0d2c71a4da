// Laws of the definitions: functions that do nothing, and promise them.
ghost use Rattle.space_model.specs.Laws.{ReachHasStarts, ReachIsClosed, ReachIsLeast, ReachIsListed, ReachIsListedOnce, NotingIsDone, NotingStays};
ghost use Rattle.space_model.specs.Laws.{OpeningIsSound, LawfulIsSound, LawfulAllIsSound, InputsAreGiven};
ghost use Rattle.space_model.specs.Laws.{StartMarkIsSound, TookIsSound, Sweep1IsSound, SweepsAreSound, SweepAllEnds, SweepsAreCounted, SweepIsThere, CompletesIsSound};
ghost use Rattle.space_model.specs.Laws.{MovingIsSound, MoveIsSound, FixingIsSound, VisitIsSound, CompactionEndIsSound};
ghost use Rattle.space_model.specs.Laws.{StatIsThere, CountsAreOne};
ghost use Rattle.space_model.specs.TableLaws.{IdsStay, IdsAreOne, EntriesGoWithObjects, SetIsRead, DeletedIsGone, SizeIsOfKeys};
ghost use Rattle.space_model.specs.FinalLaws.{FinalsRunOnce, QueueStays, FinalsRunOfSwept, ExitLeavesNothing, ExitIsThere, DumpIsThere, DumpIsOne};
ghost use Rattle.space_model.specs.Laws.{SeenAreReached, VerdictsReachNoMore, ReachedOutliveVerdicts, FullLeavesReached};
ghost use Rattle.space_model.specs.Laws.{SweepsKeepPlaces, SweepsKeepReach, CompletesReachNoMore, ReachedOutliveCompletions};
ghost use Rattle.space_model.specs.Laws.{CollectionScansReached, FullCollectionLeavesReached, CollectionsKeepGraph, GcIsThere, MinorIsThere};
ghost use Rattle.space_model.specs.Laws.{CompletionIsThere, MajorIsThere, MarkIsThere, FinishIsThere};
ghost use Rattle.space_model.specs.Laws.{FullIsFullAt, FullLeavesReachedBefore, NewMakesNone};
ghost use Rattle.space_model.specs.Laws.{ReachedArePresent, VisibleIsReached, ReachedIsVisible, ReachedStay, PlacesStay, PinnedStay, LimitStays, WordsKeepValues};
ghost use Rattle.space_model.specs.Laws.{GoneAreTold, GoneAreToldInOrder, GoneAreToldOnce, GoneStayGone, PushedIsTop, NamedIsTold, TextsDiffer};

/// What is reached is the least set, of those that a test decides, that has the starts, and with each name its children.
pub fn reach_is_least()
    ensures starts { ReachHasStarts }
    ensures closed { ReachIsClosed }
    ensures least { ReachIsLeast }
{}

/// What is reached is listed, each name once; and to note it again changes nothing.
pub fn reach_is_listed()
    ensures listed { ReachIsListed }
    ensures once { ReachIsListedOnce }
    ensures noted { NotingIsDone }
    ensures stays { NotingStays }
{}

/// The opening is sound, and each lawful command that is given what a line can give keeps states so, as each line of an input does.
pub fn states_are_sound()
    ensures opening { OpeningIsSound }
    ensures command { LawfulIsSound }
    ensures commands { LawfulAllIsSound }
    ensures given { InputsAreGiven }
{}

/// The pieces of a collection keep states sound, a verdict where no compaction is under way; and a sweep can always be made.
pub fn collections_are_sound()
    ensures start { StartMarkIsSound }
    ensures took { TookIsSound }
    ensures swept { Sweep1IsSound }
    ensures sweeps { SweepsAreSound }
    ensures ends { SweepAllEnds }
    ensures counted { SweepsAreCounted }
    ensures possible { SweepIsThere }
    ensures completed { CompletesIsSound }
{}

/// The pieces of a compaction keep states sound.
pub fn compactions_are_sound()
    ensures begins { MovingIsSound }
    ensures moved { MoveIsSound }
    ensures fixing { FixingIsSound }
    ensures visited { VisitIsSound }
    ensures ended { CompactionEndIsSound }
{}

/// The counts of a space can be told, and where no names may be kept but those that are for certain there are no others.
pub fn counts_are_there()
    ensures possible { StatIsThere }
    ensures one { CountsAreOne }
{}

/// A verdict leaves what is reached and makes nothing more so, and a full one leaves nothing else.
pub fn verdicts_keep_what_is_reached()
    ensures seen { SeenAreReached }
    ensures no_more { VerdictsReachNoMore }
    ensures outlives { ReachedOutliveVerdicts }
    ensures exact { FullLeavesReached }
{}

/// Where what is under way can be completed there is a minor collection, and a whole one. That does as many scans as names are reached
/// after the completion, leaves nothing else, and changes no field, no stack word, and no root that a line can name. A completion takes
/// nothing that is reached, and makes nothing more so where no objects are being moved. Sweeps change nothing of it.
pub fn collections_leave_what_is_reached()
    ensures places { SweepsKeepPlaces }
    ensures swept { SweepsKeepReach }
    ensures completed { CompletesReachNoMore }
    ensures outlives { ReachedOutliveCompletions }
    ensures scans { CollectionScansReached }
    ensures leaves { FullCollectionLeavesReached }
    ensures same { CollectionsKeepGraph }
    ensures possible { GcIsThere }
    ensures minor_possible { MinorIsThere }
{}

/// Where no objects are being moved, what is under way can be completed, and a major marking can begin. `mark` and `finish` can always be
/// answered: where a major marking is under way, and where none is.
pub fn markings_are_there()
    ensures completed { CompletionIsThere }
    ensures major { MajorIsThere }
    ensures mark { MarkIsThere }
    ensures finish { FinishIsThere }
{}

/// `new` answers `full` only where the heap is really full for the object's pool. Where it makes no object, whatever it answers, it
/// changes no field, no stack word, and no root that a line can name.
pub fn full_is_full()
    ensures full { FullIsFullAt }
    ensures leaves { FullLeavesReachedBefore }
    ensures same { NewMakesNone }
{}

/// Nothing that a line's root or a stack word leads to goes, but by `exit`. What is present before and after a command stands where it stood,
/// unless an event tells that it was moved; and what a stack word names isn't, so each word that stays on the stack keeps its value. The limit of pages never changes.
pub fn what_is_reached_stays()
    ensures present { ReachedArePresent }
    ensures visible { VisibleIsReached }
    ensures all_visible { ReachedIsVisible }
    ensures stays { ReachedStay }
    ensures places { PlacesStay }
    ensures pinned { PinnedStay }
    ensures words { WordsKeepValues }
    ensures limit { LimitStays }
{}

/// The lines `! gone` of a command name exactly the objects that go, each once; those of a verdict by ascending address. Who is gone
/// stays gone, so no name is told twice in a trace.
pub fn what_goes_is_told()
    ensures told { GoneAreTold }
    ensures order { GoneAreToldInOrder }
    ensures once { GoneAreToldOnce }
    ensures stays { GoneStayGone }
{}

/// A name has one id and keeps it, and no other name has it or gets it.
pub fn ids_stay()
    ensures stay { IdsStay }
    ensures one { IdsAreOne }
{}

/// An entry of a weak map goes with its key or its value, and else by the commands alone that set or delete it; these leave all others.
/// Entries are read as they were set, and counted by their keys.
pub fn entries_go_with_their_objects()
    ensures goes { EntriesGoWithObjects }
    ensures set { SetIsRead }
    ensures deleted { DeletedIsGone }
    ensures size { SizeIsOfKeys }
{}

/// A finalizer runs once at most, in the order of the queue, and only when its object is gone and swept.
pub fn finalizers_run_once()
    ensures once { FinalsRunOnce }
    ensures stays { QueueStays }
    ensures swept { FinalsRunOfSwept }
{}

/// Nothing is left after `exit`, every finalizer has run, and where what is under way can be completed there is one.
pub fn exit_leaves_nothing()
    ensures leaves { ExitLeavesNothing }
    ensures possible { ExitIsThere }
{}

/// There is one dump of all lines.
pub fn dumps_are_one()
    ensures possible { DumpIsThere }
    ensures one { DumpIsOne }
{}

/// After a push the top of the stack has the value that was pushed.
pub fn pushed_is_top()
    ensures { PushedIsTop }
{}

/// The object that a reply tells of a word is the one that the word names.
pub fn named_is_told()
    ensures { NamedIsTold }
{}

/// Different outputs have different texts, so the bytes that were written name every output.
pub fn texts_differ()
    ensures differ { TextsDiffer }
{}
