//! Laws of the machine: public functions with no parameters, whose contracts are the laws.

ghost use Rattle.base_engine.specs.Alike.{AlikeStepAlike};
ghost use Rattle.base_engine.specs.GenerationExamples.{BeginsAfresh, RisesWhereLive, StaysWhereDead};
ghost use Rattle.base_engine.specs.RefusalLaws.{AbortRefusals, AskRefusals, BeginRefusals, BlockRefusals, ChangeRefusals, CommitRefusals, HandleRefusals, LineRefusals, OntologyRefusals, OthersAccepted, PrepareRefusals};
ghost use Rattle.base_engine.specs.RunLaws.{AsManyReplies, NoneOpenAbove, OtherRepliesLeaveHistory, OthersLeaveHistory, StepsGoOn};
ghost use Rattle.base_engine.specs.StepExamples.{AbortForgets, AddThenDelete, AskAnswers, AskTellsClash, BlockLoads, CheckFindsNone, CheckTellsFirst, CommitAdds, CommitAddsAgain, CommitOfNothing, CommitRemoves, CommitRemovesAbsent, DeleteThenAdd, DropForgets, PrepareKeeps, ReopenClosesSessions, ReopenForgetsHandles, RunAnswers, SessionTakesChanges, TidyKeeps, TwoSessions};
ghost use Rattle.base_engine.specs.StepLaws.{AcceptedSteps, BeginningNeverLacks, BeginsOnce, GenerationsNeverLack, HandlesStayAStore, NeverBoth, RefusedOnce, RefusedOrAccepted, AllRepliesOnce, StaysWithinLimits, StepsOnce};

/// The machine begins with a history in one state.
pub fn begins_once()
    ensures { BeginsOnce }
{}

/// A request is refused for one reason.
pub fn refused_once()
    ensures { RefusedOnce }
{}

/// Each request is refused or accepted, whatever the state.
pub fn refused_or_accepted()
    ensures { RefusedOrAccepted }
{}

/// No request is both refused and accepted.
pub fn never_both()
    ensures { NeverBoth }
{}

/// A step has one reply and leads to one state.
pub fn steps_once()
    ensures { StepsOnce }
{}

/// A request that the machine is given and that is accepted has a reply, where what nobody computes is there.
pub fn accepted_steps()
    ensures { AcceptedSteps }
{}

/// A step looks at a history through its ontology, its rows, its number of transactions and its length alone.
pub fn alike_step_alike()
    ensures { AlikeStepAlike }
{}

/// A step leaves an ontology within the limits.
pub fn stays_within_limits()
    ensures { StaysWithinLimits }
{}

/// A step leaves a handle store.
pub fn handles_stay_a_store()
    ensures { HandlesStayAStore }
{}

/// The replies to a list of requests are one list and lead to one state.
pub fn replies_once()
    ensures { AllRepliesOnce }
{}

/// A line that is refused by itself is refused so whatever the state.
pub fn line_refusals()
    ensures { LineRefusals }
{}

/// A command that needs an ontology is refused first for want of one.
pub fn ontology_refusals()
    ensures { OntologyRefusals }
{}

/// The refusals of a block, in their order.
pub fn block_refusals()
    ensures { BlockRefusals }
{}

/// The refusals of `begin` where there is an ontology.
pub fn begin_refusals()
    ensures { BeginRefusals }
{}

/// The refusals of `add` and `del` where there is an ontology, in their order.
pub fn change_refusals()
    ensures { ChangeRefusals }
{}

/// The refusals of `commit` where there is an ontology, in their order.
pub fn commit_refusals()
    ensures { CommitRefusals }
{}

/// The refusals of `abort` where there is an ontology.
pub fn abort_refusals()
    ensures { AbortRefusals }
{}

/// The refusals of `ask` where there is an ontology.
pub fn ask_refusals()
    ensures { AskRefusals }
{}

/// The refusals of `prepare` where there is an ontology, in their order.
pub fn prepare_refusals()
    ensures { PrepareRefusals }
{}

/// The refusals of `run` and `drop` where there is an ontology.
pub fn handle_refusals()
    ensures { HandleRefusals }
{}

/// `check` and `tables` need an ontology alone; `tidy` and `reopen` need nothing.
pub fn others_accepted()
    ensures { OthersAccepted }
{}

/// A commit of a new row.
pub fn commit_adds()
    ensures { CommitAdds }
{}

/// A commit by which a row goes.
pub fn commit_removes()
    ensures { CommitRemoves }
{}

/// A commit without changes is a transaction too.
pub fn commit_of_nothing()
    ensures { CommitOfNothing }
{}

/// A row that is there already isn't counted as new.
pub fn commit_adds_again()
    ensures { CommitAddsAgain }
{}

/// A row that isn't there isn't counted as gone.
pub fn commit_removes_absent()
    ensures { CommitRemovesAbsent }
{}

/// A row that comes and goes in one transaction isn't counted.
pub fn add_then_delete()
    ensures { AddThenDelete }
{}

/// A row that goes, although it isn't there, and then comes is new.
pub fn delete_then_add()
    ensures { DeleteThenAdd }
{}

/// Of two sessions that add one row the first one makes it new.
pub fn two_sessions()
    ensures { TwoSessions }
{}

/// A block gives a base its ontology.
pub fn block_loads()
    ensures { BlockLoads }
{}

/// A session takes changes at its end.
pub fn session_takes_changes()
    ensures { SessionTakesChanges }
{}

/// An aborted session is closed, and its changes are forgotten.
pub fn abort_forgets()
    ensures { AbortForgets }
{}

/// `tidy` leaves the state as it was.
pub fn tidy_keeps()
    ensures { TidyKeeps }
{}

/// `reopen` tells the number of transactions, and no session is open behind it.
pub fn reopen_closes_sessions()
    ensures { ReopenClosesSessions }
{}

/// The first query that is prepared is kept under the first handle.
pub fn prepare_keeps()
    ensures { PrepareKeeps }
{}

/// A prepared query is answered from the rows as they are then.
pub fn run_answers()
    ensures { RunAnswers }
{}

/// A dropped handle is refused with the last generation of its slot, and the slot is given again under another handle.
pub fn drop_forgets()
    ensures { DropForgets }
{}

/// Behind `reopen` no handle was ever given.
pub fn reopen_forgets_handles()
    ensures { ReopenForgetsHandles }
{}

/// A query is answered from the rows of the history.
pub fn ask_answers()
    ensures { AskAnswers }
{}

/// A base without a clash is told to be consistent.
pub fn check_finds_none()
    ensures { CheckFindsNone }
{}

/// `check` tells the first clash, by names.
pub fn check_tells_first()
    ensures { CheckTellsFirst }
{}

/// A query over a base with a clash is replied to with the first one.
pub fn ask_tells_clash()
    ensures { AskTellsClash }
{}

/// A role's generation rises where the role becomes live, and neither where it stays live nor where it dies.
pub fn rises_where_live()
    ensures { RisesWhereLive }
{}

/// The generation of a role that doesn't become live stays.
pub fn stays_where_dead()
    ensures { StaysWhereDead }
{}

/// Where a base is opened, live roles begin with generation 1, however often they have become live, and others with 0.
pub fn begins_afresh()
    ensures { BeginsAfresh }
{}

/// The replies to one request more.
pub fn steps_go_on()
    ensures { StepsGoOn }
{}

/// Each request has one reply.
pub fn as_many_replies()
    ensures { AsManyReplies }
{}

/// A step whose reply doesn't tell that something was done leaves the history as it was.
pub fn other_replies_leave_history()
    ensures { OtherRepliesLeaveHistory }
{}

/// A request that is no block, no `commit` and no `reopen` leaves the history as it was.
pub fn others_leave_history()
    ensures { OthersLeaveHistory }
{}

/// No session above 15 is ever open.
pub fn none_open_above()
    ensures { NoneOpenAbove }
{}

/// Generations behind a commit are never lacking.
pub fn generations_never_lack()
    ensures { GenerationsNeverLack }
{}

/// The state that the machine begins with is never lacking.
pub fn beginning_never_lacks()
    ensures { BeginningNeverLacks }
{}
