//! What holds of every run of the machine. These functions do nothing: their contracts are the laws.

ghost use Rattle.std.specs.Prelude.{◌≡◌, ◌++◌, ℕ, List, fold};
ghost use Rattle.std.specs.List.{AllByRecursion};
ghost use Rattle.settings.specs.Settings.{Configuration, IsInRange};
ghost use Rattle.members.specs.Calls.{room_after};
ghost use Rattle.members.specs.Rows.{row_changed};
ghost use Rattle.events.specs.declared.event.Event.{Event};
ghost use Rattle.core_steps.specs.EveryRun.{OfEveryHappening, OfEveryRun, OfEveryRunFromNew};
ghost use Rattle.core_steps.specs.EveryRun.{tasks_done, tasks_made, jobs_taken, jobs_put, row_changes, room_calls};
ghost use Rattle.core_steps.specs.EveryRun.{HasLegalDesks, DesksRecord, TellsLegalDesks, LegsTake, NewLegsTake};
ghost use Rattle.core_steps.specs.Happening.{Happening};
ghost use Rattle.core_steps.specs.Laws.{IsGivenUpFull, jobs_at};
ghost use Rattle.core_steps.specs.Opening.{setup_by};
ghost use Rattle.core_steps.specs.Reports.{ComesEvenly, DueOnceARound, MakesDueReports, ReportsAtOnce};
ghost use Rattle.core_steps.specs.Run.{Runs, worlds_after};
ghost use Rattle.core_steps.specs.World.{WorldState};

/// A run after a run is one run of both lists of events.
pub fn runs_join()
    ensures { (w : WorldState) (first second : List Event) (past next : List Happening)
        → Runs w first past → Runs (worlds_after w past) second next
        → Runs w (first ++ second) (past ++ next) }
{}

/// Tasks are done in the order in which they were made: those done, then those that wait, are those that waited, then those
/// made.
pub fn tasks_in_order()
    ensures { OfEveryRun (λ w history.
        tasks_done history ++ (worlds_after w history).tasks ≡ w.tasks ++ tasks_made history) }
{}

/// The jobs of each worker are taken in the order in which they were put into its ring: those taken, then those that wait,
/// are those that waited, then those put.
pub fn jobs_in_order()
    ensures { (k : ℕ) → OfEveryRun (λ w history.
        jobs_taken k history ++ jobs_at k (worlds_after w history)
        ≡ jobs_at k w ++ jobs_put k history) }
{}

/// A job is given up only if as many wait for its worker as may.
pub fn given_up_where_full()
    ensures { OfEveryHappening (λ w h. AllByRecursion (IsGivenUpFull w) h.given_up) }
{}

/// The set that a call's effect shows, which is what is told of it, is the one that its desk announces then; and the desk is
/// legal.
pub fn tells_what_is_announced()
    ensures { OfEveryHappening (λ w h. TellsLegalDesks h) }
{}

/// The published rows are those after all changes, and the room is what its accepted calls make of it.
pub fn rows_and_room_by_history()
    ensures rows { (w : WorldState) (history : List Happening)
        → (worlds_after w history).rows ≡ fold row_changed w.rows (row_changes history) }
    ensures room { (w : WorldState) (history : List Happening)
        → (worlds_after w history).room ≡ room_after w.room (room_calls history) }
{}

/// After every run from a world whose desks are legal, each desk is: what it announces are some of its live requests, which permit
/// exactly what all of these permit together, and no smaller choice does.
pub fn desks_stay_legal()
    ensures { OfEveryRun (λ w history. HasLegalDesks w → HasLegalDesks (worlds_after w history)) }
{}

/// After every run each desk stands for its former trace and the calls of its publisher that the history lists, in order, with
/// their numbers and with the answers that are owed to them.
pub fn desks_by_history()
    ensures { OfEveryRun (λ w history. HasLegalDesks w → DesksRecord w history) }
{}

/// After every run what each leg of a worker holds of numbers, and what it keeps, are what the packets make of them that it took:
/// those of its publisher among the jobs that its worker finished, by the rows as they were then. Of a leg of a new world these are
/// a new leg's numbers after the whole list of its packets, and the last of those that got one.
pub fn legs_by_history()
    ensures legs { OfEveryRun LegsTake }
    ensures all { OfEveryRunFromNew NewLegsTake }
{}

/// Reports are made where a moment is taken in, and those alone that are due then.
pub fn makes_due_reports()
    ensures { OfEveryHappening MakesDueReports }
{}

/// Each endpoint and each leg has its report due once in each round; the slots of a round come at even distances, the last once the
/// period is over.
pub fn due_once_a_round()
    ensures once { OfEveryRunFromNew (λ c w history. IsInRange c → DueOnceARound w history) }
    ensures evenly { (c : Configuration) → IsInRange c → ComesEvenly (setup_by c) }
{}

/// With one slot all reports are made at once: whenever the period is over since they were made last.
pub fn one_slot_is_all_at_once()
    ensures { OfEveryRunFromNew (λ c w history. IsInRange c → c.report_slots ≡ 1
        → ReportsAtOnce (worlds_after w history)) }
{}
