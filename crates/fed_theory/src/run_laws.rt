//! Laws of whole runs, over every list of events in a federation of n sites, of which there are at most 16. Each
//! function does nothing: its contract is the law.
ghost use Rattle.std.specs.Prelude.{◌⊎◌, ◌≡◌, ◌≢◌, ◌<◌, ◌≤◌, ◌+◌, ℕ, Bool, true, [], ◌∷◌, ◌++◌, List, Some, IsTrue};
ghost use Rattle.fed_stamp.specs.declared.sites.TheConstants.{SITES};
ghost use Rattle.fed_stamp.specs.declared.stamps.TheConstants.{MAX_COUNTER};
ghost use Rattle.fed_stamp.specs.Stamp.{StampValue};
ghost use Rattle.fed_stamp.specs.Version.{greatest};
ghost use Rattle.fed_lattice.specs.Sets.{Has, Includes, IsSameSet};
ghost use Rattle.fed_model.specs.declared.capacities.TheConstants.{MAX_JOBS, MAX_RANGES};
ghost use Rattle.fed_model.specs.declared.askers.Who.{Who};
ghost use Rattle.fed_model.specs.declared.commands.Command.{Command};
ghost use Rattle.fed_model.specs.declared.beginnings.Beginning.{Beginning};
ghost use Rattle.fed_model.specs.declared.beginnings.Ending.{Ending};
ghost use Rattle.fed_model.specs.declared.windows.Window.{Window};
ghost use Rattle.fed_model.specs.declared.refusals.Refusal.{Refusal};
ghost use Rattle.fed_model.specs.declared.replies.Reply.{Reply};
ghost use Rattle.fed_model.specs.declared.values.JobValues.{JobValues};
ghost use Rattle.fed_model.specs.Body.{Body, Body.Submit, Body.OfJob, JobBody.Grant, JobBody.Begin, JobBody.Finish, JobBody.Delete, Body.Reserve, Body.Cancel};
ghost use Rattle.fed_model.specs.Lawful.{IsHolder, IsLawful, AreKin};
ghost use Rattle.fed_model.specs.Letter.{is_submitted};
ghost use Rattle.fed_model.specs.Retired.{is_within};
ghost use Rattle.fed_model.specs.View.{view, HasSubmit};
ghost use Rattle.fed_model.specs.Limits.{IsWithinLimits};
ghost use Rattle.fed_model.specs.declared.taken.Taken.{Taken};
ghost use Rattle.fed_model.specs.Answer.{Answer.Replies, answer};
ghost use Rattle.fed_model.specs.Origin.{jobs_of};
ghost use Rattle.fed_model.specs.Packet.{Packet};
ghost use Rattle.fed_model.specs.declared.events.Event.{Event};
ghost use Rattle.fed_model.specs.declared.events.Event.TheVariants.{Do, Ship, Take};
ghost use Rattle.fed_model.specs.declared.outcomes.Outcome.TheVariants as Outcome;
ghost use Rattle.fed_model.specs.Exchange.{IsExchange};
ghost use Rattle.fed_model.specs.OpenGrants.{HasOpenGrant};
ghost use Rattle.fed_model.specs.RangedEvents.{AreRanged};
ghost use Rattle.fed_model.specs.Run.{outcomes, packet, step, run, all_operations};
ghost use Rattle.fed_theory.specs.Retirements.{CanRetireSettled, IsRetiredAmong, unsettled_of};
ghost use Rattle.fed_theory.specs.Submits.{submits_at};

/// What a list of events leaves and what is answered to it, once one event more has come.
pub fn runs_go_on()
    ensures run { (n : ℕ) (events : List Event) (event : Event) →
        run n (events ++ event ∷ []) ≡ (step n (run n events) event).after }
    ensures outcomes { (n : ℕ) (events : List Event) (event : Event) →
        outcomes n (events ++ event ∷ []) ≡ outcomes n events ++ (step n (run n events) event).outcome ∷ [] }
{}

/// In every run the operations of all sites together are a lawful set, any two sites hold kin sets, and so are what a
/// site holds and what a packet gives.
pub fn sites_stay_kin()
    ensures lawful { (n : ℕ) (events : List Event) → n ≤ SITES → IsLawful (all_operations (run n events) n) }
    ensures kin { (n : ℕ) (events : List Event) (a b : ℕ) → n ≤ SITES →
        AreKin ((run n events).site a).set ((run n events).site b).set }
    ensures packets { (n : ℕ) (events : List Event) (site k : ℕ) (p : Packet) → n ≤ SITES →
        packet (run n events) k ≡ Some p → AreKin ((run n events).site site).set p.gives }
{}

/// No site ever loses an operation.
pub fn sets_only_grow()
    ensures { (n : ℕ) (early late : List Event) (site : ℕ) →
        Includes ((run n (early ++ late)).site site).set ((run n early).site site).set }
{}

/// A packet that is taken, by whatever site and however late, adds the whole set that its sender had when it was
/// made.
pub fn packets_add_whole_sets()
    ensures { (n : ℕ) (early late : List Event) (site to taker k : ℕ) (taken : Taken) →
        (step n (run n early) (Ship site to)).outcome ≡ Outcome.Packet k →
        (step n (run n (early ++ Ship site to ∷ late)) (Take taker k)).outcome ≡ Outcome.Taken taken →
        ((step n (run n (early ++ Ship site to ∷ late)) (Take taker k)).after.site taker).set
        ≡ ((run n (early ++ Ship site to ∷ late)).site taker).set ++ ((run n early).site site).set }
{}

/// The site that a packet was made for never lacks what the packet needs: it takes the packet, however late.
pub fn no_gap_at_the_addressee()
    ensures { (n : ℕ) (early late : List Event) (site to k : ℕ) → n ≤ SITES →
        (step n (run n early) (Ship site to)).outcome ≡ Outcome.Packet k →
        (taken : Taken) ×
        ((step n (run n (early ++ Ship site to ∷ late)) (Take to k)).outcome ≡ Outcome.Taken taken) }
{}

/// Of each term a job has one grant at most, among the operations of all sites, and the job's origin made it.
pub fn one_grant_a_term()
    ensures one { (n : ℕ) (events : List Event) → n ≤ SITES → (job s t : StampValue) (a b term : ℕ) →
        Has (all_operations (run n events) n) (s, OfJob job (Grant a term)) →
        Has (all_operations (run n events) n) (t, OfJob job (Grant b term)) → (s ≡ t) × (a ≡ b) }
    ensures by_origin { (n : ℕ) (events : List Event) → n ≤ SITES → (job s : StampValue) (a term : ℕ) →
        Has (all_operations (run n events) n) (s, OfJob job (Grant a term)) → s.site ≡ job.site }
{}

/// At no point do two sites each have, in their own set, a grant of one job to themselves that isn't handed back
/// there.
pub fn grants_are_held_by_one()
    ensures { (n : ℕ) (events : List Event) → n ≤ SITES → (job : StampValue) (a b : ℕ) →
        HasOpenGrant ((run n events).site a).set job a → HasOpenGrant ((run n events).site b).set job b → a ≡ b }
{}

/// No job begins at two sites, or twice: among the operations of all sites it has one Begin at most.
pub fn jobs_begin_once()
    ensures one { (n : ℕ) (events : List Event) → n ≤ SITES → (job s t : StampValue) (a b : Beginning) →
        Has (all_operations (run n events) n) (s, OfJob job (Begin a)) →
        Has (all_operations (run n events) n) (t, OfJob job (Begin b)) → (s ≡ t) × (a ≡ b) }
    ensures at_one_site { (n : ℕ) (events : List Event) → n ≤ SITES → (x y : ℕ) (job s t : StampValue)
        (a b : Beginning) → Has ((run n events).site x).set (s, OfJob job (Begin a)) →
        Has ((run n events).site y).set (t, OfJob job (Begin b)) → s.site ≡ t.site }
{}

/// The Begin of a job is made by the site that holds its grant.
pub fn begun_by_the_holder()
    ensures { (n : ℕ) (events : List Event) → n ≤ SITES → (job s : StampValue) (a : Beginning) →
        Has (all_operations (run n events) n) (s, OfJob job (Begin a)) →
        IsHolder (all_operations (run n events) n) job s.site }
{}

/// Of all requests to begin a job one at most is done, at whatever sites and however often it is asked.
pub fn begins_are_done_once()
    ensures { (n : ℕ) (early between : List Event) (site other : ℕ) (who asker : Who) (job : StampValue)
        (moment later : ℕ) (reply again : Reply) → n ≤ SITES →
        (step n (run n early) (Do site who (Command.Begin job moment))).outcome ≡ Outcome.Replied reply →
        (step n (run n (early ++ Do site who (Command.Begin job moment) ∷ between))
        (Do other asker (Command.Begin job later))).outcome ≢ Outcome.Replied again }
{}

/// Once a Retire was done, no Begin and no Grant of a job that it retires is done any more, at whatever site, and
/// whether or not that site has heard of the Retire: it is a Retire of the job's origin whose range has the job's counter.
pub fn retired_jobs_never_begin()
    ensures begins { (n : ℕ) (early between : List Event) (site other : ℕ) (who asker : Who) (first last moment : ℕ)
        (job : StampValue) (reply again : Reply) → n ≤ SITES → job.site ≡ site → is_within first last job.counter ≡ true →
        (step n (run n early) (Do site who (Command.Retire first last))).outcome ≡ Outcome.Replied reply →
        (step n (run n (early ++ Do site who (Command.Retire first last) ∷ between))
        (Do other asker (Command.Begin job moment))).outcome ≢ Outcome.Replied again }
    ensures grants { (n : ℕ) (early between : List Event) (site other : ℕ) (who asker : Who) (first last to : ℕ)
        (job : StampValue) (reply again : Reply) → job.site ≡ site → is_within first last job.counter ≡ true →
        (step n (run n early) (Do site who (Command.Retire first last))).outcome ≡ Outcome.Replied reply →
        (step n (run n (early ++ Do site who (Command.Retire first last) ∷ between))
        (Do other asker (Command.Grant job to))).outcome ≢ Outcome.Replied again }
{}

/// No job is retired that runs: where any site knows a job to be retired, and it has begun, the site that began it has
/// its Finish.
pub fn retired_jobs_do_not_run()
    ensures { (n : ℕ) (events : List Event) → n ≤ SITES → (site other : ℕ) (job s : StampValue) (a : Beginning) →
        IsTrue ((view ((run n events).site site).set).retired job) →
        Has ((run n events).site other).set (s, OfJob job (Begin a)) →
        (t : StampValue) × (b : Ending) × Has ((run n events).site s.site).set (t, OfJob job (Finish b)) }
{}

/// No job is retired that waits: where any site knows a job to be retired that was submitted, some site has finished or
/// deleted it.
pub fn retired_jobs_have_ended()
    ensures { (n : ℕ) (events : List Event) → n ≤ SITES → (site other : ℕ) (job : StampValue) →
        IsTrue ((view ((run n events).site site).set).retired job) → HasSubmit ((run n events).site other).set job →
        ((s : StampValue) × (a : Ending) × Has ((run n events).site s.site).set (s, OfJob job (Finish a)))
        ⊎ ((s : StampValue) × Has ((run n events).site s.site).set (s, OfJob job Delete)) }
{}

/// No reservation is retired that stands: where any site knows a reservation to be retired, some site has cancelled it.
pub fn retired_reservations_are_cancelled()
    ensures { (n : ℕ) (events : List Event) → n ≤ SITES → (site other : ℕ) (id : StampValue) (window : Window) →
        IsTrue ((view ((run n events).site site).set).retired id) →
        Has ((run n events).site other).set (id, Reserve window) →
        (s : StampValue) × Has ((run n events).site s.site).set (s, Cancel id) }
{}

/// A job that is retired is retired ever after, at its origin and at each site that takes a packet which the origin
/// shipped after it: no late, repeated or lost packet brings it back.
pub fn retired_jobs_stay_retired()
    ensures origin { (n : ℕ) (early between : List Event) (site : ℕ) (who : Who) (first last : ℕ)
        (job : StampValue) (reply : Reply) → job.site ≡ site → is_within first last job.counter ≡ true →
        (step n (run n early) (Do site who (Command.Retire first last))).outcome ≡ Outcome.Replied reply →
        IsTrue ((view ((run n (early ++ Do site who (Command.Retire first last) ∷ between)).site site).set).retired job) }
    ensures told { (n : ℕ) (early between late : List Event) (site to taker k : ℕ) (who : Who) (first last : ℕ)
        (job : StampValue) (reply : Reply) (taken : Taken) → job.site ≡ site → is_within first last job.counter ≡ true →
        (step n (run n early) (Do site who (Command.Retire first last))).outcome ≡ Outcome.Replied reply →
        let sent = early ++ Do site who (Command.Retire first last) ∷ between in
        (step n (run n sent) (Ship site to)).outcome ≡ Outcome.Packet k →
        (step n (run n (sent ++ Ship site to ∷ late)) (Take taker k)).outcome ≡ Outcome.Taken taken →
        IsTrue ((view ((step n (run n (sent ++ Ship site to ∷ late)) (Take taker k)).after.site taker).set).retired job) }
    ensures ever { (n : ℕ) (early late : List Event) (site : ℕ) (job : StampValue) →
        IsTrue ((view ((run n early).site site).set).retired job) →
        IsTrue ((view ((run n (early ++ late)).site site).set).retired job) }
{}

/// Where the values of all events are in range, as the types of their parts keep them, the operations that each site
/// holds are within limits, and so is what each packet gives: values, terms and windows are in range, a job that begins
/// ends later, and of no site there are more than 10,000 jobs that are not retired, 1,000 ranges that are, and 1,000
/// reservations: whatever each site has heard of the Retires of others.
pub fn sets_stay_within_limits()
    ensures sites { (n : ℕ) (events : List Event) → n ≤ SITES → AreRanged events → (site : ℕ) →
        IsWithinLimits ((run n events).site site).set }
    ensures packets { (n : ℕ) (events : List Event) → n ≤ SITES → AreRanged events → (k : ℕ) (p : Packet) →
        packet (run n events) k ≡ Some p → IsWithinLimits p.gives }
{}

/// A command that was answered by a reply is never undone: the operation that it added, if any, is in the set of its
/// site ever after, and in that of each site that takes a packet which that site shipped after it.
pub fn done_commands_stay()
    ensures kept { (n : ℕ) (early late : List Event) (site : ℕ) (who : Who) (command : Command) (reply : Reply)
        (new : StampValue × Body) → site < n →
        answer ((run n early).site site).set site who command ≡ Replies reply (Some new) →
        Has ((run n (early ++ Do site who command ∷ late)).site site).set new }
    ensures passed { (n : ℕ) (early between late : List Event) (site to taker k : ℕ) (who : Who) (command : Command)
        (reply : Reply) (new : StampValue × Body) (taken : Taken) → site < n →
        answer ((run n early).site site).set site who command ≡ Replies reply (Some new) →
        let sent = early ++ Do site who command ∷ between in
        (step n (run n sent) (Ship site to)).outcome ≡ Outcome.Packet k →
        (step n (run n (sent ++ Ship site to ∷ late)) (Take taker k)).outcome ≡ Outcome.Taken taken →
        Has ((step n (run n (sent ++ Ship site to ∷ late)) (Take taker k)).after.site taker).set new }
{}

/// New jobs are there. A `Submit` that is answered gives its job an identifier of its site (`named`), and the `Submit` is
/// in the site's set ever after, of the user who asked and with the values that were asked (`kept`). The job reads as
/// submitted at its site in all that follows, until a `Retire` is done there whose range has its counter (`there`).
pub fn new_jobs_are_there()
    ensures named { (n : ℕ) (early : List Event) (site : ℕ) (who : Who) (values : JobValues) (held : Bool) (job : StampValue) →
        (step n (run n early) (Do site who (Command.Submit values held))).outcome ≡ Outcome.Replied (Reply.Submitted job) →
        job.site ≡ site }
    ensures kept { (n : ℕ) (early late : List Event) (site : ℕ) (who : Who) (values : JobValues) (held : Bool)
        (job : StampValue) →
        (step n (run n early) (Do site who (Command.Submit values held))).outcome ≡ Outcome.Replied (Reply.Submitted job) →
        Has ((run n (early ++ Do site who (Command.Submit values held) ∷ late)).site site).set
        (job, Submit who.user values held) }
    ensures there { (n : ℕ) (early late : List Event) (site : ℕ) (who : Who) (values : JobValues) (held : Bool)
        (job : StampValue) → n ≤ SITES →
        (step n (run n early) (Do site who (Command.Submit values held))).outcome ≡ Outcome.Replied (Reply.Submitted job) →
        let submitted = early ++ Do site who (Command.Submit values held) ∷ [] in
        IsTrue (is_submitted ((view ((run n (early ++ Do site who (Command.Submit values held) ∷ late)).site site).set).job job))
        ⊎ IsRetiredAmong n submitted late job }
{}

/// New jobs find room until a site has 10,000. It has no more jobs that aren't retired than it had and one for each
/// `Submit` that it was asked since (`jobs`). As long as these together are fewer than 10,000, no `Submit` is refused since the
/// site is full (`room`).
pub fn new_jobs_find_room()
    ensures jobs { (n : ℕ) (early late : List Event) (site : ℕ) → n ≤ SITES →
        jobs_of (view ((run n (early ++ late)).site site).set) site
        ≤ jobs_of (view ((run n early).site site).set) site + submits_at site late }
    ensures room { (n : ℕ) (early late : List Event) (site : ℕ) (who : Who) (values : JobValues) (held : Bool) → n ≤ SITES →
        jobs_of (view ((run n early).site site).set) site + submits_at site late < MAX_JOBS →
        (step n (run n (early ++ late)) (Do site who (Command.Submit values held))).outcome ≢ Outcome.Refused Refusal.SiteFull }
{}

/// A site of which fewer than 1,000 jobs and reservations are unsettled is never full for good, whatever it has retired
/// before: it can retire all others. There are ranges, at most one more than what is unsettled, whose `Retire`s it does one
/// after another, as long as its clock has so many stamps left. Behind them it knows of its own jobs and reservations just
/// those that are unsettled, each as before, and refuses no `Submit` as a full site until they are 10,000 with those that it
/// was asked for since.
pub fn settled_identifiers_can_be_retired()
    ensures { (n : ℕ) (events : List Event) (site : ℕ) (who : Who) → n ≤ SITES → site < n →
        unsettled_of (view ((run n events).site site).set) site < MAX_RANGES →
        greatest (view ((run n events).site site).set).version
        + (unsettled_of (view ((run n events).site site).set) site + 1) ≤ MAX_COUNTER →
        CanRetireSettled n events site who }
{}

/// Once no command is done any more and each site has made a packet for each other, which took it, all sites hold the
/// same operations, whatever was lost, repeated or reordered before and meanwhile.
pub fn exchanges_converge()
    ensures { (n : ℕ) (early late : List Event) → n ≤ SITES → IsExchange n early late → (a b : ℕ) → a < n → b < n →
        IsSameSet ((run n (early ++ late)).site a).set ((run n (early ++ late)).site b).set }
{}
