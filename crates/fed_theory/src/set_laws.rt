//! Laws of what is read of sets of operations, over every set that is as the law asks. Each function does nothing: its
//! contract is the law.
ghost use Rattle.std.specs.Prelude.{◌≡◌, ◌<◌, ◌≤◌, ◌↔◌, ◌||◌, ℕ, List, None, true, false, [], ◌∷◌, ◌++◌, IfSome, IsSome, IsTrue, if◌then◌else◌};
ghost use Rattle.fed_stamp.specs.declared.sites.TheConstants.{SITES};
ghost use Rattle.fed_stamp.specs.Stamp.{StampValue};
ghost use Rattle.fed_stamp.specs.Version.{counter_of, covers, is_below};
ghost use Rattle.fed_lattice.specs.Sets.{IsSameSet};
ghost use Rattle.fed_lattice.specs.History.{History, OneEach, IsFresh};
ghost use Rattle.fed_lattice.specs.VersionOf.{version_of};
ghost use Rattle.fed_model.specs.Body.{Body, of_job};
ghost use Rattle.fed_model.specs.JobView.{job_view, unknown};
ghost use Rattle.fed_model.specs.Letter.{is_submitted};
ghost use Rattle.fed_model.specs.View.{view, HasSubmit, HasReserve};
ghost use Rattle.fed_theory.specs.Cut.{cut};
ghost use Rattle.fed_theory.specs.ViewSteps.{add_to_view, join_views, join_records};
ghost use Rattle.fed_model.specs.Lawful.{IsGrounded, IsLawful, AreKin};
ghost use Rattle.fed_theory.specs.MayFollow.{MayFollow};

/// What is read of a set depends on its members alone, where different operations have different stamps: the
/// order and the repeats in which they came don't matter.
pub fn members_alone_are_read()
    ensures { (ops others : History Body) → OneEach ops → IsSameSet ops others → view ops ≡ view others }
{}

/// One operation more, of a stamp that the set's version doesn't cover, is read by adding it to what was read
/// before.
pub fn additions_are_read()
    ensures { (ops : History Body) (e : StampValue × Body) → IsLawful ops → covers (version_of ops) e.0 ≡ false →
        view (ops ++ e ∷ []) ≡ add_to_view (view ops) e }
{}

/// The union of kin sets is read by joining what is read of each.
pub fn kin_sets_join()
    ensures { (ops others : History Body) → AreKin ops others →
        view (ops ++ others) ≡ join_views (view ops) (view others) }
{}

/// Beside a kin set, a job that the other set did not touch beyond this set's version is read as in this set
/// alone, or as unknown where the other set has retired it: it need not be sent.
pub fn untouched_jobs_are_known()
    ensures { (ops others : History Body) (job : StampValue) → AreKin ops others →
        is_below ((view others).job job).touched (version_of ops) ≡ true →
        (view (ops ++ others)).job job ≡ (if (view others).retired job then unknown else (view ops).job job) }
{}

/// Beside a kin set, where this set's version covers the greatest stamp of the other set's Retires of a site, no job of
/// that site is retired there that isn't retired here: the site's ranges need not be sent.
pub fn covered_retirements_are_known()
    ensures { (ops others : History Body) (job : StampValue) → AreKin ops others →
        counter_of (view others).retirements job.site ≤ counter_of (version_of ops) job.site →
        IsTrue ((view others).retired job) → IsTrue ((view ops).retired job) }
{}

/// A job is retired in the union of two sets where it is in one of them, and then nothing is known of it there,
/// whatever operations of it the other set has: of any sets, lawful or not.
pub fn retired_jobs_stay_unknown()
    ensures union { (ops others : History Body) (job : StampValue) →
        (view (ops ++ others)).retired job ≡ ((view ops).retired job || (view others).retired job) }
    ensures unknown { (ops : History Body) (job : StampValue) →
        IsTrue ((view ops).retired job) → (view ops).job job ≡ unknown }
    ensures whole { (ops : History Body) (job : StampValue) →
        (view ops).retired job ≡ false → (view ops).job job ≡ job_view (of_job job ops) }
{}

/// So is a reservation that the other set doesn't have, or whose greatest stamp there is covered by this set's
/// version.
pub fn covered_reservations_are_known()
    ensures { (ops others : History Body) (id : StampValue) → AreKin ops others →
        IfSome ((view others).reservation id) (λ greatest. covers (version_of ops) greatest.0 ≡ true) →
        (view (ops ++ others)).reservation id
        ≡ (if (view others).retired id then None else (view ops).reservation id) }
{}

/// A cut of what a set says, joined to what a kin set says that has seen all that the cut needs, is what their union
/// says: it has the jobs that were touched beyond the version, the reservations whose greatest stamp that does not cover,
/// and what is retired of each site whose latest Retire it does not cover.
pub fn cuts_are_enough()
    ensures { (ops others : History Body) (need : List ℕ) → AreKin ops others →
        is_below need (version_of ops) ≡ true →
        join_records (view ops) (cut (view others) need) ≡ view (ops ++ others) }
{}

/// A lawful set stays lawful by one operation more, of a stamp that no operation has and of one of the 16
/// sites, that rests on it and may follow it.
pub fn lawful_sets_grow()
    ensures { (ops : History Body) (e : StampValue × Body) → IsLawful ops → IsFresh e.0 ops → e.0.site < SITES →
        IsGrounded (ops ++ e ∷ []) e.0 e.1 → MayFollow ops e.0 e.1 → IsLawful (ops ++ e ∷ []) }
{}

/// A job reads as submitted exactly where the set has its `Submit` and hasn't retired it.
pub fn submitted_jobs_have_their_submit()
    ensures { (ops : History Body) (job : StampValue) →
        IsTrue (is_submitted ((view ops).job job)) ↔ (HasSubmit ops job × ((view ops).retired job ≡ false)) }
{}

/// In a lawful set a reservation reads as made exactly where the set has its `Reserve`.
pub fn made_reservations_have_their_reserve()
    ensures { (ops : History Body) (id : StampValue) → IsLawful ops →
        IsSome ((view ops).reservation id) ↔ (HasReserve ops id × ((view ops).retired id ≡ false)) }
{}

/// In a lawful set no operation is of a job that is neither submitted nor retired, and nothing is read of it.
pub fn jobs_are_submitted_or_unknown()
    ensures operations { (ops : History Body) (job : StampValue) → IsLawful ops →
        (view ops).retired job ≡ false → is_submitted ((view ops).job job) ≡ false → of_job job ops ≡ [] }
    ensures reads { (ops : History Body) (job : StampValue) → IsLawful ops →
        is_submitted ((view ops).job job) ≡ false → (view ops).job job ≡ job_view [] }
{}
