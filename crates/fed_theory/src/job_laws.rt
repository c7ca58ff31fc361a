//! Laws of what is read of the operations of one job, over every set of them that is as the law asks. Each function
//! does nothing: its contract is the law.
ghost use Rattle.std.specs.Prelude.{◌≡◌, ◌↔◌, ℕ, List, true, [], ◌∷◌, ◌++◌};
ghost use Rattle.fed_stamp.specs.Stamp.{StampValue};
ghost use Rattle.fed_lattice.specs.Sets.{IsSameSet};
ghost use Rattle.fed_lattice.specs.History.{History, OneEach, IsFresh, Agree};
ghost use Rattle.fed_lattice.specs.VersionOf.{HasSites};
ghost use Rattle.fed_model.specs.declared.holds.HoldKind.{HoldKind};
ghost use Rattle.fed_model.specs.Body.{Body};
ghost use Rattle.fed_model.specs.JobView.{job_view};
ghost use Rattle.fed_theory.specs.JobSteps.{add_to_job, join_jobs};
ghost use Rattle.fed_model.specs.Letter.{has_site, has_hold};
ghost use Rattle.fed_theory.specs.JobHistory.{IsJobHistory};

/// What is read of a job depends on the members of the set of its operations alone, where different operations have
/// different stamps: their order and their repeats don't matter.
pub fn members_alone_are_read()
    ensures { (ops others : History Body) → OneEach ops → IsSameSet ops others → job_view ops ≡ job_view others }
{}

/// One operation more, of a stamp that no operation has, is read by adding it to what was read before, where different
/// operations have different stamps and each pair that the operations before remove was added by one of them.
pub fn additions_are_read()
    ensures { (ops : History Body) (e : StampValue × Body) → OneEach (e ∷ ops) → IsFresh e.0 ops → IsJobHistory ops →
        job_view (e ∷ ops) ≡ add_to_job e.0 e.1 (job_view ops) }
{}

/// Where two sets agree beside their versions, and each removes only pairs that it added, their union is read by
/// joining what is read of each. Sets agree where each version covers its set, each operation of one that the other's
/// version covers is in the other, and different operations, of one set or of both, have different stamps.
pub fn agreeing_sets_join()
    ensures { (v w : List ℕ) (ops others : History Body) → Agree v ops w others →
        IsJobHistory ops → IsJobHistory others →
        job_view (ops ++ others) ≡ join_jobs v (job_view ops) w (job_view others) }
{}

/// A site or a kind of hold is present exactly where it has a live pair, where each operation was made at one of the 16
/// sites.
pub fn present_where_live()
    ensures sites { (ops : History Body) (site : ℕ) → HasSites ops →
        (has_site (job_view ops) site ≡ true) ↔ ((tag : StampValue) × ((job_view ops).sites site tag ≡ true)) }
    ensures holds { (ops : History Body) (kind : HoldKind) → HasSites ops →
        (has_hold (job_view ops) kind ≡ true) ↔ ((tag : StampValue) × ((job_view ops).holds kind tag ≡ true)) }
{}
