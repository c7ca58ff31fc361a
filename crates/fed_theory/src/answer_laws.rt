//! Laws of what sites answer, over every set of operations that is as the law asks. Each function does nothing: its
//! contract is the law.
ghost use Rattle.std.specs.Prelude.{◌≡◌, ◌<◌, ◌≤◌, ℕ, true, false, [], ◌∷◌, ◌++◌, Ok, Some};
ghost use Rattle.fed_stamp.specs.declared.sites.TheConstants.{SITES};
ghost use Rattle.fed_stamp.specs.Stamp.{StampValue};
ghost use Rattle.fed_stamp.specs.Version.{counter_of, covers, next_stamp};
ghost use Rattle.fed_lattice.specs.Sets.{Has, IsSameSet};
ghost use Rattle.fed_lattice.specs.History.{History, OneEach};
ghost use Rattle.fed_lattice.specs.VersionOf.{version_of};
ghost use Rattle.fed_model.specs.declared.askers.Who.{Who};
ghost use Rattle.fed_model.specs.declared.commands.Command.{Command};
ghost use Rattle.fed_model.specs.declared.refusals.Refusal.{Refusal};
ghost use Rattle.fed_model.specs.declared.replies.Reply.{Reply};
ghost use Rattle.fed_model.specs.Body.{Body, Body.Retire};
ghost use Rattle.fed_model.specs.Refusal.{number_of};
ghost use Rattle.fed_model.specs.View.{View, view};
ghost use Rattle.fed_model.specs.Lawful.{IsGrounded, IsLawful};
ghost use Rattle.fed_theory.specs.MayFollow.{MayFollow};
ghost use Rattle.fed_model.specs.Ranges.{IsInRange, IsRanged};
ghost use Rattle.fed_model.specs.Answer.{Answer.Refuses, Answer.Replies, answer, answer_to};
ghost use Rattle.fed_model.specs.Origin.{jobs_of, reservations_of};
ghost use Rattle.fed_model.specs.Desk.{Case};
ghost use Rattle.fed_model.specs.Refusals.{refusals, has_unsettled};

/// What a site answers depends on the members of its set alone, where different operations have different stamps:
/// the order and the repeats in which they came don't matter.
pub fn members_alone_are_answered()
    ensures { (ops others : History Body) (here : ℕ) (who : Who) (command : Command) →
        OneEach ops → IsSameSet ops others → answer ops here who command ≡ answer others here who command }
{}

/// Where a refusal of the table applies the command is refused, with the least number of those that apply.
pub fn least_refusals_are_answered()
    ensures refused { (v : View) (here : ℕ) (who : Who) (command : Command) (c : Case) →
        Has (refusals v here who command) c → c.0 ≡ true →
        (refusal : Refusal) × (answer_to v here who command ≡ Refuses refusal) }
    ensures least { (v : View) (here : ℕ) (who : Who) (command : Command) (refusal : Refusal) (c : Case) →
        answer_to v here who command ≡ Refuses refusal → Has (refusals v here who command) c → c.0 ≡ true →
        number_of refusal ≤ number_of c.1 }
{}

/// The operation that an answer adds to a lawful set has the site's next stamp, which no operation of the set has,
/// rests on the set and may follow it. So the set stays lawful, at one of the 16 sites.
pub fn answers_keep_sets_lawful()
    ensures next { (ops : History Body) (here : ℕ) (who : Who) (command : Command) (reply : Reply)
        (new : StampValue × Body) → IsLawful ops → answer ops here who command ≡ Replies reply (Some new) →
        next_stamp (version_of ops) here ≡ Ok new.0 }
    ensures uncovered { (ops : History Body) (here : ℕ) (who : Who) (command : Command) (reply : Reply)
        (new : StampValue × Body) → IsLawful ops → answer ops here who command ≡ Replies reply (Some new) →
        covers (version_of ops) new.0 ≡ false }
    ensures rests { (ops : History Body) (here : ℕ) (who : Who) (command : Command) (reply : Reply)
        (new : StampValue × Body) → IsLawful ops → answer ops here who command ≡ Replies reply (Some new) →
        IsGrounded ops new.0 new.1 × MayFollow ops new.0 new.1 }
    ensures lawful { (ops : History Body) (here : ℕ) (who : Who) (command : Command) (reply : Reply)
        (new : StampValue × Body) → IsLawful ops → here < SITES → answer ops here who command ≡ Replies reply (Some new) →
        IsLawful (ops ++ new ∷ []) }
{}

/// The operation that an answer adds to a lawful set of operations in range, where what is asked is in range, is in
/// range.
pub fn answers_stay_in_range()
    ensures { (ops : History Body) (here : ℕ) (who : Who) (command : Command) (reply : Reply)
        (new : StampValue × Body) → IsLawful ops → ((e : StampValue × Body) → Has ops e → IsInRange e.1) →
        IsRanged who command → answer ops here who command ≡ Replies reply (Some new) → IsInRange new.1 }
{}

/// A site all of whose jobs are settled and whose reservations are cancelled is never full for good: it can retire them
/// all at once, whatever it has retired before, and then no job and no reservation counts.
pub fn settled_sites_can_be_emptied()
    ensures answered { (ops : History Body) (here : ℕ) (who : Who) (t : StampValue) → IsLawful ops →
        next_stamp (version_of ops) here ≡ Ok t → 1 ≤ counter_of (version_of ops) here →
        has_unsettled (view ops) here 1 (counter_of (version_of ops) here) ≡ false →
        answer ops here who (Command.Retire 1 (counter_of (version_of ops) here))
        ≡ Replies Reply.Done (Some (t, Retire 1 (counter_of (version_of ops) here))) }
    ensures empty { (ops : History Body) (here : ℕ) (t : StampValue) → IsLawful ops → t.site ≡ here → here < SITES →
        ((e : StampValue × Body) → Has ops e → 1 ≤ e.0.counter) →
        jobs_of (view (ops ++ (t, Retire 1 (counter_of (version_of ops) here)) ∷ [])) here ≡ 0 }
    ensures unreserved { (ops : History Body) (here : ℕ) (t : StampValue) → IsLawful ops → t.site ≡ here →
        IsLawful (ops ++ (t, Retire 1 (counter_of (version_of ops) here)) ∷ []) →
        ((e : StampValue × Body) → Has ops e → 1 ≤ e.0.counter) →
        reservations_of (view (ops ++ (t, Retire 1 (counter_of (version_of ops) here)) ∷ [])) here ≡ 0 }
{}
