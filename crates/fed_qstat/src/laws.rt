//! Laws of which jobs a listing shows. Each function does nothing: its contract is the law.
ghost use Rattle.std.specs.Prelude.{◌≡◌, ◌↔◌, false};
ghost use Rattle.std.specs.List.Sorted.{IsStrictlySortedBy};
ghost use Rattle.fed_stamp.specs.Stamp.{StampValue};
ghost use Rattle.fed_lattice.specs.History.{History};
ghost use Rattle.fed_lattice.specs.Latest.{stamp_cmp};
ghost use Rattle.fed_lattice.specs.Sets.{Has};
ghost use Rattle.fed_model.specs.Body.{Body};
ghost use Rattle.fed_model.specs.Lawful.{IsLawful};
ghost use Rattle.fed_model.specs.Retired.{is_retired};
ghost use Rattle.fed_model.specs.View.{View, view, HasSubmit};
ghost use Rattle.fed_model.specs.Identifiers.{jobs_in};

/// The jobs among which a listing chooses are, in a lawful set, exactly those that were submitted and are not retired, in the
/// order of their stamps, each once.
pub fn submitted_jobs_are_listed()
    ensures ascending { (v : View) → IsStrictlySortedBy stamp_cmp (jobs_in v) }
    ensures all { (ops : History Body) (job : StampValue) → IsLawful ops →
        Has (jobs_in (view ops)) job ↔ (HasSubmit ops job × (is_retired ops job ≡ false)) }
{}
