//! The orders of these values tell all of them apart, so that registers and stages can hold them.
ghost use Rattle.std.proofs.lemmas.Map.Lookups.{exact_unsigned, exact_signed};
ghost use Rattle.fed_model.specs.GrantLaws.{exact_grant};
ghost use Rattle.fed_model.specs.HoldLaws.{exact_kind};
ghost use Rattle.fed_model.specs.ValueLaws.{exact_account, exact_beginning, exact_ending, exact_window};

use crate::accounts::Account;
use crate::beginnings::{Beginning, Ending};
use crate::grants::GrantStage;
use crate::holds::HoldKind;
use crate::limits::Limit;
use crate::moments::Moment;
use crate::node_counts::Nodes;
use crate::priorities::Priority;
use crate::terms::Term;
use crate::windows::Window;
use fed_lattice::Exact;

impl Exact for Priority {
    ghost exact = { exact_signed };
}

impl Exact for Nodes {
    ghost exact = { exact_unsigned };
}

impl Exact for Limit {
    ghost exact = { exact_unsigned };
}

impl Exact for Moment {
    ghost exact = { exact_unsigned };
}

impl Exact for Term {
    ghost exact = { exact_unsigned };
}

impl Exact for Account {
    ghost exact = { exact_account };
}

impl Exact for HoldKind {
    ghost exact = { exact_kind };
}

impl Exact for GrantStage {
    ghost exact = { exact_grant };
}

impl Exact for Beginning {
    ghost exact = { exact_beginning };
}

impl Exact for Ending {
    ghost exact = { exact_ending };
}

impl Exact for Window {
    ghost exact = { exact_window };
}
