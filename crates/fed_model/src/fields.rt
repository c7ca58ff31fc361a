//! The fields of jobs.
ghost use Rattle.std.specs.Prelude.{◌≡◌};
ghost use Rattle.fed_lattice.specs.Part.{part};
ghost use Rattle.fed_lattice.specs.Both.{applied_option};
ghost use Rattle.fed_model.specs.Fields.{owner_part, name_part, priority_part, nodes_part, limit_part, account_part};
ghost use Rattle.fed_model.specs.NamedPartLaws.{applied_well_formed, part_adds_change, part_joins_histories, part_stands_for_sets};
ghost use Rattle.fed_model.specs.FieldsLaws.{tells_fields};

use crate::inlines::{Inline, apply_option, copy_inline, join_inline};
use fed_lattice::{Causal, ExactEq, NoMemory};
use fed_stamp::{Stamp, Version};
use std::alloc::Global;

/// Something of each field of a job, side by side: its values, registers of them, what changes in them. Fields of values
/// that change and join do so part by part, by the laws of each.
#[derive(Clone, Copy, Drop, PartialEq, Eq, Debug)]
pub struct Fields<Owner, Name, Priority, Nodes, Limit, Account> {
    /// Its name.
    pub name: Name,
    /// What it is charged to.
    pub account: Account,
    // the owner is looked at by each alteration, most of which set one of the next three: these lie side by side, and
    // next to the stages, which are looked at too
    /// Who submitted it.
    pub owner: Owner,
    /// How soon it is wanted.
    pub priority: Priority,
    /// How many nodes it runs on.
    pub nodes: Nodes,
    /// How long it may run.
    pub limit: Limit,
}

/// Two are identical exactly where their parts are equal.
impl<
    Owner: ExactEq,
    Name: ExactEq,
    Priority: ExactEq,
    Nodes: ExactEq,
    Limit: ExactEq,
    Account: ExactEq,
> ExactEq for Fields<Owner, Name, Priority, Nodes, Limit, Account> {
    ghost exact_eq = { tells_fields Owner.eq Name.eq Priority.eq Nodes.eq Limit.eq Account.eq
        Owner.exact_eq Name.exact_eq Priority.exact_eq Nodes.exact_eq Limit.exact_eq Account.exact_eq };
}

/// Each part changes and joins by itself. A change has what changes in each part, if anything does; the others stay.
impl<
    Owner: Inline + Drop,
    Name: Inline + Drop,
    Priority: Inline + Drop,
    Nodes: Inline + Drop,
    Limit: Inline + Drop,
    Account: Inline + Drop,
> Causal for Fields<Owner, Name, Priority, Nodes, Limit, Account> {
    type Change = Fields<
        Option<Owner::Change>,
        Option<Name::Change>,
        Option<Priority::Change>,
        Option<Nodes::Change>,
        Option<Limit::Change>,
        Option<Account::Change>,
    >;

    ghost well_formed = { λ x.
        Owner.well_formed x.owner × Name.well_formed x.name × Priority.well_formed x.priority ×
        Nodes.well_formed x.nodes × Limit.well_formed x.limit × Account.well_formed x.account };

    ghost bottom = { record {
      owner = Owner.bottom;
      name = Name.bottom;
      priority = Priority.bottom;
      nodes = Nodes.bottom;
      limit = Limit.bottom;
      account = Account.bottom;
    } };

    ghost applied = { λ x s c. record {
      owner = applied_option Owner.applied x.owner s c.owner;
      name = applied_option Name.applied x.name s c.name;
      priority = applied_option Priority.applied x.priority s c.priority;
      nodes = applied_option Nodes.applied x.nodes s c.nodes;
      limit = applied_option Limit.applied x.limit s c.limit;
      account = applied_option Account.applied x.account s c.account;
    } };

    ghost joined = { λ x v y w. record {
      owner = Owner.joined x.owner v y.owner w;
      name = Name.joined x.name v y.name w;
      priority = Priority.joined x.priority v y.priority w;
      nodes = Nodes.joined x.nodes v y.nodes w;
      limit = Limit.joined x.limit v y.limit w;
      account = Account.joined x.account v y.account w;
    } };

    ghost is_history = { λ h.
        Owner.is_history (part owner_part h) × Name.is_history (part name_part h) ×
        Priority.is_history (part priority_part h) × Nodes.is_history (part nodes_part h) ×
        Limit.is_history (part limit_part h) × Account.is_history (part account_part h) };

    ghost stands_for = { λ x h.
        Owner.stands_for x.owner (part owner_part h) × Name.stands_for x.name (part name_part h) ×
        Priority.stands_for x.priority (part priority_part h) ×
        Nodes.stands_for x.nodes (part nodes_part h) × Limit.stands_for x.limit (part limit_part h) ×
        Account.stands_for x.account (part account_part h) };

    ghost is_inline = { Owner.is_inline × Name.is_inline × Priority.is_inline × Nodes.is_inline × Limit.is_inline ×
        Account.is_inline };

    fn bottom(alloc: Global) -> Self {
        Fields {
            owner: Owner::bottom(alloc),
            name: Name::bottom(alloc),
            priority: Priority::bottom(alloc),
            nodes: Nodes::bottom(alloc),
            limit: Limit::bottom(alloc),
            account: Account::bottom(alloc),
        }
    }

    fn copy(&self) -> Result<Self, NoMemory> {
        Ok(Fields {
            owner: copy_inline(&self.owner),
            name: copy_inline(&self.name),
            priority: copy_inline(&self.priority),
            nodes: copy_inline(&self.nodes),
            limit: copy_inline(&self.limit),
            account: copy_inline(&self.account),
        })
    }

    fn apply(
        &mut self,
        at: Stamp,
        change: &Fields<
            Option<Owner::Change>,
            Option<Name::Change>,
            Option<Priority::Change>,
            Option<Nodes::Change>,
            Option<Limit::Change>,
            Option<Account::Change>,
        >,
    ) -> Result<(), NoMemory> {
        apply_option(&mut self.owner, at, &change.owner);
        apply_option(&mut self.name, at, &change.name);
        apply_option(&mut self.priority, at, &change.priority);
        apply_option(&mut self.nodes, at, &change.nodes);
        apply_option(&mut self.limit, at, &change.limit);
        apply_option(&mut self.account, at, &change.account);
        Ok(())
    }

    fn join(&self, mine: &Version, other: &Self, theirs: &Version) -> Result<Self, NoMemory> {
        Ok(Fields {
            owner: join_inline(&self.owner, mine, &other.owner, theirs),
            name: join_inline(&self.name, mine, &other.name, theirs),
            priority: join_inline(&self.priority, mine, &other.priority, theirs),
            nodes: join_inline(&self.nodes, mine, &other.nodes, theirs),
            limit: join_inline(&self.limit, mine, &other.limit, theirs),
            account: join_inline(&self.account, mine, &other.account, theirs),
        })
    }

    ghost well_formed_bottom = { (
      Owner.well_formed_bottom,
      Name.well_formed_bottom,
      Priority.well_formed_bottom,
      Nodes.well_formed_bottom,
      Limit.well_formed_bottom,
      Account.well_formed_bottom,
    ) };

    ghost well_formed_applied = { λ x s c p. (
      applied_well_formed _ _ Owner.well_formed_applied x.owner s c.owner p.0,
      applied_well_formed _ _ Name.well_formed_applied x.name s c.name p.1,
      applied_well_formed _ _ Priority.well_formed_applied x.priority s c.priority p.2,
      applied_well_formed _ _ Nodes.well_formed_applied x.nodes s c.nodes p.3,
      applied_well_formed _ _ Limit.well_formed_applied x.limit s c.limit p.4,
      applied_well_formed _ _ Account.well_formed_applied x.account s c.account p.5,
    ) };

    ghost well_formed_joined = { λ x y v w p q. (
      Owner.well_formed_joined x.owner y.owner v w p.0 q.0,
      Name.well_formed_joined x.name y.name v w p.1 q.1,
      Priority.well_formed_joined x.priority y.priority v w p.2 q.2,
      Nodes.well_formed_joined x.nodes y.nodes v w p.3 q.3,
      Limit.well_formed_joined x.limit y.limit v w p.4 q.4,
      Account.well_formed_joined x.account y.account v w p.5 q.5,
    ) };

    ghost joined_assoc = { λ x y z u v w p q r i. record {
      owner = Owner.joined_assoc x.owner y.owner z.owner u v w p.0 q.0 r.0 i;
      name = Name.joined_assoc x.name y.name z.name u v w p.1 q.1 r.1 i;
      priority = Priority.joined_assoc x.priority y.priority z.priority u v w p.2 q.2 r.2 i;
      nodes = Nodes.joined_assoc x.nodes y.nodes z.nodes u v w p.3 q.3 r.3 i;
      limit = Limit.joined_assoc x.limit y.limit z.limit u v w p.4 q.4 r.4 i;
      account = Account.joined_assoc x.account y.account z.account u v w p.5 q.5 r.5 i;
    } };

    ghost joined_comm = { λ x y v w p q i. record {
      owner = Owner.joined_comm x.owner y.owner v w p.0 q.0 i;
      name = Name.joined_comm x.name y.name v w p.1 q.1 i;
      priority = Priority.joined_comm x.priority y.priority v w p.2 q.2 i;
      nodes = Nodes.joined_comm x.nodes y.nodes v w p.3 q.3 i;
      limit = Limit.joined_comm x.limit y.limit v w p.4 q.4 i;
      account = Account.joined_comm x.account y.account v w p.5 q.5 i;
    } };

    ghost joined_itself = { λ x v p i. record {
      owner = Owner.joined_itself x.owner v p.0 i;
      name = Name.joined_itself x.name v p.1 i;
      priority = Priority.joined_itself x.priority v p.2 i;
      nodes = Nodes.joined_itself x.nodes v p.3 i;
      limit = Limit.joined_itself x.limit v p.4 i;
      account = Account.joined_itself x.account v p.5 i;
    } };

    ghost joined_bottoms = { λ v w i. record {
      owner = Owner.joined_bottoms v w i;
      name = Name.joined_bottoms v w i;
      priority = Priority.joined_bottoms v w i;
      nodes = Nodes.joined_bottoms v w i;
      limit = Limit.joined_bottoms v w i;
      account = Account.joined_bottoms v w i;
    } };

    ghost bottom_stands = { (
      Owner.bottom_stands,
      Name.bottom_stands,
      Priority.bottom_stands,
      Nodes.bottom_stands,
      Limit.bottom_stands,
      Account.bottom_stands,
    ) };

    ghost applied_stands = { λ x h s c p r k f i. (
      part_adds_change owner_part _ _ _ _ Owner.applied_stands x.owner h s c p.0 r.0 k.0 f i.0,
      part_adds_change name_part _ _ _ _ Name.applied_stands x.name h s c p.1 r.1 k.1 f i.1,
      part_adds_change priority_part _ _ _ _ Priority.applied_stands x.priority h s c p.2 r.2 k.2 f i.2,
      part_adds_change nodes_part _ _ _ _ Nodes.applied_stands x.nodes h s c p.3 r.3 k.3 f i.3,
      part_adds_change limit_part _ _ _ _ Limit.applied_stands x.limit h s c p.4 r.4 k.4 f i.4,
      part_adds_change account_part _ _ _ _ Account.applied_stands x.account h s c p.5 r.5 k.5 f i.5,
    ) };

    ghost joined_stands = { λ x y v w g h p q rx ry a i j. (
      part_joins_histories owner_part _ _ _ _ Owner.joined_stands x.owner y.owner v w g h
          p.0 q.0 rx.0 ry.0 a i.0 j.0,
      part_joins_histories name_part _ _ _ _ Name.joined_stands x.name y.name v w g h p.1 q.1 rx.1 ry.1 a i.1 j.1,
      part_joins_histories priority_part _ _ _ _ Priority.joined_stands x.priority y.priority v w g h
          p.2 q.2 rx.2 ry.2 a i.2 j.2,
      part_joins_histories nodes_part _ _ _ _ Nodes.joined_stands x.nodes y.nodes v w g h
          p.3 q.3 rx.3 ry.3 a i.3 j.3,
      part_joins_histories limit_part _ _ _ _ Limit.joined_stands x.limit y.limit v w g h
          p.4 q.4 rx.4 ry.4 a i.4 j.4,
      part_joins_histories account_part _ _ _ _ Account.joined_stands x.account y.account v w g h
          p.5 q.5 rx.5 ry.5 a i.5 j.5,
    ) };

    ghost stands_same = { λ x g h e p. (
      part_stands_for_sets owner_part _ Owner.stands_same x.owner g h e p.0,
      part_stands_for_sets name_part _ Name.stands_same x.name g h e p.1,
      part_stands_for_sets priority_part _ Priority.stands_same x.priority g h e p.2,
      part_stands_for_sets nodes_part _ Nodes.stands_same x.nodes g h e p.3,
      part_stands_for_sets limit_part _ Limit.stands_same x.limit g h e p.4,
      part_stands_for_sets account_part _ Account.stands_same x.account g h e p.5,
    ) };
}

/// Its copies, changes and joins are never refused memory.
impl<
    Owner: Inline + Drop,
    Name: Inline + Drop,
    Priority: Inline + Drop,
    Nodes: Inline + Drop,
    Limit: Inline + Drop,
    Account: Inline + Drop,
> Inline for Fields<Owner, Name, Priority, Nodes, Limit, Account> {
    ghost never_refused = { (
      Owner.never_refused,
      Name.never_refused,
      Priority.never_refused,
      Nodes.never_refused,
      Limit.never_refused,
      Account.never_refused,
    ) };
}
