//! The stages of jobs.
ghost use Rattle.std.specs.Prelude.{◌≡◌};
ghost use Rattle.fed_lattice.specs.Part.{part};
ghost use Rattle.fed_lattice.specs.Both.{applied_option};
ghost use Rattle.fed_model.specs.Stages.{deleted_part, grant_part, begun_part, finished_part};
ghost use Rattle.fed_model.specs.NamedPartLaws.{applied_well_formed, part_adds_change, part_joins_histories, part_stands_for_sets};
ghost use Rattle.fed_model.specs.StagesLaws.{tells_stages};

use crate::inlines::{Inline, apply_option, copy_inline, join_inline};
use fed_lattice::{Causal, ExactEq, NoMemory};
use fed_stamp::{Stamp, Version};
use std::alloc::Global;

/// Something of each stage of a job, side by side: how far it has come, or what changes in that. Stages of values that
/// change and join do so part by part, by the laws of each.
#[derive(Clone, Copy, Drop, PartialEq, Eq, Debug)]
pub struct Stages<Deleted, Grant, Begun, Finished> {
    /// Whether it is deleted.
    pub deleted: Deleted,
    /// How far its grants have come.
    pub grant: Grant,
    /// Whether it has begun.
    pub begun: Begun,
    /// Whether it has finished.
    pub finished: Finished,
}

/// Two are identical exactly where their parts are equal.
impl<Deleted: ExactEq, Grant: ExactEq, Begun: ExactEq, Finished: ExactEq> ExactEq
    for Stages<Deleted, Grant, Begun, Finished> {
    ghost exact_eq = { tells_stages Deleted.eq Grant.eq Begun.eq Finished.eq
        Deleted.exact_eq Grant.exact_eq Begun.exact_eq Finished.exact_eq };
}

/// Each part changes and joins by itself. A change is of the parts that it names; the others stay.
impl<
    Deleted: Inline + Drop,
    Grant: Inline + Drop,
    Begun: Inline + Drop,
    Finished: Inline + Drop,
> Causal for Stages<Deleted, Grant, Begun, Finished> {
    type Change = Stages<
        Option<Deleted::Change>,
        Option<Grant::Change>,
        Option<Begun::Change>,
        Option<Finished::Change>,
    >;

    ghost well_formed = { λ x.
        Deleted.well_formed x.deleted × Grant.well_formed x.grant × Begun.well_formed x.begun ×
        Finished.well_formed x.finished };

    ghost bottom = { record {
      deleted = Deleted.bottom;
      grant = Grant.bottom;
      begun = Begun.bottom;
      finished = Finished.bottom;
    } };

    ghost applied = { λ x s c. record {
      deleted = applied_option Deleted.applied x.deleted s c.deleted;
      grant = applied_option Grant.applied x.grant s c.grant;
      begun = applied_option Begun.applied x.begun s c.begun;
      finished = applied_option Finished.applied x.finished s c.finished;
    } };

    ghost joined = { λ x v y w. record {
      deleted = Deleted.joined x.deleted v y.deleted w;
      grant = Grant.joined x.grant v y.grant w;
      begun = Begun.joined x.begun v y.begun w;
      finished = Finished.joined x.finished v y.finished w;
    } };

    ghost is_history = { λ h.
        Deleted.is_history (part deleted_part h) × Grant.is_history (part grant_part h) ×
        Begun.is_history (part begun_part h) × Finished.is_history (part finished_part h) };

    ghost stands_for = { λ x h.
        Deleted.stands_for x.deleted (part deleted_part h) × Grant.stands_for x.grant (part grant_part h) ×
        Begun.stands_for x.begun (part begun_part h) × Finished.stands_for x.finished (part finished_part h) };

    ghost is_inline = { Deleted.is_inline × Grant.is_inline × Begun.is_inline × Finished.is_inline };

    fn bottom(alloc: Global) -> Self {
        Stages {
            deleted: Deleted::bottom(alloc),
            grant: Grant::bottom(alloc),
            begun: Begun::bottom(alloc),
            finished: Finished::bottom(alloc),
        }
    }

    fn copy(&self) -> Result<Self, NoMemory> {
        Ok(Stages {
            deleted: copy_inline(&self.deleted),
            grant: copy_inline(&self.grant),
            begun: copy_inline(&self.begun),
            finished: copy_inline(&self.finished),
        })
    }

    fn apply(
        &mut self,
        at: Stamp,
        change: &Stages<
            Option<Deleted::Change>,
            Option<Grant::Change>,
            Option<Begun::Change>,
            Option<Finished::Change>,
        >,
    ) -> Result<(), NoMemory> {
        apply_option(&mut self.deleted, at, &change.deleted);
        apply_option(&mut self.grant, at, &change.grant);
        apply_option(&mut self.begun, at, &change.begun);
        apply_option(&mut self.finished, at, &change.finished);
        Ok(())
    }

    fn join(&self, mine: &Version, other: &Self, theirs: &Version) -> Result<Self, NoMemory> {
        Ok(Stages {
            deleted: join_inline(&self.deleted, mine, &other.deleted, theirs),
            grant: join_inline(&self.grant, mine, &other.grant, theirs),
            begun: join_inline(&self.begun, mine, &other.begun, theirs),
            finished: join_inline(&self.finished, mine, &other.finished, theirs),
        })
    }

    ghost well_formed_bottom = { (
      Deleted.well_formed_bottom,
      Grant.well_formed_bottom,
      Begun.well_formed_bottom,
      Finished.well_formed_bottom,
    ) };

    ghost well_formed_applied = { λ x s c p. (
      applied_well_formed _ _ Deleted.well_formed_applied x.deleted s c.deleted p.0,
      applied_well_formed _ _ Grant.well_formed_applied x.grant s c.grant p.1,
      applied_well_formed _ _ Begun.well_formed_applied x.begun s c.begun p.2,
      applied_well_formed _ _ Finished.well_formed_applied x.finished s c.finished p.3,
    ) };

    ghost well_formed_joined = { λ x y v w p q. (
      Deleted.well_formed_joined x.deleted y.deleted v w p.0 q.0,
      Grant.well_formed_joined x.grant y.grant v w p.1 q.1,
      Begun.well_formed_joined x.begun y.begun v w p.2 q.2,
      Finished.well_formed_joined x.finished y.finished v w p.3 q.3,
    ) };

    ghost joined_assoc = { λ x y z u v w p q r i. record {
      deleted = Deleted.joined_assoc x.deleted y.deleted z.deleted u v w p.0 q.0 r.0 i;
      grant = Grant.joined_assoc x.grant y.grant z.grant u v w p.1 q.1 r.1 i;
      begun = Begun.joined_assoc x.begun y.begun z.begun u v w p.2 q.2 r.2 i;
      finished = Finished.joined_assoc x.finished y.finished z.finished u v w p.3 q.3 r.3 i;
    } };

    ghost joined_comm = { λ x y v w p q i. record {
      deleted = Deleted.joined_comm x.deleted y.deleted v w p.0 q.0 i;
      grant = Grant.joined_comm x.grant y.grant v w p.1 q.1 i;
      begun = Begun.joined_comm x.begun y.begun v w p.2 q.2 i;
      finished = Finished.joined_comm x.finished y.finished v w p.3 q.3 i;
    } };

    ghost joined_itself = { λ x v p i. record {
      deleted = Deleted.joined_itself x.deleted v p.0 i;
      grant = Grant.joined_itself x.grant v p.1 i;
      begun = Begun.joined_itself x.begun v p.2 i;
      finished = Finished.joined_itself x.finished v p.3 i;
    } };

    ghost joined_bottoms = { λ v w i. record {
      deleted = Deleted.joined_bottoms v w i;
      grant = Grant.joined_bottoms v w i;
      begun = Begun.joined_bottoms v w i;
      finished = Finished.joined_bottoms v w i;
    } };

    ghost bottom_stands = { (
      Deleted.bottom_stands,
      Grant.bottom_stands,
      Begun.bottom_stands,
      Finished.bottom_stands,
    ) };

    ghost applied_stands = { λ x h s c p r k f i. (
      part_adds_change deleted_part _ _ _ _ Deleted.applied_stands x.deleted h s c p.0 r.0 k.0 f i.0,
      part_adds_change grant_part _ _ _ _ Grant.applied_stands x.grant h s c p.1 r.1 k.1 f i.1,
      part_adds_change begun_part _ _ _ _ Begun.applied_stands x.begun h s c p.2 r.2 k.2 f i.2,
      part_adds_change finished_part _ _ _ _ Finished.applied_stands x.finished h s c p.3 r.3 k.3 f i.3,
    ) };

    ghost joined_stands = { λ x y v w g h p q rx ry a i j. (
      part_joins_histories deleted_part _ _ _ _ Deleted.joined_stands x.deleted y.deleted v w g h
          p.0 q.0 rx.0 ry.0 a i.0 j.0,
      part_joins_histories grant_part _ _ _ _ Grant.joined_stands x.grant y.grant v w g h
          p.1 q.1 rx.1 ry.1 a i.1 j.1,
      part_joins_histories begun_part _ _ _ _ Begun.joined_stands x.begun y.begun v w g h
          p.2 q.2 rx.2 ry.2 a i.2 j.2,
      part_joins_histories finished_part _ _ _ _ Finished.joined_stands x.finished y.finished v w g h
          p.3 q.3 rx.3 ry.3 a i.3 j.3,
    ) };

    ghost stands_same = { λ x g h e p. (
      part_stands_for_sets deleted_part _ Deleted.stands_same x.deleted g h e p.0,
      part_stands_for_sets grant_part _ Grant.stands_same x.grant g h e p.1,
      part_stands_for_sets begun_part _ Begun.stands_same x.begun g h e p.2,
      part_stands_for_sets finished_part _ Finished.stands_same x.finished g h e p.3,
    ) };
}

/// Its copies, changes and joins are never refused memory.
impl<
    Deleted: Inline + Drop,
    Grant: Inline + Drop,
    Begun: Inline + Drop,
    Finished: Inline + Drop,
> Inline for Stages<Deleted, Grant, Begun, Finished> {
    ghost never_refused = { (
      Deleted.never_refused,
      Grant.never_refused,
      Begun.never_refused,
      Finished.never_refused,
    ) };
}
