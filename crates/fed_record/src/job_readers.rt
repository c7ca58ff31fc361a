//! What is read of the record of a job.
ghost use Rattle.std.specs.Prelude.{◌≡◌, ◌↔◌, ℕ, Some, None, IsTrue};
ghost use Rattle.std.specs.List.Sorted.{IsStrictlySortedBy};
ghost use Rattle.std.specs.Ordering.{nat_cmp};
ghost use Rattle.fed_lattice.specs.Sets.{Has};
ghost use Rattle.fed_model.specs.declared.holds.HoldKind.{HoldKind};
ghost use Rattle.fed_tags.specs.Tags.{pair_cmp};
ghost use Rattle.fed_model.specs.Hold.{kind_cmp, has_kind, sum_of_bits};
ghost use Rattle.fed_record.specs.Record.{AreCovered};
ghost use Rattle.fed_record.specs.JobRecord.{job_reads};
ghost use Rattle.fed_model.specs.Letter.{is_submitted as is_job_submitted, is_held as is_job_held, has_hold as is_hold_present, has_site as is_site_present, holder as holder_of, is_granted_to as is_job_granted_to, is_gone as is_job_gone, letter as letter_of};

use crate::records::JobRecord;
use fed_model::{
    Account, Beginning, Ending, GrantStage, HoldKind, HoldKinds, Letter, Limit, Nodes, Priority,
};
use fed_stamp::{SiteId, Stamp, Version, Word};
use fed_tags::{Elements, Pairs};

/// How far a job has come: its Begin and its Finish, each with its stamp.
#[derive(Clone, Copy, PartialEq, Eq, Debug)]
pub struct Progress {
    /// The Begin, or none where the job has not begun.
    pub begun: Option<(Stamp, Beginning)>,
    /// The Finish, or none where the job has not finished.
    pub finished: Option<(Stamp, Ending)>,
}

/// The readers of the fields ask that the job is submitted, which holds of every record on a board.
impl JobRecord {
    /// Whether the job is submitted: a submission sets all fields.
    pub fn is_submitted(&self) -> bool
        ensures { result ≡ is_job_submitted (job_reads self.now) }
    {
        let fields = &self.fields;
        fields.owner.get().is_some()
            && fields.name.get().is_some()
            && fields.priority.get().is_some()
            && fields.nodes.get().is_some()
            && fields.limit.get().is_some()
            && fields.account.get().is_some()
    }

    /// The owner, with the stamp of the submission.
    pub fn owner(&self) -> (Stamp, Word)
        requires { IsTrue (is_job_submitted (job_reads self.now)) }
        ensures { (job_reads self.now).fields.owner ≡ Some result }
    {
        self.fields.owner.get().unwrap()
    }

    /// The name, with the stamp of the operation that set it.
    pub fn name(&self) -> (Stamp, Word)
        requires { IsTrue (is_job_submitted (job_reads self.now)) }
        ensures { (job_reads self.now).fields.name ≡ Some result }
    {
        self.fields.name.get().unwrap()
    }

    /// The priority, with the stamp of the operation that set it.
    pub fn priority(&self) -> (Stamp, Priority)
        requires { IsTrue (is_job_submitted (job_reads self.now)) }
        ensures { (job_reads self.now).fields.priority ≡ Some result }
    {
        self.fields.priority.get().unwrap()
    }

    /// The number of nodes, with the stamp of the operation that set it.
    pub fn nodes(&self) -> (Stamp, Nodes)
        requires { IsTrue (is_job_submitted (job_reads self.now)) }
        ensures { (job_reads self.now).fields.nodes ≡ Some result }
    {
        self.fields.nodes.get().unwrap()
    }

    /// The time limit in seconds, with the stamp of the operation that set it.
    pub fn limit(&self) -> (Stamp, Limit)
        requires { IsTrue (is_job_submitted (job_reads self.now)) }
        ensures { (job_reads self.now).fields.limit ≡ Some result }
    {
        self.fields.limit.get().unwrap()
    }

    /// The account, with the stamp of the operation that set it.
    pub fn account(&self) -> (Stamp, Account)
        requires { IsTrue (is_job_submitted (job_reads self.now)) }
        ensures { (job_reads self.now).fields.account ≡ Some result }
    {
        self.fields.account.get().unwrap()
    }

    /// Whether a hold of this kind is present: whether it has a live pair.
    pub fn has_hold(&self, kind: HoldKind) -> bool
        ensures { result ≡ is_hold_present (job_reads self.now) kind }
    {
        self.holds.has(&kind)
    }

    /// Whether the site is among those that the job may run at.
    pub fn has_site(&self, site: SiteId) -> bool
        ensures { result ≡ is_site_present (job_reads self.now) site }
    {
        self.sites.has(&site)
    }

    /// The kinds of holds that are present: the sum of their bits, and no other bit.
    pub fn holds(&self) -> HoldKinds
        ensures kinds { (kind : HoldKind) → has_kind result kind ≡ is_hold_present (job_reads self.now) kind }
        ensures sum { let has = is_hold_present (job_reads self.now) in
            result ≡ record { 0 = sum_of_bits (has HoldKind.User) (has HoldKind.Operator) (has HoldKind.System) } }
    {
        HoldKinds::made_of(
            self.has_hold(HoldKind::User),
            self.has_hold(HoldKind::Operator),
            self.has_hold(HoldKind::System),
        )
    }

    /// The sites that the job may run at, ascending.
    pub fn sites(&self) -> Elements<'_, SiteId>
        ensures ascending { IsStrictlySortedBy nat_cmp result }
        ensures members { (site : ℕ) → Has result site ↔ IsTrue (is_site_present (job_reads self.now) site) }
    {
        self.sites.elements()
    }

    /// Whether some hold is present.
    pub fn is_held(&self) -> bool
        ensures { result ≡ is_job_held (job_reads self.now) }
    {
        !self.holds.is_empty()
    }

    /// The live pairs of holds, by kind and then by stamp, as `from_parts` takes them.
    pub fn hold_tags(&self) -> Pairs<'_, HoldKind>
        ensures pairs { result ≡ self.now.holds }
        ensures ascending { IsStrictlySortedBy (pair_cmp kind_cmp) result }
        ensures covered { AreCovered (job_reads self.now).touched result }
    {
        self.holds.iter()
    }

    /// The live pairs of sites, by site and then by stamp, as `from_parts` takes them.
    pub fn site_tags(&self) -> Pairs<'_, SiteId>
        ensures pairs { result ≡ self.now.sites }
        ensures ascending { IsStrictlySortedBy (pair_cmp nat_cmp) result }
        ensures covered { AreCovered (job_reads self.now).touched result }
    {
        self.sites.iter()
    }

    /// Whether the job is deleted.
    pub fn deleted(&self) -> bool
        ensures { result ≡ (job_reads self.now).stages.deleted }
    {
        self.stages.deleted.get()
    }

    /// The greatest stage of the job's grants, or none where it was never granted.
    pub fn grant(&self) -> Option<GrantStage>
        ensures { result ≡ (job_reads self.now).stages.grant }
    {
        self.stages.grant.get()
    }

    /// The site that the job is granted to, or none where it was never granted or its last grant is handed back.
    pub fn holder(&self) -> Option<SiteId>
        ensures { result ≡ holder_of (job_reads self.now) }
    {
        match self.grant() {
            Some(stage) => stage.holder(),
            None => None,
        }
    }

    /// Whether the job is granted to the site.
    pub fn is_granted_to(&self, site: SiteId) -> bool
        ensures { result ≡ is_job_granted_to (job_reads self.now) site }
    {
        self.holder() == Some(site)
    }

    /// The Begin and the Finish, each with its stamp.
    pub fn progress(&self) -> Progress
        ensures begun { result.begun ≡ (job_reads self.now).stages.begun }
        ensures finished { result.finished ≡ (job_reads self.now).stages.finished }
    {
        Progress {
            begun: self.stages.begun.get(),
            finished: self.stages.finished.get(),
        }
    }

    /// For each site the greatest counter among the stamps of the job's operations.
    pub fn touched(&self) -> Version
        ensures { result ≡ (job_reads self.now).touched }
    {
        self.touched
    }

    /// Whether the job is gone: it is finished, or was deleted before it began. Then it has no letter.
    pub fn is_gone(&self) -> bool
        ensures gone { result ≡ is_job_gone (job_reads self.now) }
        ensures letter { IsTrue result ↔ (letter_of (job_reads self.now) ≡ None) }
    {
        let progress = self.progress();
        progress.finished.is_some() || (self.deleted() && progress.begun.is_none())
    }

    /// The letter of the job, or none where it is gone.
    pub fn letter(&self) -> Option<Letter>
        ensures { result ≡ letter_of (job_reads self.now) }
    {
        if self.is_gone() {
            return None;
        }
        if self.progress().begun.is_some() {
            return Some(if self.deleted() {
                Letter::Exiting
            } else {
                Letter::Running
            });
        }
        if self.is_held() {
            return Some(Letter::Held);
        }
        match self.holder() {
            Some(_) => Some(Letter::Granted),
            None => Some(Letter::Queued),
        }
    }
}
