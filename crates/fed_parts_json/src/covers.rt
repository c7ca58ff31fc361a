//! Whether the version of a job's operations covers the job's identifier and the tags of its pairs.
ghost use Rattle.std.specs.Prelude.{◌≡◌};
ghost use Rattle.fed_job_json.specs.Covers.{covers_pairs, covers_tags};
ghost use Rattle.fed_job_json.specs.Parts.{job_from};

use fed_job_json::ReadJob;
use fed_record::HoldKind;
use fed_stamp::{SiteId, Stamp, Version};

fn covers_holds(touched: &Version, holds: &[(HoldKind, Stamp)]) -> bool
    ensures { result ≡ covers_pairs touched.now holds.now }
{
    holds.iter().all(|hold| touched.covers(hold.1))
}

fn covers_sites(touched: &Version, sites: &[(SiteId, Stamp)]) -> bool
    ensures { result ≡ covers_pairs touched.now sites.now }
{
    sites.iter().all(|site| touched.covers(site.1))
}

/// Whether its identifier and each tag is covered.
pub(crate) fn has_covered_tags(job: &ReadJob) -> bool
    ensures { result ≡ covers_tags (job_from job.now) }
{
    let touched = &job.touched;
    touched.covers(job.id)
        && (covers_holds(touched, &job.holds) && covers_sites(touched, &job.sites))
}
