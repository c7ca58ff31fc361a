//! The jobs of a packet, read from a JSON value.
ghost use Rattle.std.specs.Prelude.{◌≡◌, [], map};
ghost use Rattle.serde_json.specs.View.{view};
ghost use Rattle.fed_job_json.specs.Job.{job_of};
ghost use Rattle.fed_wire.specs.declared.faults.Part.TheVariants.{Jobs};
ghost use Rattle.fed_wire.specs.Faults.{Gives};
ghost use Rattle.fed_wire.specs.Packet.{job_stands};
ghost use Rattle.fed_wire.specs.Reading.{each_in, array_in};

use crate::faults::{Part, Place, WireFault};
use crate::identifiers::Identifiers;
use fed_board::MAX_JOBS;
use fed_job_json::Format;
use fed_json::{Flaw, elements};
use fed_lattice::{Causal, Table};
use fed_parts_json::read_job;
use fed_record::JobRecord;
use fed_stamp::{JobId, Version};
use serde_json::Value;
use std::alloc::Global;

fn all_jobs(
    alloc: Global,
    values: &[Value],
    format: Format,
    reached: &Version,
) -> Result<Table<JobId, JobRecord>, WireFault>
    ensures { Gives (each_in Jobs (job_of format) (job_stands reached.now) [] (map view values.now)) result }
{
    let mut ids = Identifiers::new();
    let mut jobs = Table::bottom(alloc);
    for (index, value) in values.iter().enumerate() {
        let place = Place {
            part: Part::Jobs,
            index,
        };
        match read_job(alloc, value, format)? {
            Ok(job) => {
                let (id, record) = job;
                if !ids.admit(MAX_JOBS, id) || !record.touched().le(reached) {
                    return Err(WireFault::Range { place });
                }
                jobs.insert(id, record)?;
            }
            Err(Flaw::Shape) => return Err(WireFault::Shape { place }),
            Err(Flaw::Range) => return Err(WireFault::Range { place }),
        }
    }
    Ok(jobs)
}

/// The jobs of a packet that reaches the version.
pub(crate) fn read_jobs(
    alloc: Global,
    value: &Value,
    format: Format,
    reached: &Version,
) -> Result<Table<JobId, JobRecord>, WireFault>
    ensures { Gives (array_in Jobs (job_of format) (job_stands reached.now) (view value.now)) result }
{
    match elements(value) {
        Ok(values) => all_jobs(alloc, values, format, reached),
        Err(_) => Err(WireFault::Shape {
            place: Place {
                part: Part::Jobs,
                index: 0,
            },
        }),
    }
}
