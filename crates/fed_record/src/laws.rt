//! What records of jobs and of reservations read as.
ghost use Rattle.std.specs.Prelude.{◌≡◌, ℕ, List};
ghost use Rattle.fed_stamp.specs.Stamp.{StampValue};
ghost use Rattle.fed_lattice.specs.History.{History, OneEach};
ghost use Rattle.fed_record.specs.Operation.{body_of, bodies};
ghost use Rattle.fed_model.specs.JobView.{job_view};
ghost use Rattle.fed_model.specs.Reservation.{ReservationView, reservation_view};
ghost use Rattle.fed_record.specs.JobRecord.{JobRecordValue, job_reads};
ghost use Rattle.fed_theory.specs.JobSteps.{add_to_job, join_jobs};
ghost use Rattle.fed_record.specs.declared.operations.Operation.{Operation};

use crate::records::JobRecord;
use crate::reservations::Reservation;
use fed_lattice::Causal;

/// A record with one operation more reads as its view with the operation added.
pub fn applied_records_read()
    ensures { (r : JobRecordValue) (s : StampValue) (c : Operation) →
        job_reads (⟦<JobRecord as Causal>⟧.applied r s c) ≡ add_to_job s (body_of c) (job_reads r) }
{}

/// Records that are joined read as their views joined.
pub fn joined_records_read()
    ensures { (r q : JobRecordValue) (v w : List ℕ) →
        job_reads (⟦<JobRecord as Causal>⟧.joined r v q w) ≡ join_jobs v (job_reads r) w (job_reads q) }
{}

/// A record that stands for the operations of a job, of which different ones have different stamps, reads as their
/// view.
pub fn standing_records_read()
    ensures { (r : JobRecordValue) (h : History Operation) → OneEach h → ⟦<JobRecord as Causal>⟧.stands_for r h →
        job_reads r ≡ job_view (bodies h) }
{}

/// A reservation that stands for a history of operations, of which different ones have different stamps, is their
/// view: the greatest stamp among those that reserve or cancel, with the window of that operation, or with no window
/// where it cancels. Where none of them reserves or cancels, the reservation is not made.
pub fn standing_reservations_read()
    ensures { (r : ReservationView) (h : History Operation) → OneEach h → ⟦<Reservation as Causal>⟧.stands_for r h →
        r ≡ reservation_view (bodies h) }
{}
