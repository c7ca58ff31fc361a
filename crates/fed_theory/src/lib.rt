//! Laws of what `fed_model` defines: of the operations of one job, of sets of operations, of answers and of whole runs.
//! They are proved over the definitions alone; no text, record, board or replica is below them. Each function does
//! nothing: its contract is the law.
#![tactic(auto)]

pub mod answer_laws;
pub mod job_laws;
pub mod run_laws;
pub mod set_laws;
