// The run of the modulator that a job asks for, with the files that the job names.
#![tactic(auto)]

mod files;
mod run;

pub use run::run_job;
