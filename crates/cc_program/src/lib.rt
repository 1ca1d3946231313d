//! How a call of the program begins and ends, in the words of its contract.
//!
//! The crate has no code: it has the definitions that the contract of the top call (`cache_main` of `cc_run`) cites and that the laws on
//! such calls cite too (`cc_run_laws`), below both. `specs/Ends` has what goes into the program and comes out of it, and how it ends,
//! `Main` all of that as one record, `Complete` which statuses are sure to come; `Setups` the setup of the definitions, `Restarting` and
//! `Begun` with what a run begins behind its restarts, `Runs` what explains its answers, `Disks` and `Logs` what it gives back, and
//! `Calls` these of one call.
#![tactic(auto)]
