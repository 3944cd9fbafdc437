// A run on its way: the script's jobs, what each core does, and how far time has come.
ghost use Rattle.std.specs.Prelude.{◌≤◌, vec_len, vec_capacity};
ghost use Rattle.runs.specs.Pool.{RowsBelow, RowsBelow_prop};
ghost use Rattle.runs.specs.Shown.{AllInside, AllInside_prop};

use crate::ready::Ready;
use crate::rows::Job;
use crate::stage::Stage;
use roster::Roster;

mod act;
mod begin;
mod drive;
mod finish;
mod grant;
mod moment;
mod release;

// A script that may be run has no more rows.
pub const MOST_JOBS: usize = 1024;

// Its memory is reserved once, so that a run asks for none. The log is lent for one run, and this record outlives it,
// so each method that writes the log asks that it has a row for each job, and each that reads it one for each job on a core.
#[derive(Drop)]
pub struct Progress {
    // the script's rows, looked up
    jobs: Vec<Job>,
    // what each core does
    stages: Vec<Stage>,
    // the jobs that are released and not started
    ready: Roster<Ready>,
    // the moment, and how many rows of the script are released by then
    time: u64,
    released: usize,
    // how many cores there are is a byte
    ghost cores: { vec_len stages ≤ 255 },
    ghost within: { released ≤ vec_len jobs },
    // each core's job and each ready job is one of the script's
    ghost inside: { AllInside (vec_len jobs) stages.items } by { AllInside_prop (vec_len jobs) stages.items },
    ghost below: { RowsBelow (vec_len jobs) ready.items.items } by { RowsBelow_prop (vec_len jobs) ready.items.items },
    // no more are ready than are released
    ghost kept: { vec_len ready.items ≤ released },
    // every job may be ready at once; how many jobs there may be is asked by the two steps that need it, and by the call that adds one
    ghost roomy: { vec_len jobs ≤ vec_capacity ready.items },
    // room for every job of every script that may be run, and for every core of a platform
    ghost job_room: { 1024 ≤ vec_capacity jobs },
    ghost core_room: { 16 ≤ vec_capacity stages },
    ghost ready_room: { 1024 ≤ vec_capacity ready.items },
}
