//! Runs job scripts as the program does.

/// Runs a job script: reads it, boxes a body for each job, runs them, and adds what is written to these bytes. Gives the exit
/// status. A function may not box a body and hand it on, so this stands in each test that runs jobs.
macro_rules! run_jobs {
    ($rt:ident, $script:expr, $written:expr, $capacity:expr, $workers:expr) => {{
        let alloc = $rt.alloc();
        let mut input = Device::new($script);
        let mut output = Device::new($written);
        let mut errors = Vec::new(alloc);
        let request = JobsRequest {
            capacity: Some($capacity),
            workers: Some($workers),
            turns: None,
        };
        let ended = match begin_jobs(alloc, request, &mut input) {
            Ok(begun) => {
                let limits = begun.limits;
                let mut plan = Plan::new(alloc, begun.theirs, begun.session, Some(limits.turns));
                let room = plan.reserve(begun.names.len());
                let mut added = room.map_err(|_| JobsStop::NoMemory);
                'jobs: for (t, acts) in begun.jobs {
                    if added.is_ok() {
                        let operations = acts.len();
                        added = match Box::new(alloc, move |tx: Tx| do_acts(&$rt, tx, acts.as_slice())) {
                            Ok(body) => add_job(&$rt, &mut plan, t, operations, body),
                            Err(_) => Err(JobsStop::NoMemory),
                        };
                    }
                }
                match added {
                    Ok(()) => finish_jobs(&$rt, begun.manager, plan, &begun.names, limits, &mut output),
                    Err(stop) => Err(stop),
                }
            }
            Err(stop) => Err(stop),
        };
        end_jobs(alloc, ended, &mut output, &mut errors)
    }};
}

pub(crate) use run_jobs;
