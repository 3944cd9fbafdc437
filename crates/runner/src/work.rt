// The memory that runs work in. It is reserved once, so that a run asks for none.
use runs::progress::Progress;

mod running;

#[derive(Drop)]
pub struct RunWork {
    progress: Progress,
}

#[cfg(test)]
mod tests {
    use super::RunWork;
    use std::test::Fail;

    #[test]
    fn memory_for_runs_is_had(rt: HostRuntime) -> Result<(), Fail> {
        let _work = RunWork::new(rt.alloc())?;
        Ok(())
    }
}
