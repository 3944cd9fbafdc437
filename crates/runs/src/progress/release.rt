// Step 2 of a moment: jobs become ready.
use crate::progress::Progress;
use crate::release::release_due;

impl Progress {
    ghost use Rattle.std.specs.Prelude.{◌≡◌, ℕ, ◌<◌, ◌≤◌, vec_len, vec_capacity};
    ghost use Rattle.argument.specs.Plans.{Plan};
    ghost use Rattle.bridge.specs.Scripts.{LawfulScript};
    ghost use Rattle.bridge.specs.States.{State};
    ghost use Rattle.runs.specs.Pool.{Pooled};
    ghost use Rattle.runs.specs.Shown.{script_of, Fetched, AllReleased};
    ghost use Rattle.runs.specs.Progress.{pool_of};

    pub fn release(&mut self)
        ensures jobs { self.new.jobs.items ≡ self.old.jobs.items }
        ensures stages { self.new.stages ≡ self.old.stages }
        ensures time { self.new.time ≡ self.old.time }
        ensures room { vec_capacity self.old.ready.items ≤ vec_capacity self.new.ready.items }
        ensures pooled { (P : Plan) (S : State) → ((k : ℕ) → k < vec_len self.old.jobs → Fetched P self.old.jobs.items k) → S.now ≡ self.old.time
            → Pooled P (script_of self.old.jobs.items) (pool_of self.old) S
            → Pooled P (script_of self.new.jobs.items) (pool_of self.new) S }
        ensures all { (P : Plan) → LawfulScript P (script_of self.new.jobs.items) → AllReleased self.new.jobs.items self.new.time self.new.released }
    {
        self.released = release_due(&self.jobs, self.time, self.released, &mut self.ready);
    }
}
