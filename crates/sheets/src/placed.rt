// What goes with a place of a sheet: a task, a platform, or a refusal.
ghost use Rattle.std.specs.Prelude.{◌≡◌};

// Something, and the place of the record that it is read of.
#[derive(Clone, Copy, Debug)]
pub struct Placed<T> {
    pub place: usize,
    pub what: T,
}

impl<T> Placed<T> {
    pub(crate) fn at(place: usize, what: T) -> Placed<T>
        ensures { result ≡ record { place = place; what = what } }
    {
        Placed { place, what }
    }
}
