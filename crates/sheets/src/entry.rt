// What a record holds: the record layer.
use tasks::platform::BusLine;
use tasks::task::Row;

pub mod read;

// The kinds of record. Their numbers are written out as those of the bottom arbiters are: the gate takes no impl from a macro of our own.
#[derive(Clone, Copy, PartialEq, Eq, Debug)]
pub enum Kind {
    Platform,
    Task,
}

#[derive(Clone, Copy)]
pub enum Entry {
    // cores and bus line; the plan judges the number of cores
    Platform(u8, BusLine),
    Task(Row),
}
