// How many phases of one port an arbiter may put before a waiting phase of another: at most so many, and an arbiter's
// limits are 1 to 255. None: there is no limit, which is above every number.
pub type Limit = Option<u16>;
