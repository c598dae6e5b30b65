/// A call that a cache's history has. The session, the goal and the clause are those that it was made for, by their
/// numbers.
#[derive(Clone, Copy, Debug, PartialEq, Eq)]
pub enum Call {
    /// The clause was looked for among so many entries; the place where it was found, if it was.
    Find {
        session: u64,
        goal: u64,
        clause: u64,
        front: u64,
        hit: Option<u64>,
    },
    /// The clause was stored at this place.
    Store {
        session: u64,
        goal: u64,
        clause: u64,
        place: u64,
    },
}
