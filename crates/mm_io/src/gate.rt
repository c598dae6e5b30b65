/// What a session passes before each of its goals.
pub trait Gate {
    /// Called with the numbers of the session and of the goal, before the goal is answered. It may hold the
    /// caller for a while, and returns.
    fn pass(&self, session: u32, goal: u32);
}
