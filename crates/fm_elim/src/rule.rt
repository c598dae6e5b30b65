use mm_poly::Mono;

/// What the elimination does next with tidy rows.
#[derive(Debug, Drop)]
pub enum Rule {
    /// No unknown is left.
    Finished,
    /// The equality at this place gives the value of this unknown, whose coefficient there is 1 or -1.
    Solve(usize, Mono),
    /// The equality at this place becomes two inequalities.
    Halve(usize),
    /// This unknown is eliminated, and integer solutions stay.
    Exact(Mono),
    /// This unknown is eliminated, and integer solutions may come up that the rows didn't have.
    Inexact(Mono),
}
