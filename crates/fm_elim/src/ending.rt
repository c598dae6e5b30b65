/// How an elimination ended, with the point where there is one.
#[derive(Debug, Drop)]
pub enum Ending {
    /// The last row of the log is constant and false.
    Contra,
    Point(Vec<i128>),
    Grey,
    Over,
}
