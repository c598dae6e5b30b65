use mm_poly::Mono;

/// An unknown and its value.
#[derive(Debug, Drop)]
pub struct Value {
    pub unknown: Mono,
    pub value: i128,
}

/// Values in the order in which they were given, and the greatest of their magnitudes.
#[derive(Debug, Drop)]
pub struct Given {
    pub values: Vec<Value>,
    pub greatest: u128,
}
