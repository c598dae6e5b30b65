use crate::table::{Table, identity, zeros};
use cert_kit::{Op, PRow, Step};
use mm_poly::Mono;
use std::alloc::{AllocError, Global};

/// A multiple of an equality that was solved: its row's number, and how often it is added.
#[derive(Clone, Copy, Debug)]
pub struct Part {
    pub number: u32,
    pub times: i128,
}

/// Rows and variables as forms of the unknowns, and the unknowns as forms of the variables.
#[derive(Debug, Drop)]
pub struct System {
    /// What each row counts of each unknown.
    pub rows: Table,
    /// The rows' constants.
    pub constants: Vec<i128>,
    /// What each variable counts of each unknown.
    pub variables: Table,
    /// The variables' values where all free unknowns are 0.
    pub values: Vec<i128>,
    /// For each variable, how often each unknown counts it.
    pub forms: Table,
    /// The multiples of equalities by which each row lost its solved unknowns.
    pub parts: Vec<Vec<Part>>,
    /// What was appended to the rows so far.
    pub steps: Vec<Step>,
}

impl System {
    /// The rows as they stand, in so many variables: each variable is an unknown.
    pub fn new(alloc: Global, rows: &[PRow], count: usize) -> Result<System, AllocError> {
        let monos = monos(alloc, count)?;
        let mut numbers = Vec::with_capacity(alloc, rows.len())?;
        let mut constants = Vec::with_capacity(alloc, rows.len())?;
        let mut parts = Vec::with_capacity(alloc, rows.len())?;
        for row in rows {
            numbers.push(coefficients(alloc, row, &monos)?)?;
            constants.push(row.poly.constant_term())?;
            parts.push(Vec::new(alloc))?;
        }
        Ok(System {
            rows: numbers,
            constants,
            variables: identity(alloc, count)?,
            values: zeros(alloc, count)?,
            forms: identity(alloc, count)?,
            parts,
            steps: Vec::new(alloc),
        })
    }
}

fn monos(alloc: Global, count: usize) -> Result<Vec<Mono>, AllocError> {
    let mut out = Vec::with_capacity(alloc, count)?;
    let mut v = 0u32;
    for _ in 0..count {
        out.push(Mono::var(alloc, v)?)?;
        v = v.wrapping_add(1);
    }
    Ok(out)
}

fn coefficients(alloc: Global, row: &PRow, monos: &[Mono]) -> Result<Vec<i128>, AllocError> {
    let mut out = Vec::with_capacity(alloc, monos.len())?;
    for mono in monos {
        out.push(row.poly.coefficient(mono))?;
    }
    Ok(out)
}

/// Whether the row is an equality.
pub fn is_equality(row: &PRow) -> bool {
    match row.op {
        Op::Ge => false,
        Op::Eq => true,
    }
}
