ghost use Rattle.std.specs.Prelude.{◌≡◌, [], ◌∷◌, ◌++◌, map, IfOk, OnOk};
ghost use Rattle.cert_kit.specs.declared.cert.Step.TheVariants.{Rat};

use cert_kit::{Cert, Clause, PRow, Psatz, Step};
use sqlite_items::Items;
use std::alloc::{AllocError, Global};

/// A clause with the rows that its square monomials and the products of its first inequalities give.
#[derive(Debug, Drop)]
pub struct Enriched {
    /// The clause's rows, and after them the added ones.
    pub clause: Clause,
    /// The expression of each added row, over the clause's rows.
    pub sources: Vec<Psatz>,
}

impl Enriched {
    /// The rows and the expressions.
    pub fn into_parts(self) -> (Clause, Vec<Psatz>)
        ensures clause { result.0 ≡ self.clause }
        ensures sources { result.1.items ≡ self.sources.items }
    {
        (self.clause, self.sources)
    }

    /// A certificate over the clause's rows, from one over the enriched rows: the steps of the sources come in front.
    pub fn into_certificate(self, alloc: Global, cert: Cert) -> Result<Cert, AllocError>
        ensures { IfOk result (λ c. c ≡ record { steps = map Rat self.sources.items ++ cert.steps; close = cert.close }) }
    {
        let mut steps = Items::from_vec(steps_of(alloc, self.sources)?);
        steps.append(cert.steps)?;
        Ok(Cert {
            steps,
            close: cert.close,
        })
    }

    /// A clause to which nothing was added yet.
    pub(crate) fn new(alloc: Global, clause: &Clause) -> Result<Enriched, AllocError>
        ensures rows { IfOk result (λ e. e.clause.rows ≡ clause.now.rows) }
        ensures sources { IfOk result (λ e. e.sources.items ≡ []) }
    {
        Ok(Enriched {
            clause: clause.copy(alloc)?,
            sources: Vec::new(alloc),
        })
    }

    /// Adds a row and its expression.
    pub(crate) fn push(&mut self, row: PRow, source: Psatz) -> Result<(), AllocError>
        ensures rows { OnOk result (self.new.clause.rows ≡ self.old.clause.rows ++ row ∷ []) }
        ensures sources { OnOk result (self.new.sources.items ≡ self.old.sources.items ++ source ∷ []) }
    {
        self.clause.rows.push(row)?;
        self.sources.push(source)?;
        Ok(())
    }
}

// A step for each expression.
fn steps_of(alloc: Global, sources: Vec<Psatz>) -> Result<Vec<Step>, AllocError>
    ensures { IfOk result (λ steps. steps.items ≡ map Rat sources.items) }
{
    let mut steps = Vec::with_capacity(alloc, sources.len())?;
    for source in sources {
        steps.push(Step::Rat(source))?;
    }
    Ok(steps)
}
