ghost use Rattle.std.specs.Prelude.{◌≡◌, ◌+◌, ◌≤◌, ◌<◌, ◌^◌, [], ◌∷◌, ◌++◌, not, length, IfOk, OnOk};
ghost use Rattle.zify.specs.machine.Walking.{place_of, with_shape, number_in, has_number, with_number, with_place, entered, variable_in, is_new, shape};

use crate::form::ZForm;
use crate::shape::{Shape, place};
use goal_ast::Operator;
use indexmap::IndexSet;
use sqlite_items::Items;
use std::alloc::{AllocError, Global};
use std::marker::Model;

// What the walk over a goal has found so far.
#[derive(Drop)]
pub(crate) struct Table {
    shapes: IndexSet<Shape>,
    operations: IndexSet<usize>,
    conditions: Items<ZForm>,
}

impl Model for Table {
    ghost use Rattle.std.specs.Coded.{codes};
    ghost use Rattle.zify.specs.contracts.form.ZForm as forms;
    ghost use Rattle.zify.specs.machine.Table.{State};

    ghost Value = { State };

    ghost coded = { Prim.hlevel (codes, forms.the_row.coded) };

    ghost view = { λ t. record { shapes = t.shapes.keys; operations = t.operations.keys; conditions = t.conditions } };
}

// Where an operation's node is, its variable, and whether it is the first of its kind.
#[derive(Clone, Copy)]
pub(crate) struct Entered {
    pub place: usize,
    pub variable: u32,
    pub new: bool,
}

// What a whole walk found.
#[derive(Drop)]
pub(crate) struct Found {
    pub operations: usize,
    pub conditions: Items<ZForm>,
}

// The rank of an operation, and whether it is new.
#[tactic(auto, using(crate::proofs::ShapeLaws::number_within, crate::proofs::ShapeLaws::number_grows))]
fn rank(operations: &mut IndexSet<usize>, place: usize) -> Result<(usize, bool), AllocError>
    ensures rank { IfOk result (λ r. r.0 ≡ number_in place operations.old.keys) }
    ensures within { IfOk result (λ r. r.0 ≤ length operations.old.keys) }
    ensures new { IfOk result (λ r. r.1 ≡ not (has_number place operations.old.keys)) }
    ensures operations { OnOk result (operations.new.keys ≡ with_number operations.old.keys place) }
    ensures grown { OnOk result (length operations.new.keys ≤ length operations.old.keys + 1) }
{
    match operations.insert_full(place) {
        Ok((rank, new)) => Ok((rank, new)),
        Err(_) => Err(AllocError),
    }
}

impl Table {
    // An empty one, whose conditions come after these.
    pub fn new(alloc: Global, conditions: Items<ZForm>) -> Table
        ensures { result ≡ record { shapes = []; operations = []; conditions = conditions } }
    {
        Table {
            shapes: IndexSet::new(alloc),
            operations: IndexSet::new(alloc),
            conditions,
        }
    }

    // How many operations there are, and all conditions.
    pub fn found(self) -> Found
        ensures operations { result.operations ≡ length self.operations }
        ensures conditions { result.conditions ≡ self.conditions }
    {
        Found {
            operations: self.operations.len(),
            conditions: self.conditions,
        }
    }

    // The number of a node.
    pub fn place(
        &mut self,
        operator: Operator,
        left: usize,
        right: usize,
    ) -> Result<usize, AllocError>
        ensures place { IfOk result (λ n. n ≡ place_of (shape operator left right) self.old.shapes) }
        ensures table { OnOk result (self.new ≡ with_place (shape operator left right) self.old) }
    {
        place(
            &mut self.shapes,
            Shape {
                operator,
                left,
                right,
            },
        )
    }

    // The number and the variable of an operation's node.
    pub fn enter(
        &mut self,
        bound: u32,
        operator: Operator,
        left: usize,
        right: usize,
    ) -> Result<Entered, AllocError>
        requires { bound + length self.old.operations < 2 ^ 32 }
        ensures place { IfOk result (λ n. n.place ≡ place_of (shape operator left right) self.old.shapes) }
        ensures variable { IfOk result (λ n. n.variable ≡ variable_in bound (shape operator left right) self.old) }
        ensures new { IfOk result (λ n. n.new ≡ is_new (shape operator left right) self.old) }
        ensures table { OnOk result (self.new ≡ entered (shape operator left right) self.old) }
        ensures grown { OnOk result (length self.new.operations ≤ length self.old.operations + 1) }
    {
        let place = self.place(operator, left, right)?;
        let (rank, new) = rank(&mut self.operations, place)?;
        Ok(Entered {
            place,
            variable: bound + rank as u32,
            new,
        })
    }

    pub fn push(&mut self, condition: ZForm) -> Result<(), AllocError>
        ensures { OnOk result (self.new ≡ record self.old { conditions = self.old.conditions ++ condition ∷ [] }) }
    {
        self.conditions.push(condition)
    }
}
