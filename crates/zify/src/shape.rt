ghost use Rattle.std.specs.Prelude.{◌≡◌, IfOk, OnOk};
ghost use Rattle.indexmap.specs.IndexMap.{keys};
ghost use Rattle.zify.specs.machine.Walking.{place_of, with_shape};

use goal_ast::Operator;
use indexmap::IndexSet;
use std::alloc::AllocError;

// A node of a term, by its operator and the numbers of its parts; a number that isn't needed is 0.
#[derive(Clone, Copy, Debug, PartialEq, Eq, Hash)]
pub struct Shape {
    pub operator: Operator,
    pub left: usize,
    pub right: usize,
}

// The number of a node among the distinct ones so far.
pub(crate) fn place(shapes: &mut IndexSet<Shape>, shape: Shape) -> Result<usize, AllocError>
    ensures place { IfOk result (λ n. n ≡ place_of shape shapes.old.keys) }
    ensures shapes { OnOk result (shapes.new.keys ≡ with_shape shapes.old.keys shape) }
{
    match shapes.insert_full(shape) {
        Ok((at, _)) => Ok(at),
        Err(_) => Err(AllocError),
    }
}
