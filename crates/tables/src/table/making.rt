//! A new table.
ghost use Rattle.std.specs.Prelude.{◌≡◌, ◌≤◌, IfOk};
ghost use Rattle.tables.specs.Bodies.{body_of};
ghost use Rattle.tables.specs.Objects.{look, table_size, root_alone};

use crate::body::Body;
use crate::object::Object;
use crate::table::Table;
use std::alloc::{AllocError, Global};

impl Table {
    /// A table of so many objects, of which only the root is in use.
    pub fn new(heap: Global, size: usize, root: Body) -> Result<Table, AllocError>
        requires some { 1 ≤ size }
        requires few { size ≤ 257 }
        ensures size { IfOk result (λ t. table_size t ≡ size) }
        ensures nodes { IfOk result (λ t. look t ≡ root_alone (body_of root)) }
    {
        let mut objects = Vec::with_capacity(heap, size)?;
        objects.resize_with(size, || Object::new(Body::Unused))?;
        let mut table = Table { objects };
        table.set_body(0, root);
        Ok(table)
    }
}
