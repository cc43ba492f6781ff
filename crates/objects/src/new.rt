//! The objects of a new store.
ghost use Rattle.std.specs.Prelude.{◌≡◌, ℕ, ◌≤◌, IfOk, Some};
ghost use Rattle.rules.specs.Tree.{directory, empty};
ghost use Rattle.forest.specs.Nodes.{dir};
ghost use Rattle.forest.specs.Forest.{tree_of};
ghost use Rattle.tables.specs.Cells.{full_cell};
ghost use Rattle.tables.specs.Objects.{root_alone};
ghost use Rattle.objects.specs.Views.{nodes, records};

use crate::objects::Objects;
use crate::storage::Storage;
use labels::Label;
use std::alloc::{AllocError, Global};
use tables::{Body, Cell, Directory, Stack, Table};

impl Objects {
    /// The objects of a new store of so many records: a root directory alone, whose cell has them all.
    pub fn new(heap: Global, root: Label, count: usize) -> Result<Objects, AllocError>
        requires few { count ≤ 256 }
        ensures tree { IfOk result (λ o. (w : ℕ → ℕ) → tree_of w (nodes o) ≡ directory root (Some (full_cell count)) (λ i. empty)) }
        ensures nodes { IfOk result (λ o. nodes o ≡ root_alone (dir root (Some (full_cell count)))) }
        ensures records { IfOk result (λ o. records o ≡ count) }
    {
        let spare = Stack::counting_down(heap, 0, count)?;
        let mut unused = Stack::counting_down(heap, 0, count + 1)?;
        // the root is object 0
        unused.pop();
        let cell = Cell::new(count as u32);
        let table = Table::new(
            heap,
            count + 1,
            Body::Directory(Directory {
                label: root,
                cell: Some(cell),
            }),
        )?;
        let storage = Storage {
            table,
            unused,
            spare,
        };
        Ok(Objects { storage })
    }
}
