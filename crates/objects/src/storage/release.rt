//! Objects that leave use, with their pages.
ghost use Rattle.std.specs.Prelude.{◌≡◌, ℕ, true, false, get_or, if◌then◌else◌, slice_index_or};
ghost use Rattle.forest.specs.Nodes.{cleared, IsLive};
ghost use Rattle.tables.specs.Objects.{look, change_at};
ghost use Rattle.tables.specs.Stacks.{stack_room};

use crate::storage::Storage;

/// Marks for the objects of a table, by index.
pub type Marks = [bool; 257];

impl Storage {
    /// An object leaves use, and the pages of the volume that served it serve nothing any more.
    fn release(&mut self, index: usize)
        requires { IsLive (look self.old.table index).body }
        ensures after { look self.new.table ≡ change_at (look self.old.table) index cleared }
        ensures room { stack_room self.new.spare ≡ stack_room self.old.spare }
    {
        self.drop_pages(index, 0);
        self.table.clear(index);
        self.unused.push(index);
    }

    /// The marked objects leave use.
    pub(crate) fn release_marked(&mut self, marks: &Marks)
        requires { (k : ℕ) → slice_index_or marks.now k false ≡ true → IsLive (look self.old.table k).body }
        ensures after { (k : ℕ) → look self.new.table k ≡ (if get_or marks.now k false then cleared (look self.old.table k) else look self.old.table k) }
        ensures room { stack_room self.new.spare ≡ stack_room self.old.spare }
    {
        for (index, marked) in marks[..self.table.len()].iter().enumerate() {
            if *marked {
                self.release(index);
            }
        }
    }
}
