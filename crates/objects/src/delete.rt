//! Subtrees removed.
ghost use Rattle.std.specs.Prelude.{◌≡◌, ℕ, ◌<◌, true, false, get_or, if◌then◌else◌, Some, MatchBool, slice_index_or};
ghost use Rattle.rules.specs.Indexed.{sum};
ghost use Rattle.rules.specs.Tree.{at};
ghost use Rattle.rules.specs.Cells.{cost};
ghost use Rattle.rules.specs.Changes.{remove, change_place, change};
ghost use Rattle.forest.specs.Nodes.{IsLive, Under, Tells};
ghost use Rattle.forest.specs.Forest.{tree_of, path_to, weight};
ghost use Rattle.forest.specs.Steps.{Enacted};
ghost use Rattle.tables.specs.Objects.{table_size};
ghost use Rattle.objects.specs.Views.{nodes, records};

use crate::objects::Objects;
use crate::storage::Marks;
use tables::Body;

impl Objects {
    /// Whether an object in use is `top` or lies below it, by going up from it.
    fn lies_under(&self, index: usize, top: usize) -> bool
        requires { IsLive (nodes self.now index).body }
        ensures { MatchBool result (Under (nodes self.now) top index) (Under (nodes self.now) top index → ⊥) }
    {
        let mut at = index;
        while at != top {
            if at == 0 {
                return false;
            }
            at = self.storage.table.parent(at);
        }
        true
    }

    /// Whether an index is that of `top`, or of an object below it.
    fn is_part(&self, index: usize, top: usize) -> bool
        ensures { Tells (nodes self.now) top index result }
    {
        let table = &self.storage.table;
        index < table.len() && table.body(index).is_live() && self.lies_under(index, top)
    }

    /// Which objects are `top` or lie below it.
    pub fn subtree(&self, top: usize) -> Marks
        ensures { (k : ℕ) → Tells (nodes self.now) top k (slice_index_or result k false) }
    {
        let mut marks = [false; 257];
        for index in 0..self.storage.table.len() {
            marks[index] = self.is_part(index, top);
        }
        marks
    }

    /// The records that an object stands for: itself, its present pages, and what its cell has left.
    fn weight(&self, index: usize) -> u32
        requires { index < table_size self.now.storage.table }
        ensures { result ≡ weight (nodes self.now index) }
    {
        match self.storage.table.body(index) {
            Body::Unused => 0,
            Body::Segment => 1 + self.storage.table.present(index),
            Body::Directory(directory) => match directory.cell {
                None => 1,
                Some(cell) => 1 + cell.left(),
            },
        }
    }

    /// The records that the marked objects stand for.
    fn weights(&self, marks: &Marks) -> u32
        ensures { result ≡ sum 257 (λ k. (if get_or marks.now k false then weight (nodes self.now k) else 0)) }
    {
        let marked = (0..self.storage.table.len()).filter(|index| marks[*index]);
        marked.map(|index| self.weight(index)).sum()
    }
}

impl Objects {
    /// Removes the object at a place of a directory and all below it, which are marked, and tells how many records come back
    /// to the cell that the directory uses.
    pub fn delete(&mut self, directory: usize, place: usize, child: usize, marks: &Marks) -> u32
        requires there { (nodes self.old directory).entry place ≡ Some child }
        requires marked { (k : ℕ) → Tells (nodes self.old) child k (slice_index_or marks.now k false) }
        ensures value { (w : ℕ → ℕ) → result ≡ cost (at (path_to (nodes self.old) child) (tree_of w (nodes self.old))) }
        ensures tree { Enacted (nodes self.old) (nodes self.new) (path_to (nodes self.old) directory) (change (change_place place remove) 0 result) }
        ensures stays { (k : ℕ) → IsLive (nodes self.old k).body → (slice_index_or marks.now k false ≡ false → IsLive (nodes self.new k).body) × (path_to (nodes self.new) k ≡ path_to (nodes self.old) k) }
        ensures records { records self.new ≡ records self.old }
    {
        let back = self.weights(marks);
        let storage = &mut self.storage;
        storage.charge(directory, 0, back);
        storage.table.set_entry(directory, place, None);
        storage.release_marked(marks);
        back
    }
}
