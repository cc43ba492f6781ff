//! Quota moved between cells.
ghost use Rattle.std.specs.Prelude.{◌≡◌, ◌+◌, ◌≤◌, true, Some};
ghost use Rattle.rules.specs.Changes.{regrant, change_place, change};
ghost use Rattle.forest.specs.Nodes.{celled};
ghost use Rattle.forest.specs.Forest.{path_to, cell_at};
ghost use Rattle.forest.specs.Steps.{Enacted, Stays};
ghost use Rattle.objects.specs.Views.{nodes, records};

use crate::objects::Objects;

impl Objects {
    /// Moves `up` records from the cell that a directory uses to that of the directory at one of its places, and `down`
    /// records the other way.
    pub fn move_quota(&mut self, directory: usize, place: usize, child: usize, up: u32, down: u32)
        requires there { (nodes self.old directory).entry place ≡ Some child }
        requires cell { celled (nodes self.old child).body ≡ true }
        requires small { (up ≤ 256) × (down ≤ 256) }
        requires paid { up ≤ (cell_at (nodes self.old) (nodes self.old directory).payer).left + down }
        requires owed { down ≤ (cell_at (nodes self.old) child).left + up }
        ensures tree { Enacted (nodes self.old) (nodes self.new) (path_to (nodes self.old) directory) (change (change_place place (regrant up down)) up down) }
        ensures stays { Stays (nodes self.old) (nodes self.new) }
        ensures records { records self.new ≡ records self.old }
    {
        let storage = &mut self.storage;
        storage.charge(directory, up, down);
        storage.table.regrant(child, up, down);
    }
}
