//! New objects.
ghost use Rattle.std.specs.Prelude.{◌≡◌, ◌+◌, ◌<◌, ◌≤◌, if◌then◌else◌, None};
ghost use Rattle.std.specs.Option.{option_map};
ghost use Rattle.rules.specs.Tree.{new_cell, new_segment, new_directory};
ghost use Rattle.rules.specs.Cells.{cost};
ghost use Rattle.rules.specs.Changes.{create, change_place, change};
ghost use Rattle.rules.proofs.Balance.{Fit};
ghost use Rattle.forest.specs.Nodes.{IsDir, IsLive, celled};
ghost use Rattle.forest.specs.Forest.{bare_tree, path_to, cell_at};
ghost use Rattle.forest.specs.Steps.{Enacted, Stays};
ghost use Rattle.tables.specs.Bodies.{body_of};
ghost use Rattle.tables.specs.Cells.{cell_of};
ghost use Rattle.objects.specs.Views.{nodes, records};

use crate::objects::Objects;
use labels::Label;
use tables::{Body, Cell, Directory, Nibble};

/// Whose cell an object uses: its own where it has one, or else the one that its directory uses.
fn payer_of(body: Body, index: usize, above: usize) -> usize
    ensures { result ≡ (if celled (body_of body) then index else above) }
{
    if body.has_cell() { index } else { above }
}

/// The cell of a new directory: none for a grant of 0.
fn new_cell(grant: u32) -> Option<Cell>
    ensures { option_map cell_of result ≡ new_cell grant }
{
    (grant != 0).then(|| Cell::new(grant))
}

impl Objects {
    /// Puts a new object at an empty place of a directory. The cell that the directory uses pays for it.
    fn insert(&mut self, directory: usize, place: Nibble, body: Body, taken: u32)
        requires directory { IsDir (nodes self.old directory).body }
        requires vacant { (nodes self.old directory).entry place.value ≡ None }
        requires live { IsLive (body_of body) }
        requires fit { Fit (bare_tree (body_of body)) }
        requires cost { cost (bare_tree (body_of body)) ≡ taken }
        requires paid { taken ≤ (cell_at (nodes self.old) (nodes self.old directory).payer).left }
        ensures tree { Enacted (nodes self.old) (nodes self.new) (path_to (nodes self.old) directory) (change (change_place place.value (create (bare_tree (body_of body)))) taken 0) }
        ensures stays { Stays (nodes self.old) (nodes self.new) }
        ensures records { records self.new ≡ records self.old }
    {
        let storage = &mut self.storage;
        let above = storage.table.payer(directory);
        let depth = storage.table.depth(directory) + 1;
        storage.charge(directory, taken, 0);
        let index = storage.unused.pop();
        let payer = payer_of(body, index, above);
        storage.table.set_entry(directory, place.value, Some(index));
        storage.table.set_body(index, body);
        storage
            .table
            .set_place(index, directory, place.value, depth, payer);
    }
}

impl Objects {
    /// Puts a segment without pages at an empty place of a directory.
    pub fn create_segment(&mut self, directory: usize, place: usize)
        requires directory { IsDir (nodes self.old directory).body }
        requires within { place < 16 }
        requires vacant { (nodes self.old directory).entry place ≡ None }
        requires paid { 1 ≤ (cell_at (nodes self.old) (nodes self.old directory).payer).left }
        ensures tree { Enacted (nodes self.old) (nodes self.new) (path_to (nodes self.old) directory) (change (change_place place (create new_segment)) 1 0) }
        ensures stays { Stays (nodes self.old) (nodes self.new) }
        ensures records { records self.new ≡ records self.old }
    {
        let place = Nibble::new(place);
        self.insert(directory, place, Body::Segment, 1);
    }

    /// Puts a directory at an empty place of a directory, with a cell if the grant is not 0.
    pub fn create_directory(&mut self, directory: usize, place: usize, label: Label, grant: u32)
        requires directory { IsDir (nodes self.old directory).body }
        requires within { place < 16 }
        requires small { grant ≤ 256 }
        requires vacant { (nodes self.old directory).entry place ≡ None }
        requires paid { 1 + grant ≤ (cell_at (nodes self.old) (nodes self.old directory).payer).left }
        ensures tree { Enacted (nodes self.old) (nodes self.new) (path_to (nodes self.old) directory) (change (change_place place (create (new_directory label grant))) (1 + grant) 0) }
        ensures stays { Stays (nodes self.old) (nodes self.new) }
        ensures records { records self.new ≡ records self.old }
    {
        let place = Nibble::new(place);
        let cell = new_cell(grant);
        self.insert(
            directory,
            place,
            Body::Directory(Directory { label, cell }),
            1 + grant,
        );
    }
}
