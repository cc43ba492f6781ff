//! What a table says of an object.
ghost use Rattle.std.specs.Prelude.{◌≡◌, ◌<◌};
ghost use Rattle.rules.specs.Indexed.{sum};
ghost use Rattle.forest.specs.Forest.{has};
ghost use Rattle.tables.specs.Bodies.{body_of};
ghost use Rattle.tables.specs.Objects.{look, table_size};

use crate::body::Body;
use crate::table::Table;

impl Table {
    /// How many objects there are, in use or not.
    pub fn len(&self) -> usize
        ensures { result ≡ table_size self.now }
    {
        self.objects.len()
    }

    /// What the object is.
    pub fn body(&self, index: usize) -> Body
        requires { index < table_size self.now }
        ensures { body_of result ≡ (look self.now index).body }
    {
        self.objects[index].body
    }

    /// The object's directory.
    pub fn parent(&self, index: usize) -> usize
        requires { index < table_size self.now }
        ensures { result ≡ (look self.now index).parent }
    {
        self.objects[index].parent
    }

    /// The place of the object in its directory.
    pub fn place(&self, index: usize) -> usize
        requires { index < table_size self.now }
        ensures { result ≡ (look self.now index).place }
    {
        self.objects[index].place
    }

    /// How many directories lie above the object.
    pub fn depth(&self, index: usize) -> usize
        requires { index < table_size self.now }
        ensures { result ≡ (look self.now index).depth }
    {
        self.objects[index].depth
    }

    /// The directory whose cell the object uses.
    pub fn payer(&self, index: usize) -> usize
        requires { index < table_size self.now }
        ensures { result ≡ (look self.now index).payer }
    {
        self.objects[index].payer
    }

    /// The object at a place of the object, if one is there.
    pub fn entry(&self, index: usize, place: usize) -> Option<usize>
        requires index { index < table_size self.now }
        requires place { place < 16 }
        ensures { result ≡ (look self.now index).entry place }
    {
        self.objects[index].entries.find(place)
    }

    /// The volume page of a page of the object, if it is present.
    pub fn page(&self, index: usize, page: usize) -> Option<usize>
        requires index { index < table_size self.now }
        requires page { page < 16 }
        ensures { result ≡ (look self.now index).page page }
    {
        self.objects[index].pages.find(page)
    }

    /// How many pages of the object are present.
    pub fn present(&self, index: usize) -> u32
        requires { index < table_size self.now }
        ensures { result ≡ sum 16 (λ k. has ((look self.now index).page k)) }
    {
        self.objects[index].pages.count()
    }
}
