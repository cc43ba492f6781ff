//! Changes of one object of a table.
ghost use Rattle.std.specs.Prelude.{◌≡◌, ◌<◌};
ghost use Rattle.forest.specs.Nodes.{with_body, with_entry, with_page, with_place, cleared, charged_body, regranted_body};
ghost use Rattle.forest.specs.Forest.{cell_at};
ghost use Rattle.tables.specs.declared.body.Body.{Body};
ghost use Rattle.tables.specs.Cells.{CanCharge, CanRegrant};
ghost use Rattle.tables.specs.Bodies.{body_of};
ghost use Rattle.tables.specs.Objects.{look, table_size, Changed, ChangesBody};

use crate::body::Body;
use crate::table::Table;

impl Table {
    /// Says what the object is.
    pub fn set_body(&mut self, index: usize, body: Body)
        requires { index < table_size self.old }
        ensures { Changed self.old self.new index (λ n. with_body n (body_of body)) }
    {
        self.objects[index].body = body;
    }

    /// Takes records from the object's cell, if it has one, and gives some back.
    pub fn charge(&mut self, index: usize, taken: u32, back: u32)
        requires index { index < table_size self.old }
        requires cell { CanCharge taken back (cell_at (look self.old) index) }
        ensures { Changed self.old self.new index (λ n. with_body n (charged_body taken back n.body)) }
    {
        self.change_body(index, |body| body.charged(taken, back));
    }

    /// Raises and lowers the grant of the object's cell, if it has one, and what is left.
    pub fn regrant(&mut self, index: usize, up: u32, down: u32)
        requires index { index < table_size self.old }
        requires cell { CanRegrant up down (cell_at (look self.old) index) }
        ensures { Changed self.old self.new index (λ n. with_body n (regranted_body up down n.body)) }
    {
        self.change_body(index, |body| body.regranted(up, down));
    }

    /// Says where the object lies and whose cell it uses.
    pub fn set_place(
        &mut self,
        index: usize,
        parent: usize,
        place: usize,
        depth: usize,
        payer: usize,
    )
        requires { index < table_size self.old }
        ensures { Changed self.old self.new index (λ n. with_place n parent place depth payer) }
    {
        let object = &mut self.objects[index];
        object.parent = parent;
        object.place = place;
        object.depth = depth;
        object.payer = payer;
    }

    /// Says which object is at a place of the object, if any.
    pub fn set_entry(&mut self, index: usize, place: usize, to: Option<usize>)
        requires index { index < table_size self.old }
        requires place { place < 16 }
        ensures { Changed self.old self.new index (λ n. with_entry n place to) }
    {
        *self.objects[index].entries.slot(place) = to;
    }

    /// Says which volume page serves a page of the object, if any.
    pub fn set_page(&mut self, index: usize, page: usize, to: Option<usize>)
        requires index { index < table_size self.old }
        requires page { page < 16 }
        ensures { Changed self.old self.new index (λ n. with_page n page to) }
    {
        *self.objects[index].pages.slot(page) = to;
    }

    /// Takes the object out of use; where it stood stays written there.
    pub fn clear(&mut self, index: usize)
        requires { index < table_size self.old }
        ensures { Changed self.old self.new index cleared }
    {
        let object = &mut self.objects[index];
        object.body = Body::Unused;
        object.entries.clear();
        object.pages.clear();
    }

    /// Changes what the object is.
    fn change_body<F: FnOnce(Body) -> Body>(&mut self, index: usize, change: F)
        requires index { index < table_size self.old }
        requires call { (body : Body) → body_of body ≡ (look self.old index).body → F.pre change body }
        ensures { ChangesBody (F.post change) self.old self.new index }
    {
        let body = change(self.body(index));
        self.set_body(index, body);
    }
}
