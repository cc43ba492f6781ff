//! An object of a table.
ghost use Rattle.std.specs.Prelude.{◌≡◌};
ghost use Rattle.forest.specs.Nodes.{nowhere, with_body};
ghost use Rattle.tables.specs.Bodies.{body_of};
ghost use Rattle.tables.specs.Objects.{node_of};

use crate::body::Body;
use crate::links::Links;

/// An object: what it is, its directory and the place there, how deep it lies, whose cell it uses, the objects at its
/// places, and the volume pages of its pages.
#[derive(Drop)]
pub struct Object {
    pub(crate) body: Body,
    pub(crate) parent: usize,
    pub(crate) place: usize,
    pub(crate) depth: usize,
    pub(crate) payer: usize,
    pub(crate) entries: Links,
    pub(crate) pages: Links,
}

impl Object {
    /// An object without entries and pages, whose other numbers are all 0.
    pub(crate) fn new(body: Body) -> Object
        ensures { node_of result ≡ with_body nowhere (body_of body) }
    {
        Object {
            body,
            parent: 0,
            place: 0,
            depth: 0,
            payer: 0,
            entries: Links::new(),
            pages: Links::new(),
        }
    }
}
