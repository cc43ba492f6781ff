//! A table of objects.
ghost use Rattle.std.specs.Prelude.{◌≤◌, vec_len};

use crate::object::Object;

mod changing;
mod making;
mod reading;

/// The objects, each with its index: room for a root, and for at most 256 more.
#[derive(Drop)]
pub struct Table {
    objects: Vec<Object>,
    ghost few: { vec_len objects ≤ 257 },
}
