//! The objects of a store.
ghost use Rattle.objects.specs.Storing.{IsKept};

use crate::storage::Storage;

/// The objects of a store. They are a tree whose cells account for every record.
#[derive(Drop)]
pub struct Objects {
    pub(crate) storage: Storage,
    ghost kept: { IsKept storage.table storage.unused storage.spare },
}
