//! Where a store keeps its objects.
ghost use Rattle.std.specs.Prelude.{◌≡◌, suc};
ghost use Rattle.tables.specs.Objects.{table_size};
ghost use Rattle.tables.specs.Stacks.{stack_room};
ghost use Rattle.objects.specs.Storing.{IsStocked, IsServed};

use tables::{Stack, Table};

mod charging;
mod pages;
mod release;
mod writing;

pub use release::Marks;

/// Objects in a table, and stacks of those and of the pages of the volume that are not in use. Each present page has a
/// page of the volume to itself.
#[derive(Drop)]
pub(crate) struct Storage {
    pub(crate) table: Table,
    pub(crate) unused: Stack,
    pub(crate) spare: Stack,
    ghost sized: { table_size table ≡ suc (stack_room spare) },
    ghost roomy: { stack_room unused ≡ suc (stack_room spare) },
    ghost stocked: { IsStocked table unused spare },
    ghost served: { IsServed table spare },
}
