//! A process's known numbers.
ghost use Rattle.std.specs.Prelude.{◌≡◌, ℕ};
ghost use Rattle.tables.specs.Forgotten.{forgotten};
ghost use Rattle.tables.specs.KnownTables.{known_at, first_known};

use crate::known::Known;
use crate::sixteen::Sixteen;

/// A process's sixteen known numbers.
pub type KnownTable = Sixteen<Known>;

impl KnownTable {
    /// The known numbers of a new process: number 0 means the object 0, and the others are free.
    pub fn new() -> KnownTable
        ensures { known_at result ≡ first_known }
    {
        let mut table = Sixteen::filled(Known::Free);
        *table.slot(0) = Known::Means(0);
        table
    }

    /// Every number that means a marked object is gone.
    pub fn forget(&mut self, marks: &[bool])
        ensures { (n : ℕ) → known_at self.new n ≡ forgotten marks.now (known_at self.old n) }
    {
        for known in self.at.iter_mut() {
            *known = known.without(marks);
        }
    }
}
