//! Records taken and given back.
ghost use Rattle.std.specs.Prelude.{◌≡◌};
ghost use Rattle.forest.specs.Nodes.{IsLive, with_body, charged_body};
ghost use Rattle.forest.specs.Forest.{cell_at};
ghost use Rattle.tables.specs.Cells.{CanCharge};
ghost use Rattle.tables.specs.Objects.{look, change_at};

use crate::storage::Storage;

impl Storage {
    /// Takes records from the cell that an object uses, and gives some back.
    pub(crate) fn charge(&mut self, index: usize, taken: u32, back: u32)
        requires live { IsLive (look self.old.table index).body }
        requires payer { IsLive (look self.old.table (look self.old.table index).payer).body }
        requires cell { CanCharge taken back (cell_at (look self.old.table) (look self.old.table index).payer) }
        ensures after { look self.new.table ≡ change_at (look self.old.table) (look self.old.table index).payer (λ n. with_body n (charged_body taken back n.body)) }
        ensures unused { self.new.unused ≡ self.old.unused }
        ensures spare { self.new.spare ≡ self.old.spare }
    {
        let payer = self.table.payer(index);
        self.table.charge(payer, taken, back);
    }
}
