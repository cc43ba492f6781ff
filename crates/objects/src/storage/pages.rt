//! Pages of segments, and the pages of the volume that serve them.
ghost use Rattle.std.specs.Prelude.{◌≡◌, ℕ, ◌+◌, ◌-◌, ◌<◌, ◌≤◌, if◌then◌else◌, Some, None, nat_lt, is_some};
ghost use Rattle.rules.specs.Indexed.{sum};
ghost use Rattle.forest.specs.Nodes.{with_page, with_pages};
ghost use Rattle.forest.specs.Forest.{has, cut_links};
ghost use Rattle.tables.specs.Objects.{look, table_size};
ghost use Rattle.tables.specs.Stacks.{stack_height, stack_room};
ghost use Rattle.objects.specs.PageChanges.{ChangesPages};
ghost use Rattle.objects.specs.VolumePages.{number_of, is_fresh};

use crate::storage::Storage;
use crate::volume_page::VolumePage;
use tables::Nibble;

/// A segment has so many pages.
pub(crate) const PAGES: usize = 16;

impl Storage {
    /// Whether a page of an object is present.
    fn is_present(&self, index: usize, page: Nibble) -> bool
        requires { index < table_size self.now.table }
        ensures { result ≡ is_some ((look self.now.table index).page page.value) }
    {
        self.table.page(index, page.value).is_some()
    }

    /// How many pages of an object, numbered `keep` and up, are present.
    pub(crate) fn present_from(&self, index: usize, keep: usize) -> u32
        requires index { index < table_size self.now.table }
        requires keep { keep ≤ 16 }
        ensures value { result ≡ sum 16 (λ k. (if nat_lt k keep then 0 else has ((look self.now.table index).page k))) }
        ensures few { result ≤ 16 }
    {
        let present = (keep..PAGES).map(|page| u32::from(self.is_present(
            index,
            Nibble::new(page),
        )));
        present.sum()
    }

    /// A page becomes absent, if it is not already, and the volume page that served it serves nothing any more.
    fn drop_page(&mut self, index: usize, page: Nibble)
        requires { index < table_size self.old.table }
        ensures { ChangesPages self.old self.new index (λ n. with_page n page.value None) }
    {
        if let Some(number) = self.table.page(index, page.value) {
            self.table.set_page(index, page.value, None);
            self.spare.push(number);
        }
    }

    /// The pages numbered `keep` and up become absent.
    pub(crate) fn drop_pages(&mut self, index: usize, keep: usize)
        requires index { index < table_size self.old.table }
        requires keep { keep ≤ 16 }
        ensures { ChangesPages self.old self.new index (λ n. with_pages n (cut_links keep n.page)) }
    {
        for page in keep..PAGES {
            self.drop_page(index, Nibble::new(page));
        }
    }

    /// The volume page of a page of a segment. An absent page gets the one on top of the stack.
    pub(crate) fn ensure_page(&mut self, index: usize, page: Nibble) -> VolumePage
        requires index { index < table_size self.old.table }
        requires enough { 1 - has ((look self.old.table index).page page.value) ≤ stack_height self.old.spare }
        ensures low { number_of result < stack_room self.old.spare }
        ensures was { (look self.old.table index).page page.value ≡ (if is_fresh result then None else Some (number_of result)) }
        ensures changed { ChangesPages self.old self.new index (λ n. with_page n page.value (Some (number_of result))) }
        ensures height { stack_height self.new.spare + (1 - has ((look self.old.table index).page page.value)) ≡ stack_height self.old.spare }
    {
        match self.table.page(index, page.value) {
            Some(number) => VolumePage::Held(number),
            None => {
                let number = self.spare.pop();
                self.table.set_page(index, page.value, Some(number));
                VolumePage::Fresh(number)
            }
        }
    }
}
