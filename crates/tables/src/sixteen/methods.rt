//! Reading and changing one of sixteen values.
ghost use Rattle.std.specs.Prelude.{◌≡◌, ◌<◌};
ghost use Rattle.std.specs.Borrow.{sem};
ghost use Rattle.arrayvec.specs.ArrayVec.{array_vec_len};
ghost use Rattle.arrayvec.specs.Lends.{lends_item};
ghost use Rattle.tables.specs.Sixteens.{value_at, lends_value};

use crate::sixteen::Sixteen;
use arrayvec::ArrayVec;

impl<T: Copy> Sixteen<T> {
    /// The same value sixteen times.
    pub(crate) fn filled(value: T) -> Sixteen<T>
        ensures { value_at result value ≡ (λ _. value) }
    {
        Sixteen {
            at: ArrayVec::from([value; 16]),
        }
    }

    /// The value at an index.
    pub fn find(&self, index: usize) -> T
        requires { index < 16 }
        ensures { (d : T) → result ≡ value_at self.now d index }
    {
        self.at[index]
    }

    /// The value at an index, lent to be changed.
    pub fn slot(&mut self, index: usize) -> &mut T
        requires { index < 16 }
        ensures* { sem 𝓛 (lends_value T.row self.entry index result) }
    {
        item_mut(&mut self.at, index)
    }
}

/// An item, lent to be changed. It is a function of its own since `slot`, whose struct has a ghost field, is proved only
/// where its body is one call.
fn item_mut<T, const N: usize, A>(items: &mut ArrayVec<T, N, A>, index: usize) -> &mut T
    requires { index < array_vec_len items.old }
    ensures* { sem 𝓛 (lends_item T.row N.row A.row items.entry index result) }
{
    items.get_mut(index).unwrap()
}
