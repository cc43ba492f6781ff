//! Sixteen values, numbered from 0 on.
ghost use Rattle.std.specs.Prelude.{◌≡◌};
ghost use Rattle.arrayvec.specs.ArrayVec.{array_vec_len};

use arrayvec::ArrayVec;

mod methods;

/// Sixteen values, numbered from 0 on. They lie in an `ArrayVec`, since the check proves no lent element of an array
/// whose items are of a type parameter.
#[derive(Drop)]
pub struct Sixteen<T> {
    pub(crate) at: ArrayVec<T, 16>,
    ghost full: { array_vec_len at ≡ 16 },
}
