//! A stack of numbers that are free.
ghost use Rattle.std.specs.Prelude.{◌≤◌, vec_len};

mod methods;

/// A stack of numbers that are free. It has room for a fixed count of them.
#[derive(Drop)]
pub struct Stack {
    at: Vec<usize>,
    height: usize,
    ghost bounded: { height ≤ vec_len at },
}
