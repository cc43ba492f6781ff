//! What a known number stands for.
ghost use Rattle.std.specs.Prelude.{◌≡◌};
ghost use Rattle.tables.specs.Forgotten.{forgotten};

/// What a known number stands for: nothing yet, an object, or one that is no more.
#[derive(Clone, Copy, PartialEq, Eq, Debug)]
pub enum Known {
    Free,
    Means(usize),
    Gone,
}

impl Known {
    /// The number, or gone where it means a marked object.
    pub(crate) fn without(self, marks: &[bool]) -> Known
        ensures { result ≡ forgotten marks.now self }
    {
        match self {
            Known::Means(object) if marks.get(object).copied().unwrap_or(false) => Known::Gone,
            Known::Free | Known::Means(_) | Known::Gone => self,
        }
    }
}
