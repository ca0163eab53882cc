//! [`Dropped`]: items that were dropped.

ghost use Rattle.std.specs.Prelude.{◌≡◌, List, [], ◌++◌, vec_capacity};
ghost use Rattle.std.specs.Borrow.{ftrue};

use std::marker::{Model, PhantomData};

/// Items that were dropped, oldest first. They take no memory: proofs alone read them.
#[derive(Drop)]
pub struct Dropped<T> {
    of: PhantomData<T>,
    pub ghost items: { List T },
}

impl<T> Model for Dropped<T> {
    ghost also_owns = { λ _. ftrue };
}

// They own nothing.
unsafe impl<T: Send> Send for Dropped<T> {}

unsafe impl<T: Sync> Sync for Dropped<T> {}

impl<T> Dropped<T> {
    /// None.
    pub fn new() -> Dropped<T>
        ensures { result.items ≡ [] }
    {
        Dropped { of: PhantomData }
    }

    /// These, and then those.
    pub fn and_all(&self, next: &[T]) -> Dropped<T>
        ensures { result.items ≡ self.now.items ++ next.now }
    {
        Dropped { of: PhantomData }
    }
}

impl<T: Drop> Dropped<T> {
    /// Forgets the items of a list, which is empty then and has its memory for others.
    #[inline(never)]
    pub(crate) fn take(&mut self, items: &mut Vec<T>)
        ensures dropped { self.new.items ≡ self.old.items ++ items.old.items }
        ensures empty { items.new.items ≡ [] }
        ensures memory { vec_capacity items.new ≡ vec_capacity items.old }
    {
        *self = self.and_all(items.as_slice());
        items.clear();
    }
}
