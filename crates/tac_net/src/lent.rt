//! What is lent to a thread, to take out.

/// A place of which a thread has a borrow, and that it takes something out of. The closures of a
/// join can hold a borrow of a place whose type is a parameter, but not of an `Option` of a type
/// that is generic in one.
pub(crate) trait Lent {
    type Item;

    ghost use Rattle.std.specs.Prelude.{◌≡◌, Option};

    ghost item: { Self → Option Self.Item };

    /// Takes it out, where it is there.
    fn take_item(&mut self) -> Option<Self::Item>
        ensures { result ≡ item self.old };
}

impl<T> Lent for Option<T> {
    type Item = T;

    ghost item = { λ it. it };

    fn take_item(&mut self) -> Option<T> {
        self.take()
    }
}
