// A list of a few values, held in place.

ghost use Rattle.std.specs.Prelude.{◌≤◌, length};

// At most N values, in the order in which they came.
// An array and a count, in place, since a baseline's days are such a list and take no memory. It is `Copy`, holds any `Copy` type,
// and must stay so for its callers: the kit's `ArrayVec` is not `Copy`, and asks for a default.
pub struct Short<T, const N: usize> {
    pub(crate) items: [T; N],
    pub(crate) count: usize,
    ghost within: { count ≤ N },
    ghost held: { count ≤ length items },
}

// By hand, with `Clone`: the derive of a generic type is refused beside ghost fields, and would not promise an equal list and no error.
impl<T: Copy, const N: usize> Copy for Short<T, N> {}
