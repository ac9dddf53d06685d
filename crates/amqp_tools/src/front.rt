//! The front of a list, let go.

ghost use Rattle.std.specs.Prelude.{◌≡◌, ◌≤◌, drop, length};

/// Lets so many elements at the front of a list go.
pub(crate) fn let_go<T: Drop>(list: &mut Vec<T>, count: usize)
    requires { count ≤ length list.old.items }
    ensures { list.new.items ≡ drop count list.old.items }
{
    let left = list.len() - count;
    list.as_mut_slice().rotate_left(count);
    list.truncate(left);
}
