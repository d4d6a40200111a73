// Values that move from one list to another, where there is room for all.
ghost use Rattle.std.specs.Prelude.{◌≡◌, ◌<◌, ◌≤◌, ◌++◌, ◌∷◌, [], vec_len, vec_capacity};

/// Takes the first value out.
pub(crate) fn take_first<T>(list: &mut Vec<T>) -> T
    requires { 0 < vec_len list.old }
    ensures first { list.old.items ≡ result ∷ list.new.items }
    ensures room { vec_capacity list.new ≡ vec_capacity list.old }
{
    list.remove(0)
}

/// Appends a value, for which there is room.
pub(crate) fn put_last<T: Drop>(list: &mut Vec<T>, value: T)
    requires { vec_len list.old < vec_capacity list.old }
    ensures items { list.new.items ≡ list.old.items ++ value ∷ [] }
    ensures room { vec_capacity list.old ≤ vec_capacity list.new }
{
    list.push(value).unwrap();
}
