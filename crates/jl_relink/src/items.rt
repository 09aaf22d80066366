//! Lists that are made item by item.

ghost use Rattle.std.specs.Prelude.{◌≡◌, ◌+◌, ◌≤◌, [], Ok, length, IfErr, OnOk};
ghost use Rattle.std.specs.Fn.{FnReturnsAt};
ghost use Rattle.std.specs.List.{AllZip};
ghost use Rattle.std.specs.Vec.{vec_len, vec_capacity};
ghost use Rattle.jl_relink.specs.ForProofs.Fills.{FailsFirst};

/// Fills an empty list, which has room for it, with what `make` gives for each item, in order. The first error ends it.
pub fn fill<T, U: Drop, E: Drop, F: Fn(&T) -> Result<U, E>>(
    items: &[T],
    made: &mut Vec<U>,
    make: F,
) -> Result<(), E>
    requires callable { F.IsAlwaysCallable make }
    requires empty { made.old.items ≡ [] }
    requires room { vec_len made.old + length items.now ≤ vec_capacity made.old }
    ensures made { OnOk result (AllZip (λ item one. FnReturnsAt F.Fn make item (Ok one)) items.now made.new.items) }
    ensures first { IfErr result (FailsFirst F.Fn make items.now) }
{
    for item in items {
        let one = make(item)?;
        made.push_reserved(one);
    }
    Ok(())
}
