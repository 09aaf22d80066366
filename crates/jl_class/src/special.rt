//! Names of initializers (JVMS SE 17 §2.9).

ghost use Rattle.std.specs.Prelude.{◌≡◌};
ghost use Rattle.jl_class.specs.Special.{begins_special};

/// Whether the name is that of a class or an instance initializer (JVMS SE 17 §2.9): it begins with `<`. Takes no memory.
pub fn begins_special(name: &[u8]) -> bool
    ensures { result ≡ begins_special name.now }
{
    match name {
        [first, ..] => *first == b'<',
        [] => false,
    }
}
