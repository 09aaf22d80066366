//! Names of classes, of members and of packages (JVMS SE 17 §4.2).

ghost use Rattle.std.specs.Prelude.{◌≡◌};
ghost use Rattle.jl_names.specs.ClassNames.{is_reserved, is_unqualified, is_class_name, package_of};
ghost use Rattle.jl_names.specs.ForProofs.Descriptors.{weight, is_stop};

/// Whether this is the name of a class or an interface in internal form (JVMS SE 17 §4.2.1):
/// unqualified names joined by `/`. Any other byte may stand in it. One pass, and no memory.
pub fn is_class_name(name: &[u8]) -> bool
    ensures { result ≡ is_class_name name.now }
{
    let mut fresh = true;
    for byte in name {
        if is_stop(fresh, *byte) {
            return false;
        }
        fresh = *byte == b'/';
    }
    !fresh
}

/// What each byte weighs in a class name: 2 if no name has it, 1 for a slash, which stands between parts.
static WEIGHTS: [u8; 256] = [
    0, 0, 0, 0, 0, 0, 0, 0, 0, 0, 0, 0, 0, 0, 0, 0, 0, 0, 0, 0, 0, 0, 0, 0, 0, 0, 0, 0, 0, 0, 0, 0,
    0, 0, 0, 0, 0, 0, 0, 0, 0, 0, 0, 0, 0, 0, 2, 1, 0, 0, 0, 0, 0, 0, 0, 0, 0, 0, 0, 2, 0, 0, 0, 0,
    0, 0, 0, 0, 0, 0, 0, 0, 0, 0, 0, 0, 0, 0, 0, 0, 0, 0, 0, 0, 0, 0, 0, 0, 0, 0, 0, 2, 0, 0, 0, 0,
    0, 0, 0, 0, 0, 0, 0, 0, 0, 0, 0, 0, 0, 0, 0, 0, 0, 0, 0, 0, 0, 0, 0, 0, 0, 0, 0, 0, 0, 0, 0, 0,
    0, 0, 0, 0, 0, 0, 0, 0, 0, 0, 0, 0, 0, 0, 0, 0, 0, 0, 0, 0, 0, 0, 0, 0, 0, 0, 0, 0, 0, 0, 0, 0,
    0, 0, 0, 0, 0, 0, 0, 0, 0, 0, 0, 0, 0, 0, 0, 0, 0, 0, 0, 0, 0, 0, 0, 0, 0, 0, 0, 0, 0, 0, 0, 0,
    0, 0, 0, 0, 0, 0, 0, 0, 0, 0, 0, 0, 0, 0, 0, 0, 0, 0, 0, 0, 0, 0, 0, 0, 0, 0, 0, 0, 0, 0, 0, 0,
    0, 0, 0, 0, 0, 0, 0, 0, 0, 0, 0, 0, 0, 0, 0, 0, 0, 0, 0, 0, 0, 0, 0, 0, 0, 0, 0, 0, 0, 0, 0, 0,
];

/// What a byte weighs in a class name.
fn weight(byte: u8) -> u8
    ensures { result ≡ weight byte }
{
    WEIGHTS[usize::from(byte)]
}

/// Whether a class name ends before this byte, or can't go on with it. `fresh`: a part of the name
/// begins here.
pub(crate) fn is_stop(fresh: bool, byte: u8) -> bool
    ensures { result ≡ is_stop fresh byte }
{
    weight(byte) + u8::from(fresh) >= 2
}

/// Whether this is an unqualified name (JVMS SE 17 §4.2.2): not empty, and without `.`, `;`, `[`
/// or `/`. Takes no memory.
pub fn is_unqualified(name: &[u8]) -> bool
    ensures { result ≡ is_unqualified name.now }
{
    !name.is_empty() && name.iter().all(|byte| !is_reserved(*byte))
}

/// Whether no unqualified name has this byte.
fn is_reserved(byte: u8) -> bool
    ensures { result ≡ is_reserved byte }
{
    // Small letters, of which names mostly consist, are greater than all of these.
    byte <= b'[' && (byte == b'.' || byte == b';' || byte == b'[' || byte == b'/')
}

/// The name of the package of the class of this name: what stands before the last `/`. It is empty
/// if there is no `/`. Takes no memory.
pub fn package_of(name: &[u8]) -> &[u8]
    ensures { result.now ≡ package_of name.now }
{
    match name.iter().rposition(|byte| *byte == b'/') {
        Some(slash) => &name[..slash],
        None => &[],
    }
}
