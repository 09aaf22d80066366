//! Plain instructions: of a fixed length, and no invocations.

ghost use Rattle.std.specs.Prelude.{◌≡◌, ◌+◌, ◌<◌, length, IfSome};
ghost use Rattle.jl_code.specs.ForProofs.Plain.{plain_length, IsAfterPlain};

/// How many bytes a plain instruction takes, by its opcode (JVMS SE 17 §6.5); 0 if no plain instruction has the opcode.
static LENGTHS: [u8; 256] = [
    1, 1, 1, 1, 1, 1, 1, 1, 1, 1, 1, 1, 1, 1, 1, 1, 2, 3, 2, 3, 3, 2, 2, 2, 2, 2, 1, 1, 1, 1, 1, 1,
    1, 1, 1, 1, 1, 1, 1, 1, 1, 1, 1, 1, 1, 1, 1, 1, 1, 1, 1, 1, 1, 1, 2, 2, 2, 2, 2, 1, 1, 1, 1, 1,
    1, 1, 1, 1, 1, 1, 1, 1, 1, 1, 1, 1, 1, 1, 1, 1, 1, 1, 1, 1, 1, 1, 1, 1, 1, 1, 1, 1, 1, 1, 1, 1,
    1, 1, 1, 1, 1, 1, 1, 1, 1, 1, 1, 1, 1, 1, 1, 1, 1, 1, 1, 1, 1, 1, 1, 1, 1, 1, 1, 1, 1, 1, 1, 1,
    1, 1, 1, 1, 3, 1, 1, 1, 1, 1, 1, 1, 1, 1, 1, 1, 1, 1, 1, 1, 1, 1, 1, 1, 1, 3, 3, 3, 3, 3, 3, 3,
    3, 3, 3, 3, 3, 3, 3, 3, 3, 2, 0, 0, 1, 1, 1, 1, 1, 1, 3, 3, 3, 3, 0, 0, 0, 0, 0, 3, 2, 3, 1, 1,
    3, 3, 1, 1, 0, 4, 3, 3, 5, 5, 0, 0, 0, 0, 0, 0, 0, 0, 0, 0, 0, 0, 0, 0, 0, 0, 0, 0, 0, 0, 0, 0,
    0, 0, 0, 0, 0, 0, 0, 0, 0, 0, 0, 0, 0, 0, 0, 0, 0, 0, 0, 0, 0, 0, 0, 0, 0, 0, 0, 0, 0, 0, 0, 0,
];

/// How many bytes a plain instruction of this opcode takes; 0 if no plain instruction has it.
fn plain_length(opcode: u8) -> u8
    ensures { result ≡ plain_length opcode }
{
    LENGTHS[usize::from(opcode)]
}

/// What follows the plain instruction at the front, if a whole one stands there.
fn after_one(bytes: &[u8]) -> Option<&[u8]>
    ensures stands { IfSome result (λ rest. IsAfterPlain bytes.now rest.now) }
    ensures shorter { IfSome result (λ rest. length rest.now < length bytes.now) }
{
    let [opcode, after @ ..] = bytes else {
        return None;
    };
    let length = plain_length(*opcode);
    // Most take one byte. A branch that is foreseen needs no wait, while a length that is looked up has to be waited for.
    if length == 1 {
        return Some(after);
    }
    let length = usize::from(length);
    if length == 0 || length > bytes.len() {
        return None;
    }
    Some(&bytes[length..])
}

/// What follows the plain instructions at the front, none or more.
pub(crate) fn after_plain(bytes: &[u8]) -> &[u8]
    ensures { IsAfterPlain bytes.now result.now }
{
    let mut rest = bytes;
    while let Some(later) = after_one(rest) {
        rest = later;
    }
    rest
}
