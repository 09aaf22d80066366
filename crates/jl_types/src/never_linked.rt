//! Which invocations are never linked.

ghost use Rattle.std.specs.Prelude.{◌≡◌};
ghost use Rattle.jl_types.specs.Events.Verdict as events;

use jl_class::Operand;
use jl_names::LentName;

/// Whether it names a method of an array type, as `clone` of an array is (JVMS SE 17 §4.4.1): no class file has it.
pub fn names_array(operand: &Operand<LentName<'_>>) -> bool
    ensures { result ≡ events.names_array operand.now }
{
    match operand {
        Operand::Method(reference) => reference.owner.as_slice().starts_with(b"[".as_slice()),
        Operand::CallSite(_) => false,
    }
}

/// Whether it names a method that any descriptor fits (JVMS SE 17 §2.9.3).
pub fn is_polymorphic(operand: &Operand<LentName<'_>>) -> bool
    ensures { result ≡ events.is_polymorphic operand.now }
{
    match operand {
        Operand::Method(reference) => {
            let owner = reference.owner.as_slice();
            owner == b"java/lang/invoke/MethodHandle".as_slice()
                || owner == b"java/lang/invoke/VarHandle".as_slice()
        }
        Operand::CallSite(_) => false,
    }
}
