//! Commands and sketches as JSON: each form once. Lines that are none are rows of `rows/sessions`.

use jl_json::{
    each_command_is_read, each_sketch_is_read, each_target_is_read, no_other_keys,
    no_other_sketch_keys, no_other_target_keys, read_command, read_sketch, types_are_descriptors,
};
use serde_json::Value;
use std::alloc::{AllocError, Global};
use std::process::Abort;

/// Values, and how the commands print that they are.
const COMMANDS: &[(&str, &str)] = &[
    (
        r#"{"do":"define","loader":0,"hex":"cAFe"}"#,
        "Some(Apply(Define(LoaderId(0), File(Seq { items: [202, 254] }))))",
    ),
    (
        r#"{"do":"define","loader":1,"sketch":{"name":"M","flags":33}}"#,
        r#"Some(Apply(Define(LoaderId(1), Sketch(Sketch { name: b"M", flags: 33, superclass: None, interfaces: Seq { items: [] }, methods: Seq { items: [] }, host: None, members: Seq { items: [] } }))))"#,
    ),
    (r#"{"do":"loader"}"#, "Some(Apply(NewLoader))"),
    // A text becomes modified UTF-8: the two bytes of the zero.
    (
        r#"{"do":"delegate","loader":2,"name":"A\u0000","to":4294967295}"#,
        r#"Some(Apply(Delegate(LoaderId(2), b"A\xc0\x80", LoaderId(4294967295))))"#,
    ),
    (
        r#"{"do":"request","class":65536,"method":65535,"pc":65536}"#,
        "Some(Apply(Request(Place { class: ClassId(65536), method: 65535, pc: 65536 })))",
    ),
    (
        r#"{"do":"prepare","sites":[3,0]}"#,
        "Some(Prepare(Seq { items: [SiteNo(3), SiteNo(0)] }))",
    ),
    (
        r#"{"do":"install","prepared":4294967295}"#,
        "Some(Apply(Install(4294967295)))",
    ),
    (r#"{"do":"call","site":2}"#, "Some(Call(SiteNo(2), Null))"),
    (
        r#"{"recv":null,"site":2,"do":"call"}"#,
        "Some(Call(SiteNo(2), Null))",
    ),
    (
        r#"{"do":"call","site":2,"recv":1}"#,
        "Some(Call(SiteNo(2), Of(ClassId(1))))",
    ),
    (r#"{"do":"links"}"#, "Some(Links)"),
];

/// Commands of call sites and switch points, and how they print.
const CALL_SITES: &[(&str, &str)] = &[
    (
        r#"{"do":"callsite","kind":"mutable","type":"()V","target":{"method":[0,1]}}"#,
        r#"Some(Apply(NewCallSite(Mutable, b"()V", Target { part: Method(MethodId { class: ClassId(0), index: 1 }) })))"#,
    ),
    (
        r#"{"type":"(J[DLA;I)D","target":{"method":[4294967295,65535]},"kind":"constant","do":"callsite"}"#,
        r#"Some(Apply(NewCallSite(Constant, b"(J[DLA;I)D", Target { part: Method(MethodId { class: ClassId(4294967295), index: 65535 }) })))"#,
    ),
    (
        r#"{"do":"callsite","kind":"volatile","type":"()I","target":{"guard":4294967295,"target":{"method":[1,2]},"fallback":{"fallback":{"method":[3,4]},"guard":0,"target":{"method":[5,6]}}}}"#,
        r#"Some(Apply(NewCallSite(Volatile, b"()I", Target { part: Guard(SwitchId(4294967295), Target { part: Method(MethodId { class: ClassId(1), index: 2 }) }, Target { part: Guard(SwitchId(0), Target { part: Method(MethodId { class: ClassId(5), index: 6 }) }, Target { part: Method(MethodId { class: ClassId(3), index: 4 }) }) }) })))"#,
    ),
    // Two bytes for the zero; and 255 slots.
    (
        r#"{"do":"callsite","kind":"mutable","type":"(L\u0000;)V","target":{"method":[0,1]}}"#,
        r#"Some(Apply(NewCallSite(Mutable, b"(L\xc0\x80;)V", Target { part: Method(MethodId { class: ClassId(0), index: 1 }) })))"#,
    ),
    (
        r#"{"do":"callsite","kind":"mutable","type":"(JJJJJJJJJJJJJJJJJJJJJJJJJJJJJJJJJJJJJJJJJJJJJJJJJJJJJJJJJJJJJJJJJJJJJJJJJJJJJJJJJJJJJJJJJJJJJJJJJJJJJJJJJJJJJJJJJJJJJJJJJJJJJJJI)V","target":{"method":[0,1]}}"#,
        r#"Some(Apply(NewCallSite(Mutable, b"(JJJJJJJJJJJJJJJJJJJJJJJJJJJJJJJJJJJJJJJJJJJJJJJJJJJJJJJJJJJJJJJJJJJJJJJJJJJJJJJJJJJJJJJJJJJJJJJJJJJJJJJJJJJJJJJJJJJJJJJJJJJJJJJI)V", Target { part: Method(MethodId { class: ClassId(0), index: 1 }) })))"#,
    ),
    (
        r#"{"do":"target","callsite":4294967295,"target":{"method":[0,0]}}"#,
        r#"Some(Apply(SetTarget(CallSiteId(4294967295), Target { part: Method(MethodId { class: ClassId(0), index: 0 }) })))"#,
    ),
    (
        r#"{"target":{"guard":1,"target":{"guard":2,"target":{"method":[0,0]},"fallback":{"method":[0,1]}},"fallback":{"method":[0,2]}},"callsite":0,"do":"target"}"#,
        r#"Some(Apply(SetTarget(CallSiteId(0), Target { part: Guard(SwitchId(1), Target { part: Guard(SwitchId(2), Target { part: Method(MethodId { class: ClassId(0), index: 0 }) }, Target { part: Method(MethodId { class: ClassId(0), index: 1 }) }) }, Target { part: Method(MethodId { class: ClassId(0), index: 2 }) }) })))"#,
    ),
    (
        r#"{"do":"target","callsite":3,"target":{"invoker":2}}"#,
        r#"Some(Apply(SetTarget(CallSiteId(3), Target { part: Invoker(CallSiteId(2)) })))"#,
    ),
    (
        r#"{"do":"callsite","kind":"constant","type":"()V","target":{"fallback":{"invoker":4294967295},"guard":0,"target":{"invoker":0}}}"#,
        r#"Some(Apply(NewCallSite(Constant, b"()V", Target { part: Guard(SwitchId(0), Target { part: Invoker(CallSiteId(0)) }, Target { part: Invoker(CallSiteId(4294967295)) }) })))"#,
    ),
    // Of equal keys the last one.
    (
        r#"{"do":"target","callsite":0,"target":{"method":0,"method":[0,1]}}"#,
        r#"Some(Apply(SetTarget(CallSiteId(0), Target { part: Method(MethodId { class: ClassId(0), index: 1 }) })))"#,
    ),
    (r#"{"do":"switch"}"#, r#"Some(Apply(NewSwitch))"#),
    (
        r#"{"do":"invalidate","switches":[]}"#,
        r#"Some(Apply(Invalidate(Seq { items: [] })))"#,
    ),
    (
        r#"{"do":"invalidate","switches":[3,0,3,4294967295]}"#,
        r#"Some(Apply(Invalidate(Seq { items: [SwitchId(3), SwitchId(0), SwitchId(3), SwitchId(4294967295)] })))"#,
    ),
    (
        r#"{"do":"bind","site":2,"callsite":3}"#,
        r#"Some(Apply(Bind(SiteNo(2), CallSiteId(3))))"#,
    ),
    (
        r#"{"site":1,"callsite":4294967295,"do":"bind","site":4294967295}"#,
        r#"Some(Apply(Bind(SiteNo(4294967295), CallSiteId(4294967295))))"#,
    ),
];

/// Definitions by sketches, and how they print.
const SKETCHES: &[(&str, &str)] = &[
    (
        r#"{"do":"define","loader":0,"sketch":{"name":"M","super":"java/lang/Object","flags":33,"methods":[{"name":"run","type":"()V","flags":9,"calls":[{"kind":"invokevirtual","of":"A","name":"f","type":"()V"}]}]}}"#,
        r#"Some(Apply(Define(LoaderId(0), Sketch(Sketch { name: b"M", flags: 33, superclass: Some(b"java/lang/Object"), interfaces: Seq { items: [] }, methods: Seq { items: [SketchMethod { name: b"run", ty: b"()V", flags: 9, calls: Seq { items: [Virtual(MethodName { owner: b"A", name: b"f", ty: b"()V" })] } }] }, host: None, members: Seq { items: [] } }))))"#,
    ),
    (
        r#"{"do":"define","loader":0,"sketch":{"name":"I","flags":1537,"interfaces":["J"],"host":"H","members":["K","L"]}}"#,
        r#"Some(Apply(Define(LoaderId(0), Sketch(Sketch { name: b"I", flags: 1537, superclass: None, interfaces: Seq { items: [b"J"] }, methods: Seq { items: [] }, host: Some(b"H"), members: Seq { items: [b"K", b"L"] } }))))"#,
    ),
    (
        r#"{"do":"define","loader":0,"sketch":{"name":"M","flags":33,"methods":[{"name":"m","type":"()V","flags":1,"calls":[{"name":"f","type":")","kind":"invokevirtual","of":"A"}]}]}}"#,
        r#"Some(Apply(Define(LoaderId(0), Sketch(Sketch { name: b"M", flags: 33, superclass: None, interfaces: Seq { items: [] }, methods: Seq { items: [SketchMethod { name: b"m", ty: b"()V", flags: 1, calls: Seq { items: [Virtual(MethodName { owner: b"A", name: b"f", ty: b")" })] } }] }, host: None, members: Seq { items: [] } }))))"#,
    ),
    (
        r#"{"do":"define","loader":0,"sketch":{"name":"M","flags":33,"methods":[{"name":"m","type":"()V","flags":1,"calls":[{"name":"f","type":")","kind":"invokespecial","of":"A"}]}]}}"#,
        r#"Some(Apply(Define(LoaderId(0), Sketch(Sketch { name: b"M", flags: 33, superclass: None, interfaces: Seq { items: [] }, methods: Seq { items: [SketchMethod { name: b"m", ty: b"()V", flags: 1, calls: Seq { items: [Special(false, MethodName { owner: b"A", name: b"f", ty: b")" })] } }] }, host: None, members: Seq { items: [] } }))))"#,
    ),
    (
        r#"{"do":"define","loader":0,"sketch":{"name":"M","flags":33,"methods":[{"name":"m","type":"()V","flags":1,"calls":[{"name":"f","type":")","kind":"invokespecial","of":"A","itf":true}]}]}}"#,
        r#"Some(Apply(Define(LoaderId(0), Sketch(Sketch { name: b"M", flags: 33, superclass: None, interfaces: Seq { items: [] }, methods: Seq { items: [SketchMethod { name: b"m", ty: b"()V", flags: 1, calls: Seq { items: [Special(true, MethodName { owner: b"A", name: b"f", ty: b")" })] } }] }, host: None, members: Seq { items: [] } }))))"#,
    ),
    (
        r#"{"do":"define","loader":0,"sketch":{"name":"M","flags":33,"methods":[{"name":"m","type":"()V","flags":1,"calls":[{"name":"f","type":")","kind":"invokestatic","of":"A","itf":false}]}]}}"#,
        r#"Some(Apply(Define(LoaderId(0), Sketch(Sketch { name: b"M", flags: 33, superclass: None, interfaces: Seq { items: [] }, methods: Seq { items: [SketchMethod { name: b"m", ty: b"()V", flags: 1, calls: Seq { items: [Static(false, MethodName { owner: b"A", name: b"f", ty: b")" })] } }] }, host: None, members: Seq { items: [] } }))))"#,
    ),
    (
        r#"{"do":"define","loader":0,"sketch":{"name":"M","flags":33,"methods":[{"name":"m","type":"()V","flags":1,"calls":[{"name":"f","type":")","kind":"invokeinterface","of":"A"}]}]}}"#,
        r#"Some(Apply(Define(LoaderId(0), Sketch(Sketch { name: b"M", flags: 33, superclass: None, interfaces: Seq { items: [] }, methods: Seq { items: [SketchMethod { name: b"m", ty: b"()V", flags: 1, calls: Seq { items: [Interface(MethodName { owner: b"A", name: b"f", ty: b")" })] } }] }, host: None, members: Seq { items: [] } }))))"#,
    ),
    (
        r#"{"do":"define","loader":0,"sketch":{"name":"M","flags":33,"methods":[{"name":"m","type":"()V","flags":1,"calls":[{"kind":"invokedynamic","name":"f","type":")"}]}]}}"#,
        r#"Some(Apply(Define(LoaderId(0), Sketch(Sketch { name: b"M", flags: 33, superclass: None, interfaces: Seq { items: [] }, methods: Seq { items: [SketchMethod { name: b"m", ty: b"()V", flags: 1, calls: Seq { items: [Dynamic(b"f", b")")] } }] }, host: None, members: Seq { items: [] } }))))"#,
    ),
    // A text becomes modified UTF-8.
    (
        r#"{"do":"define","loader":0,"sketch":{"name":"\u0000","flags":0}}"#,
        r#"Some(Apply(Define(LoaderId(0), Sketch(Sketch { name: b"\xc0\x80", flags: 0, superclass: None, interfaces: Seq { items: [] }, methods: Seq { items: [] }, host: None, members: Seq { items: [] } }))))"#,
    ),
    (
        r#"{"do":"define","loader":0,"sketch":{"name":"\ud83d\ude00","flags":0}}"#,
        r#"Some(Apply(Define(LoaderId(0), Sketch(Sketch { name: b"\xed\xa0\xbd\xed\xb8\x80", flags: 0, superclass: None, interfaces: Seq { items: [] }, methods: Seq { items: [] }, host: None, members: Seq { items: [] } }))))"#,
    ),
    (
        "{\"do\":\"define\",\"loader\":0,\"sketch\":{\"name\":\"\u{1f600}\",\"flags\":0}}",
        r#"Some(Apply(Define(LoaderId(0), Sketch(Sketch { name: b"\xed\xa0\xbd\xed\xb8\x80", flags: 0, superclass: None, interfaces: Seq { items: [] }, methods: Seq { items: [] }, host: None, members: Seq { items: [] } }))))"#,
    ),
    (
        "{\"do\":\"define\",\"loader\":0,\"sketch\":{\"name\":\"a\u{e9}\",\"flags\":0}}",
        r#"Some(Apply(Define(LoaderId(0), Sketch(Sketch { name: b"a\xc3\xa9", flags: 0, superclass: None, interfaces: Seq { items: [] }, methods: Seq { items: [] }, host: None, members: Seq { items: [] } }))))"#,
    ),
];

/// How the command prints that the value is, or none.
fn shown(alloc: Global, value: &Value) -> Result<String, AllocError> {
    let command = read_command(alloc, value)?;
    format!(in alloc; "{command:?}")
}

/// Whether the text is a command that prints so.
fn is_printed(alloc: Global, text: &str, want: &str) -> bool {
    let Ok(value) = Value::from_str(alloc, text) else {
        return false;
    };
    match shown(alloc, &value) {
        Ok(told) => told.as_str() == want,
        Err(_) => false,
    }
}

/// Asserts that the texts are commands that print so.
fn assert_printed(rt: &(impl Abort + AllocGlobal), rows: &[(&str, &str)]) {
    for (text, want) in rows {
        assert!(rt; is_printed(rt.alloc(), text, want), "{text}");
    }
}

/// Whether the text is a sketch.
fn is_sketch(alloc: Global, text: &str) -> bool {
    let Ok(value) = Value::from_str(alloc, text) else {
        return false;
    };
    match read_sketch(alloc, &value) {
        Ok(sketch) => sketch.is_some(),
        Err(_) => false,
    }
}

#[test]
fn commands(rt: HostRuntime) {
    each_command_is_read();
    no_other_keys();
    each_target_is_read();
    no_other_target_keys();
    types_are_descriptors();
    each_sketch_is_read();
    no_other_sketch_keys();
    assert_printed(&rt, COMMANDS);
    assert_printed(&rt, CALL_SITES);
    assert_printed(&rt, SKETCHES);
    assert!(rt; is_sketch(rt.alloc(), r#"{"name":"M","flags":33}"#));
}
