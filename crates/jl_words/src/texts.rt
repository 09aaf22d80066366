//! What the usages say.

/// What the program is for.
pub(crate) const PROGRAM: &str =
    "Tells which method a call of the JVM runs, now: a proved devirtualizing linker.";

/// What stands after the subcommands.
pub(crate) const AFTER_PROGRAM: &str = "\
`linkd help COMMAND` and `linkd COMMAND --help` print what a command takes. All but report read
lines from the standard input, and answer each of them by a line on the standard output.

Examples, in crates/linkd of the sources:
  linkd scan < ../../examples/object.hex
  linkd run < ../../examples/commands.jsonl
  linkd report ../../rows/reports/classes/app --with ../../rows/reports/classes/lang";

/// What the subcommand `scan` is for.
pub(crate) const SCAN: &str = "Reads class files, and tells what each declares and invokes";

/// What stands after its usage.
pub(crate) const AFTER_SCAN: &str = "\
Each line of the input is a class file in hexadecimal digits. It is answered by a line of JSON:
the class with its methods and the invocations in their codes, or why the file is refused.
`linkd scan --help` prints this.

Examples, in crates/linkd of the sources:
  linkd scan < ../../examples/object.hex
  od -An -v -tx1 ../../rows/reports/classes/app/Shapes.class | tr -d ' \\n' | linkd scan";

/// What the subcommand `sketch` is for.
pub(crate) const SKETCH: &str = "Writes small class files, each of which is said in JSON";

/// What stands after its usage.
pub(crate) const AFTER_SKETCH: &str = "\
Each line of the input is a sketch: a class with its name, flags, super, interfaces and methods,
as JSON (docs/FORMATS.md, \"Sketches\"). It is answered by the class file in hexadecimal digits, or
by why it is refused.
`linkd sketch --help` prints this.

Examples, in crates/linkd of the sources:
  linkd sketch < ../../examples/sketches.jsonl
  linkd sketch < ../../examples/sketches.jsonl | linkd scan";

/// What the subcommand `run` is for.
pub(crate) const RUN: &str = "Obeys commands: defines classes, links invocations and answers calls";

/// What stands after its usage.
pub(crate) const AFTER_RUN: &str = "\
Each line of the input is a command in JSON, whose key \"do\" is loader, define, delegate, request,
prepare, install, call, links, callsite, target, switch, invalidate, bind or retire
(docs/FORMATS.md, \"Commands\"). It is answered by a line of JSON, which tells the installed links
that it dropped.
`linkd run --help` prints this.

Examples, in crates/linkd of the sources:
  linkd run < ../../examples/commands.jsonl
  cat ../../examples/commands.jsonl ../../examples/call_sites.jsonl | linkd run";

/// What the subcommand `farm` is for.
pub(crate) const FARM: &str =
    "Obeys commands, and then links all requested invocations in several threads";

/// What stands after its usage.
pub(crate) const AFTER_FARM: &str = "\
The commands are those of `linkd run` without prepare, install, call and links. After the last
answer a line of JSON tells the installed links, and what came of each requested invocation.
`linkd farm --help` prints this.

Examples, in crates/linkd of the sources:
  grep -v -e prepare -e install -e '\"call\"' ../../examples/commands.jsonl | linkd farm --workers 4";
