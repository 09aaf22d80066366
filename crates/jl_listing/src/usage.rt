//! The usage of the subcommand.

use crate::report_words::command;
use std::alloc::{AllocError, Global};

// What is said of the option of this name, and of the paths.

pub(crate) const SITES: &str =
    "List each method that invokes, with its invocations, before the totals";

pub(crate) const JSON: &str =
    "Write each invocation as a line of JSON, and the totals as the last one; not with --sites";

pub(crate) const CLASSES: &str = "\
With --json, write a line for each class, too: its superclass, its
interfaces, its flags and the methods that it declares";

pub(crate) const ALL_RECEIVERS: &str = "\
Look at all receivers of megamorphic invocations, which are otherwise only
counted, and name the methods that run for them";

pub(crate) const ONLY: &str = "\
Take only invocations that come to FORM, which is direct, table, mega,
fault, waits or open; may come again, and any is enough";

pub(crate) const IN: &str = "\
Take only invocations in the classes whose names begin with PREFIX, as
java/util/ or java.util.; may come again, and any is enough";

pub(crate) const WITH: &str = "\
Class files that are there, too, and aren't reported; may come again. A
JDK's own classes are wanted: no class can be defined without
java/lang/Object, so a jar alone has nothing to report";

pub(crate) const BREAKS: &str = "\
Class files that are defined last: tells each link that such a class drops;
may come again";

pub(crate) const HTML: &str = "\
Write a page of HTML into FILE, besides, which may be none of the PATHs
nor below one";

pub(crate) const RELEASE: &str = "\
Read the class files of Java up to N, from 17 to 25, and to 25 without
this option; those above 17 are linked as Java 17 links its own";

pub(crate) const PATHS: &str =
    "Class files, and folders, of which all files are read whose names end in .class";

/// What stands after the options.
const AFTER: &str = "\
`linkd report --help` prints this. After a word `--` each word is a PATH.

To report a jar, unpack it and the classes of a JDK beside it:
  unzip -q app.jar -d app
  jimage extract --dir jdk \"$JAVA_HOME/lib/modules\"
  linkd report app --with jdk
Without unzip or jimage, tools/classes.py of the sources unpacks them:
  tools/classes.py app app.jar
  tools/classes.py jdk --jdk \"$JAVA_HOME\"

Examples, in crates/linkd of the sources:
  linkd report ../../rows/reports/classes/app --with ../../rows/reports/classes/lang
  linkd report --sites --only table ../../rows/reports/classes/app --with ../../rows/reports/classes/lang";

/// The usage of the subcommand, made by clap from what reads its words. It begins with this heading, and with what the subcommand is for.
///
/// # Errors
///
/// Want of memory.
pub fn report_usage(alloc: Global, heading: &str, about: &str) -> Result<String, AllocError> {
    command(alloc)?
        .bin_name("linkd report")?
        .before_help(heading)
        .about(about)
        .after_help(AFTER)
        .render_help()
}
