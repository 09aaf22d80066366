//! What a command is answered: a class, a loader, a site by its number, a method by its class and its number there, what is refused by the
//! name of the fault, and nothing as `None`.

use jl_names::Name;
use jl_types::{
    Answer, CallSiteFault, ClassId, DefineFault, Key, Link, MethodId, OrMemory, Outcome,
};
use std::alloc::{AllocError, Global};
use std::fmt::{Debug, Write};
use std::str;

/// The answer so far, with a blank after each part. It notes whether there is no such command, or no such part of it, and whether memory
/// was wanting. So what tells has no exits, and whoever reads a word that is none notes it here.
pub(crate) struct Told {
    alloc: Global,
    text: String,
    is_none: bool,
    lacks: bool,
}

/// Written out, so that what drops one makes one call of it and doesn't take apart what it holds.
impl Drop for Told {
    fn drop(self) {
        let Told {
            alloc: _alloc,
            text: _text,
            is_none: _is_none,
            lacks: _lacks,
        } = self;
    }
}

impl Told {
    /// Nothing is told.
    pub(crate) fn new(alloc: Global) -> Self {
        Told {
            alloc,
            text: String::new(alloc),
            is_none: false,
            lacks: false,
        }
    }

    /// Where memory comes from.
    pub(crate) fn alloc(&self) -> Global {
        self.alloc
    }

    /// Notes that there is no such command, or no such part of it.
    pub(crate) fn refuse(&mut self) {
        self.is_none = true;
    }

    /// Notes that there is no such command, or no such part of it, unless this is so.
    pub(crate) fn refuse_unless(&mut self, is_so: bool) {
        self.is_none |= !is_so;
    }

    /// Notes that memory was wanting.
    pub(crate) fn lack(&mut self) {
        self.lacks = true;
    }

    /// Forgets the answer so far.
    pub(crate) fn clear(&mut self) {
        self.text.clear();
    }

    /// Whether the answer so far is that a call of a host is done.
    pub(crate) fn is_done(&self) -> bool {
        self.text.starts_with("DONE")
    }

    /// The whole answer.
    pub(crate) fn answer(&self) -> Result<&str, AllocError> {
        if self.is_none {
            Ok("no command")
        } else if self.lacks {
            Err(AllocError)
        } else {
            Ok(self.text.trim())
        }
    }

    /// Tells a text as it is.
    pub(crate) fn put(&mut self, text: &str) {
        self.lacks |= self.text.push_str(text).is_err();
    }

    /// Tells a word, and a blank after it.
    pub(crate) fn word(&mut self, word: &str) {
        self.put(word);
        self.put(" ");
    }

    /// Tells words, in order.
    pub(crate) fn words(&mut self, words: &[&str]) {
        for word in words {
            self.word(word);
        }
    }

    /// Tells a name as it is.
    pub(crate) fn name(&mut self, name: &[u8]) {
        self.put(str::from_utf8(name).unwrap_or("?"));
    }

    /// Tells a number as it is.
    pub(crate) fn number(&mut self, number: u32) {
        self.lacks |= write!(self.text, "{number}").is_err();
    }

    /// Tells a number after a word.
    fn numbered(&mut self, word: &str, number: u32) {
        self.put(word);
        self.number(number);
    }

    /// Tells a number, a test's answer, a fault by its name.
    pub(crate) fn show<D: Debug>(&mut self, part: &D) {
        self.lacks |= write!(self.text, "{part:?} ").is_err();
    }

    /// Tells a class, if there is one.
    pub(crate) fn class(&mut self, class: Option<ClassId>) {
        match class {
            Some(class) => self.show(&class.number()),
            None => self.put("None"),
        }
    }

    /// Tells classes, in order.
    pub(crate) fn classes(&mut self, classes: &[ClassId]) {
        for class in classes {
            self.show(&class.number());
        }
    }

    /// Tells a method.
    pub(crate) fn method(&mut self, method: MethodId) {
        self.number(method.class.number());
        self.put(".");
        self.show(&method.index);
    }

    /// Tells a method, if there is one.
    pub(crate) fn found(&mut self, found: Option<MethodId>) {
        match found {
            Some(found) => self.method(found),
            None => self.put("None"),
        }
    }

    /// Tells of a fault with a name in it.
    fn naming(&mut self, fault: &str, name: &Name) {
        self.put(fault);
        self.name(name.as_slice());
    }

    /// Tells the defined class, or why there is none.
    pub(crate) fn definition(&mut self, answer: Result<ClassId, OrMemory<DefineFault>>) {
        match answer {
            Ok(class) => self.show(&class.number()),
            Err(OrMemory::Fault(fault)) => match &fault {
                DefineFault::MissingParent(name) => self.naming("MissingParent ", name),
                DefineFault::NotAnInterface(name) => self.naming("NotAnInterface ", name),
                DefineFault::InaccessibleParent(name) => self.naming("InaccessibleParent ", name),
                _ => self.show(&fault),
            },
            Err(OrMemory::Memory) => self.lack(),
        }
    }

    /// Tells why a call site or a switch point isn't changed.
    pub(crate) fn call_site_fault(&mut self, fault: CallSiteFault) {
        match fault {
            CallSiteFault::InvokerOrder(site) => self.numbered("InvokerOrder ", site.number()),
            _ => self.show(&fault),
        }
    }

    /// Tells why a call site or a switch point isn't made.
    pub(crate) fn not_made(&mut self, fault: OrMemory<CallSiteFault>) {
        match fault {
            OrMemory::Fault(fault) => self.call_site_fault(fault),
            OrMemory::Memory => self.lack(),
        }
    }

    /// Tells the method that is run, or what is thrown.
    pub(crate) fn outcome(&mut self, outcome: Outcome) {
        match outcome {
            Outcome::Run(found) => self.method(found),
            Outcome::Throws(throwable) => self.show(&throwable),
        }
    }

    /// Tells a link, by its kind.
    pub(crate) fn link(&mut self, link: &Link) {
        match link {
            Link::Fault(throwable) => {
                self.put("Fault ");
                self.show(throwable);
            }
            Link::Plain(found) => {
                self.put("Plain ");
                self.method(*found);
            }
            Link::Direct(outcome) => {
                self.put("Direct ");
                self.outcome(*outcome);
            }
            Link::Table(kind, rows) => {
                self.show(kind);
                for (class, outcome) in rows.as_slice() {
                    self.number(class.number());
                    self.put(":");
                    self.outcome(*outcome);
                }
            }
            Link::Mega => self.put("Mega"),
        }
    }

    /// Tells the answer to a call.
    pub(crate) fn call(&mut self, answer: Answer) {
        match answer {
            Answer::Run(found) => self.method(found),
            Answer::Throws(throwable) => self.show(&throwable),
            Answer::BadReceiver => self.put("BadReceiver "),
            Answer::Unlinked(unlinked) => self.show(&unlinked),
        }
    }

    /// Tells a key, after a comma if it isn't the first one.
    fn key(&mut self, kind: &str, number: u32) {
        if !self.text.is_empty() {
            self.put(", ");
        }
        self.numbered(kind, number);
    }

    /// Tells keys, in order.
    pub(crate) fn keys(&mut self, keys: &[Key]) {
        for key in keys {
            match key {
                Key::Receivers(class) => self.key("Receivers ", class.number()),
                Key::Target(site) => self.key("Target ", site.number()),
                Key::Valid(point) => self.key("Valid ", point.number()),
            }
        }
    }
}
