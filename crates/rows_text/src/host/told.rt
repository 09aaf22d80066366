//! What calls of a host write, as words. An out place that nothing was written to tells nothing.

use crate::host::names::{ANSWER_KINDS, LINK_KINDS, causes_of, faults_of, name, status, values_of};
use crate::told::Told;
use jl_host::{CallAnswer, GONE, LinkShown, Row};

/// What stands in an out place before the call.
pub(crate) const UNTOUCHED: u32 = 0x7777_7777;

/// The same of a length.
pub(crate) const NO_LENGTH: usize = 0x7777_7777;

/// The same of a byte.
pub(crate) const NO_BYTE: u8 = 0x77;

/// An event's out place before the call.
pub(crate) fn untold() -> jl_host::Told {
    jl_host::Told {
        number: UNTOUCHED,
        fault: UNTOUCHED,
        place: UNTOUCHED,
        cause: UNTOUCHED,
        at: UNTOUCHED,
        dropped: UNTOUCHED,
    }
}

/// An answer's out place before the call.
pub(crate) fn unanswered() -> CallAnswer {
    CallAnswer {
        kind: UNTOUCHED,
        class_number: UNTOUCHED,
        value: UNTOUCHED,
    }
}

/// A link's out place before the call.
pub(crate) fn unshown() -> LinkShown {
    let row = Row {
        receiver: UNTOUCHED,
        kind: UNTOUCHED,
        class_number: UNTOUCHED,
        value: UNTOUCHED,
    };
    LinkShown {
        kind: UNTOUCHED,
        count: UNTOUCHED,
        rows: [row; 8],
    }
}

/// Tells the number after the word.
pub(crate) fn after(told: &mut Told, word: &str, number: u32) {
    told.word(word);
    told.show(&number);
}

/// Tells the number after the word, unless it is 0.
fn if_any(told: &mut Told, word: &str, number: u32) {
    if number != 0 {
        after(told, word, number);
    }
}

/// Tells a method by its class and its number there.
pub(crate) fn method(told: &mut Told, class: u32, method: u32) {
    told.number(class);
    told.put(".");
    told.show(&method);
}

/// Tells an event: its status and fault, the number of what it made or found, of which this is the word, and each other number that isn't 0.
pub(crate) fn event(told: &mut Told, made: &str, code: u32, event: &jl_host::Told) {
    let by_status = status(told, code);
    let faults = faults_of(code);
    let place = if event.fault == 0 && faults.is_empty() {
        by_status
    } else {
        name(told, faults, event.fault)
    };
    if made.is_empty() {
        if_any(told, "number", event.number);
    } else if code == 0 || event.number != 0 {
        after(told, made, event.number);
    }
    if event.cause != 0 {
        name(told, causes_of(event.fault), event.cause);
    }
    if place.is_empty() {
        if_any(told, "at", event.place);
    } else {
        told.word("at");
        after(told, place, event.place);
    }
    if_any(told, "pc", event.at);
    if_any(told, "dropped", event.dropped);
}

/// Tells what a call comes to.
fn outcome(told: &mut Told, kind: u32, class: u32, value: u32) {
    name(told, ANSWER_KINDS, kind);
    if kind == 0 {
        return method(told, class, value);
    }
    if_any(told, "class", class);
    let values = values_of(kind);
    if value != 0 || !values.is_empty() {
        name(told, values, value);
    }
}

/// Tells a call: its status, and what it comes to.
pub(crate) fn call(told: &mut Told, code: u32, answer: &CallAnswer) {
    status(told, code);
    if *answer != unanswered() {
        outcome(told, answer.kind, answer.class_number, answer.value);
    }
}

/// Whether the row has this number everywhere.
fn is_all(row: &Row, number: u32) -> bool {
    row.receiver == number
        && row.kind == number
        && row.class_number == number
        && row.value == number
}

/// Tells the rows of a link that say something. The others are 0.
fn rows(told: &mut Told, link: &LinkShown) {
    for (place, row) in link.rows.iter().enumerate() {
        if link.count as usize <= place {
            told.refuse_unless(is_all(row, 0));
        } else {
            if link.kind == 4 || link.kind == 5 || row.receiver != 0 {
                told.number(row.receiver);
                told.put(": ");
            }
            outcome(told, row.kind, row.class_number, row.value);
        }
    }
}

/// Tells a link, if one was written.
pub(crate) fn link(told: &mut Told, link: &LinkShown) {
    if link.kind == UNTOUCHED && link.count == UNTOUCHED {
        for row in &link.rows {
            told.refuse_unless(is_all(row, UNTOUCHED));
        }
    } else {
        name(told, LINK_KINDS, link.kind);
        rows(told, link);
    }
}

/// Tells links that were written, with a stroke before each but the first one.
pub(crate) fn links(told: &mut Told, links: &[LinkShown]) {
    for (place, shown) in links.iter().enumerate() {
        if place != 0 && shown.kind != UNTOUCHED {
            told.word("/");
        }
        link(told, shown);
    }
}

/// Tells the numbers at the front of the array that were written, after the word if there are any.
pub(crate) fn numbers(told: &mut Told, word: &str, array: &[u32]) {
    let mut is_ended = false;
    for (place, number) in array.iter().enumerate() {
        if *number == UNTOUCHED {
            is_ended = true;
        } else {
            told.refuse_unless(!is_ended);
            if place == 0 {
                told.word(word);
            }
            if *number == GONE {
                told.word("none");
            } else {
                told.show(number);
            }
        }
    }
}

/// Tells a status, and a number after the word if it was written.
pub(crate) fn number(told: &mut Told, code: u32, word: &str, found: u64) {
    status(told, code);
    if found != u64::from(UNTOUCHED) {
        told.word(word);
        told.show(&found);
    }
}

/// Tells a length, if it was written.
pub(crate) fn length(told: &mut Told, length: usize) {
    if length != NO_LENGTH {
        told.word("length");
        told.show(&length);
    }
}

/// Tells a text: its status, and so many bytes of the array; or the length that is wanted, if the array is as before.
pub(crate) fn text(told: &mut Told, code: u32, array: &[u8], count: usize) {
    status(told, code);
    if code == 0 {
        told.name(array.get(..count).unwrap_or(b"?"));
    } else {
        for byte in array {
            told.refuse_unless(*byte == NO_BYTE);
        }
        length(told, count);
    }
}
