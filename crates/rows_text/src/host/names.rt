//! The names of include/linkd.h without LINKD_, each at the place of its number. After a stroke stands what the place is that is told with it.

use crate::told::Told;
use crate::words::number;

/// The names of an enum, from 0 on.
pub(crate) type Names = &'static str;

const STATUSES: Names =
    "DONE DEFINE UNKNOWN_CLASS NO_SUCH_PLACE NOT_LINKABLE SITES_FULL CALL_SITE NOT_DYNAMIC ALREADY_BOUND/call-site TYPE_MISMATCH STALE/site \
     NOT_READY/site UNKNOWN_SITE/site REPEATED/site BATCH_SIZE MEMORY DELEGATE LOADERS_FULL 18 RETIRE RELEASE";

/// The statuses from 32 on.
const OWN_STATUSES: Names = "NO_CLASS_FILE MALFORMED CLOSED OPEN_ALREADY TOO_SHORT RELEASED/number";

const DEFINE_FAULTS: Names =
    "0 UNKNOWN_LOADER ALREADY_RECORDED NAMES_ITSELF MISSING_PARENT SUPER_IS_INTERFACE FINAL_SUPER NOT_AN_INTERFACE INACCESSIBLE_PARENT \
     SECOND_OBJECT CLASSES_FULL";

const NOT_LINKABLE_FAULTS: Names = "0 ARRAY_RECEIVER POLYMORPHIC_SIGNATURE";

const DELEGATE_FAULTS: Names =
    "0 DELEGATE_UNKNOWN_LOADER DELEGATE_NOT_RECORDED DELEGATE_ALREADY_RECORDED";

const CALL_SITE_FAULTS: Names =
    "0 UNKNOWN_CALL_SITE CONSTANT WRONG_TYPE UNKNOWN_METHOD NOT_STATIC UNKNOWN_SWITCH TOO_DEEP CALL_SITES_FULL INVOKER_ORDER/call-site";

const RETIRE_FAULTS: Names =
    "0 NO_LOADER FIRST_LOADER INHERITED/class RECORDED/loader TARGETED/call-site";

const RELEASE_FAULTS: Names =
    "0 NO_CALL_SITE/call-site NO_SWITCH/switch INVOKED/call-site GUARDED/call-site";

const CLASS_FAULTS: Names =
    "0 TOO_LARGE BAD_MAGIC BAD_VERSION TRUNCATED POOL/entry MODULE_FILE BAD_SUPER DUPLICATE_METHOD/method TWO_CODES/method CODE/method \
     TRAILING_BYTES BAD_MEMBER/member BAD_LINK/number BAD_NEST";

const POOL_CAUSES: Names =
    "0 POOL_TRUNCATED POOL_BAD_TAG POOL_BAD_INDEX POOL_BAD_TEXT POOL_BAD_DESCRIPTOR";

const CODE_CAUSES: Names =
    "0 CODE_BAD_OPCODE CODE_CUT_SHORT CODE_BAD_SWITCH CODE_BAD_OPERAND CODE_BAD_LAYOUT";

pub(crate) const ANSWER_KINDS: Names = "RUN THROWS BAD_RECEIVER UNLINKED MISS";

const THROWABLES: Names =
    "0 NO_SUCH_METHOD_ERROR ILLEGAL_ACCESS_ERROR INCOMPATIBLE_CLASS_CHANGE_ERROR ABSTRACT_METHOD_ERROR NULL_POINTER_EXCEPTION";

const UNLINKED: Names = "0 WANTS_NAMED WANTS_CALLER_HOST WANTS_METHOD_HOST UNBOUND GONE NO_SITE";

pub(crate) const LINK_KINDS: Names = "NONE FAULT PLAIN DIRECT VIRTUAL_TABLE INTERFACE_TABLE MEGA";

/// The kinds of call sites, for which the header has no names.
pub(crate) const CALL_SITE_KINDS: Names = "0 constant mutable volatile";

/// The names of the faults of this status.
pub(crate) fn faults_of(status: u32) -> Names {
    match status {
        1 => DEFINE_FAULTS,
        4 => NOT_LINKABLE_FAULTS,
        6 => CALL_SITE_FAULTS,
        16 => DELEGATE_FAULTS,
        19 => RETIRE_FAULTS,
        20 => RELEASE_FAULTS,
        32 => CLASS_FAULTS,
        _ => "",
    }
}

/// The names of the causes of this fault of a class file.
pub(crate) fn causes_of(fault: u32) -> Names {
    match fault {
        5 => POOL_CAUSES,
        10 => CODE_CAUSES,
        _ => "",
    }
}

/// The names of the values of answers of this kind.
pub(crate) fn values_of(kind: u32) -> Names {
    match kind {
        1 => THROWABLES,
        3 => UNLINKED,
        _ => "",
    }
}

/// Tells the name of the number, or the number if it has none, and gives what the place is that is told with it.
pub(crate) fn name(told: &mut Told, names: Names, number: u32) -> &'static str {
    let mut place: u32 = 0;
    for word in names.split_whitespace() {
        if place == number {
            let (name, of) = word.split_once('/').unwrap_or((word, ""));
            told.word(name);
            return of;
        }
        place = place.saturating_add(1);
    }
    told.show(&number);
    ""
}

/// Tells the status, and gives what the place is that is told with it.
pub(crate) fn status(told: &mut Told, status: u32) -> &'static str {
    match status.checked_sub(32) {
        Some(own) => name(told, OWN_STATUSES, own),
        None => name(told, STATUSES, status),
    }
}

/// The number of the name, or the number that the word is.
pub(crate) fn number_of(told: &mut Told, names: Names, word: &str) -> u32 {
    let mut place: u32 = 0;
    for name in names.split_whitespace() {
        if name == word {
            return place;
        }
        place = place.saturating_add(1);
    }
    number(told, word)
}
