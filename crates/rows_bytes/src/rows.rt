//! Rows, and that each of a table is so.

use std::alloc::Global;
use std::process::Abort;

/// The class, the name and the descriptor of the method A.f:()V.
pub(crate) const A_F: [&[u8]; 3] = [b"A", b"f", b"()V"];

/// What a row of a table says.
pub(crate) trait Row {
    /// Whether it is so.
    fn is_so(&self, alloc: Global) -> bool;
}

/// The first row that isn't so, if there is one.
fn other<R: Row>(alloc: Global, rows: &[R]) -> Option<usize> {
    for (index, row) in rows.iter().enumerate() {
        if !row.is_so(alloc) {
            return Some(index);
        }
    }
    None
}

/// Asserts that each row of the table of this name is so.
pub(crate) fn assert_rows<R: Row>(rt: &(impl Abort + AllocGlobal), table: &str, rows: &[R]) {
    let other = other(rt.alloc(), rows);
    assert!(rt; other.is_none(), "{other:?} of {table}");
}

/// Whether these are the class, the name and the descriptor of the method A.f:()V.
pub(crate) fn is_a_f(owner: &[u8], name: &[u8], ty: &[u8]) -> bool {
    [owner, name, ty] == A_F
}
