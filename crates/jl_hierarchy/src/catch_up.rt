//! Classes that catch up with others, class by class.

ghost use Rattle.std.specs.Prelude.{◌≡◌, OnOk, OnErr};
ghost use Rattle.jl_hierarchy.specs.Constancy.{IsNext};

use crate::classes::Classes;
use std::alloc::{AllocError, Global};

impl Classes {
    /// Adds the class that the other classes have next. Both share its row from then on. Every growth comes before the first
    /// change, or is that change.
    ///
    /// # Errors
    ///
    /// Want of memory. Nothing has changed then.
    pub fn catch_up(&mut self, alloc: Global, ahead: &Classes) -> Result<(), AllocError>
        requires next { IsNext self.old ahead.now }
        ensures ok { OnOk result (self.new ≡ ahead.now) }
        ensures err { OnErr result (self.new ≡ self.old) }
    {
        // Tells that there is room, since there are no more classes ahead than there may be.
        let _count = ahead.count_in_order();
        let row = ahead.rows.at(self.rows.len());
        // The file tells that the superclass of an interface is java/lang/Object.
        let _ = row.class().file().superclass();
        let row = row.copy()?;
        self.add_row(alloc, row)?;
        Ok(())
    }
}
