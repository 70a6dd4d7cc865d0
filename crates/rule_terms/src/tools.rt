use std::alloc::Global;

/// What the table of rules is read with: where lists of premises would take their memory from. So few premises as a rule has take none,
/// so that no call of this crate can fail for want of memory. It holds nothing else.
#[derive(Drop)]
pub struct Tools {
    alloc: Global,
}

impl Tools {
    /// Tools over this allocator. Takes no memory, and cannot fail.
    pub fn new(alloc: Global) -> Tools {
        Tools { alloc }
    }

    /// Where memory is taken from.
    pub fn alloc(&self) -> Global {
        self.alloc
    }
}
