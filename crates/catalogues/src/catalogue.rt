//! What holds designs and gives them away.
ghost use Rattle.catalogues.specs.Entries.{Counts, Gives, IsSpent, Seen};

use design_base::Query;
use incidence::Rows;

/// A question, and a block list for it.
#[derive(Drop)]
pub struct Entry {
    pub query: Query,
    pub blocks: Rows,
}

/// Why nothing was offered.
#[derive(Clone, Copy, Debug, PartialEq, Eq)]
pub enum OfferEnd {
    /// The offer failed, and was counted.
    Failed,
    /// There was no memory.
    Memory,
}

/// What holds designs and gives them away.
pub trait Catalogue: Drop {
    /// What is seen of it: the entries that it holds, where it tells them, whether it is spent, and the counts of offers and of failed
    /// ones, which never fall and end at the last value of the type u64.
    ghost seen: { Self → Seen };

    /// Takes out and gives the first entry of the question. `None` is that there is none. `Failed` comes only where the offer failed,
    /// and `Memory` only for want of memory; after both the entries are as they were. The offer is counted, and so it is among the
    /// failed ones exactly where it failed.
    fn offer(&mut self, q: &Query) -> Result<Option<Rows>, OfferEnd>
        ensures given { Gives q.now (seen self.old) (seen self.new) result }
        ensures counts { Counts (seen self.old) (seen self.new) result };

    /// Whether it is spent, that is, known to hold no entry.
    fn spent(&self) -> bool
        ensures { IsSpent (seen self.now) result };
}
