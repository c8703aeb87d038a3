ghost use Rattle.std.specs.Prelude.{◌≡◌, ℕ, ◌<◌, length, None, MatchOption, ◌≢◌};
ghost use Rattle.std.specs.Ordering.{nat_cmp};
ghost use Rattle.std.specs.List.Sorted.{IsBinarySearchResult, IsSearchInRange};
ghost use Rattle.resizable_shared_memory.specs.declared.ledger.Held.{Held};
ghost use Rattle.resizable_shared_memory.specs.Entries.{entry_at, find};
ghost use Rattle.resizable_shared_memory.specs.Ledgers.{entries_of, Lists};

use super::{Held, Ledger};
use crate::claim::Claim;

// Grants rise, so half of what is left is passed over at each look.
fn search_grant(entries: &[Held], grant: u64) -> Result<usize, usize>
    ensures bound { IsSearchInRange result (length entries.now) }
    ensures found { IsBinarySearchResult (λ (h : Held). nat_cmp h.grant grant) entries.now result }
{
    entries.binary_search_by_key(&grant, |held| held.grant)
}

impl Ledger {
    // The place of the chunk of this grant.
    fn position(&self, grant: u64) -> Option<usize>
        ensures { MatchOption result ((j : ℕ) → j < length (entries_of self.now) → (entry_at (entries_of self.now) j).grant ≢ grant) (λ i. (i < length (entries_of self.now)) × ((entry_at (entries_of self.now) i).grant ≡ grant)) }
    {
        search_grant(&self.entries, grant).ok()
    }

    // The chunk of this claim, if it is held, and its place.
    pub(crate) fn find(&self, claim: Claim) -> Option<(usize, Held)>
        ensures { MatchOption result (find claim.offset.0 claim.grant (entries_of self.now) ≡ None) (λ f. Lists self.now claim.offset.0 claim.grant f.0 f.1) }
    {
        let at = self.position(claim.grant)?;
        let held = self.entries[at];
        if held.claim() != claim {
            return None;
        }
        Some((at, held))
    }
}
