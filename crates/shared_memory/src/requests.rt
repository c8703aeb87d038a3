ghost use Rattle.std.specs.Prelude.{◌≤◌, Decides, MatchBool, MatchResult};
ghost use Rattle.shared_memory.specs.Meaning.{Store, GoodName, Named, MakeDenied, create_number};

use crate::fault::SharedMemoryCreateError;

// Whether a segment may have this name.
pub(crate) fn is_good_name(name: &[u8]) -> bool
    ensures { Decides result (GoodName name.now) }
{
    !name.is_empty() && name.len() <= 32
}

// Denies what no store makes, whatever its room; `stands` says whether a segment of that name stands.
pub(crate) fn check_request(
    name: &[u8],
    size: u64,
    stands: bool,
) -> Result<(), SharedMemoryCreateError>
    ensures { (s : Store) → MatchBool stands (Named s name.now) (Named s name.now → ⊥) → MatchResult result (λ _. GoodName name.now × (1 ≤ size) × (Named s name.now → ⊥)) (λ e. MakeDenied s name.now size (create_number e)) }
{
    if !is_good_name(name) {
        return Err(SharedMemoryCreateError::BadName);
    }
    if size == 0 {
        return Err(SharedMemoryCreateError::SizeIsZero);
    }
    if stands {
        return Err(SharedMemoryCreateError::AlreadyExists);
    }
    Ok(())
}
