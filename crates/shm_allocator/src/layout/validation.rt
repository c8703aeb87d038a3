ghost use Rattle.shm_allocator.specs.Layouts.{Validates, bad_layout_number};

use super::{Layout, ValidLayout};
use pointer_offset::Denial;

const MAX_SIZE: u64 = 16_777_216;

const MAX_ALIGNMENT: u64 = 65_536;

// A request that breaks the rules.
#[derive(Clone, Copy, PartialEq, Eq, Debug)]
pub struct BadLayout;

impl Denial for BadLayout {
    ghost number_of = { bad_layout_number };

    fn number(&self) -> u8 {
        1
    }
}

impl TryFrom<Layout> for ValidLayout {
    type Error = BadLayout;

    ghost try_from_gives = { Validates };

    fn try_from(layout: Layout) -> Result<ValidLayout, BadLayout> {
        if layout.size < 1 || layout.size > MAX_SIZE || layout.align > MAX_ALIGNMENT {
            return Err(BadLayout);
        }
        if !layout.align.is_power_of_two() {
            return Err(BadLayout);
        }
        Ok(ValidLayout {
            size: layout.size as u32,
            align: layout.align as u32,
        })
    }
}
