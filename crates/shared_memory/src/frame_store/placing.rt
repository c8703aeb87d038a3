ghost use Rattle.shared_memory.specs.Frames.{frame_rule, Framed};
ghost use Rattle.shared_memory.specs.Framing.{frames_lawful};

use super::Frames;
use crate::placing::Placing;
use crate::table::{Place, SegmentTable};

impl Placing for Frames {
    ghost rule = { λ f. frame_rule f.size };

    ghost lays = { λ f es n. Framed es n f.size };

    fn place(&self, table: &SegmentTable, size: u64) -> Option<Place> {
        if size > self.size as u64 {
            return None;
        }
        let handle = table.vacancy()?;
        Some(Place {
            handle,
            start: handle as usize * self.size,
        })
    }

    ghost lawful = { frames_lawful };
}
