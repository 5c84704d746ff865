//! The hasher of the edge table. It takes the place that an edge asks for as it is.
ghost use Rattle.std.specs.Prelude.{◌≡◌};
ghost use Rattle.pf_edges.specs.Hasher.{no_place, placed};

use std::hash::Hasher;

/// Where an edge belongs in the table's memory.
#[derive(Clone, Copy)]
pub struct EdgeHasher {
    place: u64,
}

impl Default for EdgeHasher {
    ghost is_default = { λ h. h ≡ no_place };

    fn default() -> EdgeHasher {
        EdgeHasher { place: 0 }
    }
}

impl Hasher for EdgeHasher {
    ghost write = { λ h bytes. placed bytes };

    ghost finish = { λ h. h.place };

    #[inline(always)]
    fn finish(&self) -> u64 {
        self.place
    }

    // The first eight bytes of the last write are the place, the lowest first, and it is 0 where the write has
    // fewer.
    #[inline(always)]
    fn write(&mut self, bytes: &[u8]) {
        self.place = if bytes.len() < 8 {
            0
        } else {
            u64::from_le_bytes([
                bytes[0], bytes[1], bytes[2], bytes[3], bytes[4], bytes[5], bytes[6], bytes[7],
            ])
        };
    }
}
