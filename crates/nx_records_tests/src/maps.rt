// The plain map that records, byte lists and the catalog are held against.
use crate::random::Random;
use std::alloc::{AllocError, Global};

/// So many bytes of a noise from an offset on.
#[derive(Clone, Copy, Debug, PartialEq, Eq)]
pub struct Part {
    pub from: u32,
    pub length: u32,
}

impl Part {
    /// A part of 1 to 8,176 bytes, mostly a short one.
    pub fn random(random: &mut Random) -> Part {
        let most = match random.below(8) {
            0 => 8_176,
            1 => 3_000,
            _ => 400,
        };
        Part {
            from: random.below(4_096),
            length: random.below(most).saturating_add(1),
        }
    }

    /// Its bytes.
    pub fn of(self, noise: &[u8]) -> &[u8] {
        let rest = &noise[noise.len().min(self.from as usize)..];
        &rest[..rest.len().min(self.length as usize)]
    }
}

/// Bytes from which parts are taken.
pub fn noise(alloc: Global) -> Result<Vec<u8>, AllocError> {
    let mut bytes = Vec::new(alloc);
    push_noise(&mut bytes)?;
    Ok(bytes)
}

fn push_noise(bytes: &mut Vec<u8>) -> Result<(), AllocError> {
    let mut random = Random::new(1);
    bytes.resize(8, 0)?;
    for _ in 0..45_056 {
        bytes.push((random.below(256) % 256) as u8)?;
    }
    Ok(())
}
