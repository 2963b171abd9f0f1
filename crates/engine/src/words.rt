//! Bytes as words.

ghost use Rattle.std.specs.Prelude.{◌≡◌, IfOk};
ghost use Rattle.engine.specs.Words.{words_of};

use std::alloc::{AllocError, Global};

/// The words of a run of bytes, four bytes each, lowest first; a shorter rest is dropped.
pub fn words_of(heap: Global, bytes: &[u8]) -> Result<Vec<u32>, AllocError>
    ensures { IfOk result (λ v. v.items ≡ words_of bytes.now) }
{
    let (words, _) = bytes.as_chunks::<4>();
    words
        .iter()
        .map(|word| u32::from_le_bytes(*word))
        .collect(heap)
}
