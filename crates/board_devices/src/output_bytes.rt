// The bytes that were put out, with room for all of them.
ghost use Rattle.std.specs.Prelude.{◌≡◌, ◌<◌, ◌≤◌, ◌∷◌, ◌++◌, [], length, Some, slice_get, IfOk};

use hart_words::WantOfMemory;
use std::alloc::Global;
use std::marker::Model;

/// How many bytes may be put out.
pub const OUTPUT_LEN: usize = 65_536;

/// At most 65,536 bytes, seen as a list. Only `new` and `copy` take memory.
#[derive(Drop)]
pub struct OutputBytes {
    bytes: Vec<u8>,
}

impl Model for OutputBytes {
    ghost use Rattle.std.specs.Prelude.{ℕ, List, ◌≤◌, vec_len};
    ghost use Rattle.std.specs.Vec.{vec_capacity};
    ghost use Rattle.board_devices.specs.declared.output_bytes.TheConstants.{OUTPUT_LEN};

    ghost Value = { List ℕ };

    ghost view = { λ o. o.bytes.items };

    ghost invariant = { λ o. (vec_len o.bytes ≤ OUTPUT_LEN) × (OUTPUT_LEN ≤ vec_capacity o.bytes) };
}

impl OutputBytes {
    pub fn new(alloc: Global) -> Result<OutputBytes, WantOfMemory>
        ensures { IfOk result (λ output. output ≡ []) }
    {
        Ok(OutputBytes {
            bytes: Vec::with_capacity(alloc, OUTPUT_LEN)?,
        })
    }

    #[inline]
    pub fn len(&self) -> usize
        ensures len { result ≡ length self.now }
        ensures fits { result ≤ OUTPUT_LEN }
    {
        self.bytes.len()
    }

    #[inline]
    pub fn get(&self, i: usize) -> u8
        requires { i < length self.now }
        ensures { slice_get self.now i ≡ Some result }
    {
        self.bytes[i]
    }

    #[inline]
    pub fn push(&mut self, byte: u8)
        requires { length self.old < OUTPUT_LEN }
        ensures { self.new ≡ self.old ++ byte ∷ [] }
    {
        self.bytes.push_reserved(byte);
    }

    pub fn copy(&self, alloc: Global) -> Result<OutputBytes, WantOfMemory>
        ensures { IfOk result (λ copied. copied ≡ self.now) }
    {
        let mut bytes = Vec::with_capacity(alloc, OUTPUT_LEN)?;
        bytes.extend_from_slice(&self.bytes)?;
        Ok(OutputBytes { bytes })
    }
}
