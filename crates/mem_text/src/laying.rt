// What the numbers and addresses so far have laid down.
ghost use Rattle.std.specs.Prelude.{◌≡◌, ◌+◌, ◌<◌, ◌≤◌, ◌^◌, length, None, Ok, OnOk, IfOk};
ghost use Rattle.hart_memory.specs.Image.{AreSound};
ghost use Rattle.mem_text.specs.Laying.{Laying as LayingView, nothing_laid, whole_image, moved_to, with_byte, why_not};

use crate::mem_why::MemWhy;
use hart_memory::{Image, MAX_SEGMENTS, place_of};
use hart_words::WantOfMemory;
use std::alloc::Global;
use std::marker::Model;

// The segments that are whole, and the bytes of the one that is being filled.
#[derive(Drop)]
pub(crate) struct Laying {
    image: Image,
    from: u32,
    filled: Vec<u8>,
}

impl Model for Laying {
    ghost use Rattle.mem_text.specs.Laying.{Laying as LayingView, IsFit};

    ghost Value = { LayingView };

    ghost view = { λ l. record { image = l.image; from = l.from; filled = l.filled.items } };

    ghost invariant = { λ l. IsFit (record { image = l.image; from = l.from; filled = l.filled.items }) };
}

impl Laying {
    pub(crate) fn new(alloc: Global, entry: u32) -> Laying
        ensures { result ≡ nothing_laid entry }
    {
        Laying {
            image: Image::new(alloc, entry),
            from: 0,
            filled: Vec::new(alloc),
        }
    }

    // Why no byte may stand at the place.
    #[tactic(auto, unfolding(crate::specs::Laying::why_not))]
    pub(crate) fn why_not(&self) -> Option<MemWhy>
        ensures { result ≡ why_not self.now }
    {
        if self.filled.is_empty() && self.image.len() >= MAX_SEGMENTS {
            return Some(MemWhy::TooMany);
        }
        let place = self.from + self.filled.len() as u32;
        if !place_of(place, 1).is_in_memory() {
            return Some(MemWhy::OutsideMemory);
        }
        if self.image.meets(place, 1) {
            return Some(MemWhy::Overlap);
        }
        None
    }

    // Adds a byte at the place.
    pub(crate) fn push(&mut self, byte: u8) -> Result<(), WantOfMemory>
        requires { why_not self.old ≡ None }
        ensures { OnOk result (self.new ≡ with_byte byte self.old) }
    {
        Ok(self.filled.push(byte)?)
    }

    // What was being filled is a whole segment now.
    fn finish_segment(&mut self) -> Result<(), WantOfMemory>
        ensures { OnOk result (self.new ≡ moved_to self.old.from self.old) }
    {
        if self.filled.is_empty() {
            return Ok(());
        }
        self.image.add(self.from, &self.filled)?;
        self.filled.clear();
        Ok(())
    }

    // Goes on at an address.
    pub(crate) fn move_to(&mut self, at: u32) -> Result<(), WantOfMemory>
        ensures { OnOk result (self.new ≡ moved_to at self.old) }
    {
        self.finish_segment()?;
        self.from = at;
        Ok(())
    }

    // The image of all that was laid down.
    pub(crate) fn into_image(mut self) -> Result<Image, WantOfMemory>
        ensures all { IfOk result (λ i. i ≡ whole_image self) }
        ensures sound { IfOk result (λ i. AreSound i.segments) }
    {
        self.finish_segment()?;
        let _segments = self.image.len();
        Ok(self.image)
    }
}
