// A reader of frames.
ghost use Rattle.std.specs.Prelude.{◌≡◌, ℕ, ◌++◌, ◌∷◌, List, [], IfOk};
ghost use Rattle.lab_packets.specs.Frames.{unread, begun, with_data, verdict, after_other, after, messages, message_of, HasRead};

use crate::frame_place::FramePlace;
use crate::frames::is_sum;
use crate::heard::Heard;
use hart_words::WantOfMemory;
use std::alloc::Global;
use std::marker::Model;

/// The most bytes of data that a packet may have.
pub const MOST_DATA: usize = 16_384;

/// Takes bytes as they come, and tells where a packet ends. It takes all the memory that it will want when it is made.
#[derive(Drop)]
pub struct FrameReader {
    place: FramePlace,
    content: Vec<u8>,
    is_long: bool,
}

impl Model for FrameReader {
    ghost use Rattle.std.specs.Prelude.{◌≤◌};
    ghost use Rattle.std.specs.Vec.{vec_len, vec_capacity};
    ghost use Rattle.lab_packets.specs.Frames.{Hearing, most_data};

    ghost Value = { Hearing };

    ghost view = { λ r. record { place = r.place; content = r.content.items; is_long = r.is_long } };

    ghost invariant = { λ r. (vec_len r.content ≤ most_data) × (most_data ≤ vec_capacity r.content) };
}

impl FrameReader {
    /// Nothing was read yet.
    pub fn new(alloc: Global) -> Result<FrameReader, WantOfMemory>
        ensures view { IfOk result (λ r. r ≡ unread) }
        ensures read { IfOk result (λ r. HasRead [] r) }
    {
        Ok(FrameReader {
            place: FramePlace::Between,
            content: Vec::with_capacity(alloc, MOST_DATA)?,
            is_long: false,
        })
    }

    /// The data of the packet that ended last, or that is being read.
    pub fn data(&self) -> &[u8]
        ensures { result.now ≡ self.now.content }
    {
        &self.content
    }

    fn begin(&mut self)
        ensures { self.new ≡ begun }
    {
        self.place = FramePlace::InData;
        self.content.clear();
        self.is_long = false;
    }

    fn push(&mut self, byte: u8)
        ensures { self.new ≡ with_data self.old byte }
    {
        if self.content.len() < MOST_DATA {
            let _ = self.content.push(byte);
        } else {
            self.is_long = true;
        }
    }

    fn verdict(&self, first: u8, second: u8) -> Heard
        ensures { result ≡ verdict self.now first second }
    {
        if !self.is_long && is_sum(&self.content, first, second) {
            Heard::Packet
        } else {
            Heard::Bad
        }
    }

    // A byte that begins no packet.
    fn take_other(&mut self, byte: u8) -> Heard
        ensures { record { heard = result; next = self.new } ≡ after_other self.old.place self.old byte }
    {
        match self.place {
            FramePlace::Between => {
                if byte == b'-' {
                    Heard::Again
                } else {
                    Heard::Nothing
                }
            }
            FramePlace::InData => {
                if byte == b'#' {
                    self.place = FramePlace::FirstDigit;
                } else {
                    self.push(byte);
                }
                Heard::Nothing
            }
            FramePlace::FirstDigit => {
                self.place = FramePlace::SecondDigit(byte);
                Heard::Nothing
            }
            FramePlace::SecondDigit(first) => {
                self.place = FramePlace::Between;
                self.verdict(first, byte)
            }
        }
    }

    #[tactic(auto, unfolding(crate::specs::Frames::after))]
    fn step(&mut self, byte: u8) -> Heard
        ensures { record { heard = result; next = self.new } ≡ after self.old byte }
    {
        if byte == b'$' {
            self.begin();
            Heard::Nothing
        } else {
            self.take_other(byte)
        }
    }

    /// The next byte.
    pub fn take(&mut self, byte: u8) -> Heard
        ensures exact { record { heard = result; next = self.new } ≡ after self.old byte }
        // What was read of all bytes so far, and what all of them told.
        ensures read { (bytes : List ℕ) → HasRead bytes self.old → HasRead (bytes ++ byte ∷ []) self.new }
        ensures messages { (bytes : List ℕ) → HasRead bytes self.old → messages unread (bytes ++ byte ∷ []) ≡ messages unread bytes ++ message_of result self.new.content }
    {
        self.step(byte)
    }
}
