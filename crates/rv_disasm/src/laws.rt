// Laws of the listing, over the definitions alone.
ghost use Rattle.std.specs.Prelude.{◌≡◌, ◌<◌, ◌≤◌, ◌^◌, ◌++◌, ◌∷◌, [], ℕ, List, length, true, Ok};
ghost use Rattle.std.specs.List.{AllByRecursion};
ghost use Rattle.hart_memory.specs.Place.{holds};
ghost use Rattle.hart_memory.specs.Image.{ImageView, AreSound};
ghost use Rattle.hart_memory.specs.Memory.{AreBytes};
ghost use Rattle.rv_assembler.specs.Source.{assembled};
ghost use Rattle.rv_disasm.specs.Listing.{heading, listing, image_text, AreAllBytes};

/// The listing of bytes in one memory, below its entry and its place, is assembled to these bytes alone.
#[tactic(auto, using(crate::proofs::Lengths::listing_returns))]
pub fn a_listing_is_assembled_again()
    ensures { (base : ℕ) (bytes : List ℕ) → AreBytes bytes → 0 < length bytes → holds base (length bytes) ≡ true
        → assembled (heading base ++ listing base bytes) ≡ Ok (record { image = record { start = base; segments = record { address = base; content = bytes } ∷ [] }; symbols = [] }) }
{}

/// The source of an image is assembled to the image. No source of an image is too long for the assembler.
#[tactic(auto, using(crate::proofs::Lengths::image_returns))]
pub fn the_source_of_an_image_is_assembled_again()
    ensures { (image : ImageView) → image.start < 2 ^ 32 → AreSound image.segments → AreAllBytes image.segments
        → assembled (image_text image) ≡ Ok (record { image = image; symbols = [] }) }
{}
