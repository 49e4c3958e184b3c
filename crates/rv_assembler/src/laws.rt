// What it is for a program to be that of a source.
ghost use Rattle.std.specs.Prelude.{◌≡◌, ℕ, List, map, Ok};
ghost use Rattle.hart_memory.specs.Image.{SegmentView, meets_any};
ghost use Rattle.rv_assembler.specs.Laying.{overlaps};
ghost use Rattle.rv_assembler.specs.Source.{Program, assembled};
ghost use Rattle.rv_assembler.specs.Relation.{IsSource, stretch_of};

/// What `assemble` gives is a program of the source, and a program of the source is what `assemble` gives: each line
/// stands at its place, the last `.org` before it plus the lengths since; its label is a symbol with that address, and
/// the bytes that spell its instruction stand there in the image.
pub fn each_line_stands_at_its_place()
    ensures told { (source : List ℕ) (p : Program) → assembled source ≡ Ok p → IsSource source p }
    ensures one { (source : List ℕ) (p : Program) → IsSource source p → assembled source ≡ Ok p }
{}

/// A stretch lies over others exactly where so many bytes meet segments of those lengths.
#[tactic(auto, using(crate::proofs::Adding::meets_is))]
pub fn stretches_are_apart_as_segments()
    ensures { (segments : List SegmentView) (at count : ℕ) → meets_any at count segments ≡ overlaps (record { base = at; size = count }) (map stretch_of segments) }
{}
