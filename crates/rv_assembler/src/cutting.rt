// The bytes of all lines, cut into segments.
ghost use Rattle.std.specs.Prelude.{◌≡◌, ◌≤◌, ◌+◌, ◌<◌, [], length, IfOk, OnOk};
ghost use Rattle.rv_assembler.specs.Laying.{shut};
ghost use Rattle.rv_assembler.specs.Source.{image_of, cut_segments};
ghost use Rattle.rv_assembler.specs.Placing.{CanBeCut};

use crate::building::Building;
use crate::laying::Laying;
use crate::stretch::Stretch;
use hart_memory::Image;
use hart_words::WantOfMemory;
use std::alloc::Global;

fn add_segments(image: &mut Image, stretches: &[Stretch], bytes: &[u8]) -> Result<(), WantOfMemory>
    requires cut { CanBeCut stretches.now bytes.now }
    requires none { image.old.segments ≡ [] }
    ensures { OnOk result (image.new ≡ record { start = image.old.start; segments = cut_segments stretches.now bytes.now }) }
{
    let mut rest = bytes;
    for stretch in stretches {
        let (content, after) = rest.split_at(stretch.size as usize);
        image.add(stretch.base, content)?;
        rest = after;
    }
    Ok(())
}

/// The image of the bytes that were laid and built.
pub(crate) fn image_of(
    alloc: Global,
    laying: Laying,
    building: &Building,
) -> Result<Image, WantOfMemory>
    requires { CanBeCut (shut laying.growing laying.closed) building.now.bytes }
    ensures { IfOk result (λ i. i ≡ image_of laying building.now) }
{
    let mut image = Image::new(alloc, building.entry);
    let stretches = laying.into_stretches()?;
    add_segments(&mut image, &stretches, &building.bytes)?;
    Ok(image)
}
