// A descriptor made new, and one marked where it stands.
ghost use Rattle.std.specs.Prelude.{◌≡◌, ◌+◌, ◌*◌, ◌≤◌, length, replicate};
ghost use Rattle.rules.specs.Bytes.{splice};
ghost use Rattle.rules.specs.Sectors.{sector_of};
ghost use Rattle.rules.specs.Descriptor.{new_descriptor, marked_by};

use crate::kind::marking;
use rules::Layout;
use sector::buffer::lay;

// Of a file without sectors: these fields are laid into 256 zeros, all other bytes stay zero.
pub fn new_descriptor(
    descriptor: &mut [u8; 256],
    name: &[u8],
    status: u8,
    records_per_sector: u8,
    end_offset: u8,
    record_length: u8,
)
    requires { (descriptor.old ≡ replicate 256 0) × (length name.now ≡ 10) }
    ensures { descriptor.new ≡ new_descriptor name.now status records_per_sector end_offset record_length }
{
    lay(descriptor, 0, name);
    descriptor[12] = status;
    descriptor[13] = records_per_sector;
    descriptor[16] = end_offset;
    descriptor[17] = record_length;
}

// The descriptor in sector k, of a file that a call changes: its status is marked by the rule.
pub fn mark_descriptor(layout: Layout, image: &mut [u8], k: usize)
    requires { 256 * k + 256 ≤ length image.old }
    ensures { image.new ≡ splice image.old (256 * k) (marked_by layout (sector_of image.old k)) }
{
    let at = 256 * k + 12;
    image[at] = marking(layout, image[at]);
}
