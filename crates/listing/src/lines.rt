// The lines of the listing: the disk's, then one a file in the order of the index.
ghost use Rattle.std.specs.Prelude.{◌≤◌};
ghost use Rattle.rules.specs.Volume.{files_in};
ghost use Rattle.rules.specs.Calls.Listing.{disk_line, file_line, file_lines, listing_text};
ghost use Rattle.line.specs.Laid.{Laid};

use crate::fields::{put_kind, put_mark, put_name, put_protection};
use descriptor::fields::{Descriptor, descriptor_of};
use descriptor::kind::kind_length;
use line::put_number;
use map::free::free_count_of;
use rules::Layout;
use sector::bytes::{part, sector_of};
use sector::numbers::numbers_of;

// Disk name, number of sectors, free count.
fn put_disk_line(text: &mut [u8], image: &[u8]) -> usize
    ensures { Laid 53 text.old text.new 0 result (disk_line image.now) }
{
    let sector0 = sector_of(image, 0);
    let named = put_name(text, 0, part(sector0, 0, 10));
    let counted = put_number(text, named, image.len() / 256, b' ');
    put_number(text, counted, free_count_of(sector0), b'\n')
}

// Name, kind, length, sectors, protection, and by the rule with marks the mark.
fn put_file_line(layout: Layout, text: &mut [u8], at: usize, descriptor: &Descriptor<'_>) -> usize
    requires { at ≤ 50000 }
    ensures { Laid 65 text.old text.new at result (file_line layout descriptor.now.bytes.now) }
{
    let kind = descriptor.kind();
    let named = put_name(text, at, descriptor.name());
    let sorted = put_kind(text, named, kind);
    let measured = put_number(text, sorted, kind_length(kind), b' ');
    let counted = put_number(text, measured, usize::from(descriptor.sectors()), b' ');
    let kept = put_protection(text, counted, descriptor);
    put_mark(layout, text, kept, descriptor)
}

// A line for each number of the index in sector i.
fn put_file_lines(layout: Layout, text: &mut [u8], at: usize, image: &[u8], i: u16) -> usize
    requires { at ≤ 53 }
    ensures { Laid 16640 text.old text.new at result (file_lines layout image.now (files_in image.now i)) }
{
    let mut next = at;
    for k in numbers_of(sector_of(image, i)) {
        next = put_file_line(layout, text, next, &descriptor_of(image, k));
    }
    next
}

pub(crate) fn put_listing(layout: Layout, text: &mut [u8], image: &[u8], i: u16) -> usize
    ensures { Laid 16693 text.old text.new 0 result (listing_text layout image.now i) }
{
    let next = put_disk_line(text, image);
    put_file_lines(layout, text, next, image, i)
}
