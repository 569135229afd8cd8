// The files of all indexes in their order: their descriptors and data laid one behind the other.
ghost use Rattle.std.specs.Prelude.{◌≡◌, ◌++◌, map, ◌+◌, ◌*◌, ◌≤◌, ◌<◌, length, replicate};
ghost use Rattle.rules.specs.Bytes.{over, splice};
ghost use Rattle.rules.specs.Sectors.{sector_of, joined};
ghost use Rattle.rules.specs.Chain.{places, blocks_bytes};
ghost use Rattle.rules.specs.Volume.{indexes, files_of, catalogues};
ghost use Rattle.rules.specs.Sound.{Sound};
ghost use Rattle.rules.specs.Calls.Pack.{one_block, packed_descriptors, packed_data, packed_sectors, together};

use crate::walk::files_of;
use descriptor::chain::{block_bytes, places_of};
use descriptor::fields::descriptor_of;
use rules::Layout;
use sector::buffer::lay;
use sector::bytes::{part, sector_of};

// A descriptor with that header, and one block for the file's sectors from `start` on, laid into 256 zeros.
fn packed_descriptor(descriptor: &mut [u8], header: &[u8], start: u16, sectors: u16)
    requires { (descriptor.old ≡ replicate 256 0) × (length header.now ≡ 28) × (start < 4096) × (sectors < 4096) }
    ensures { descriptor.new ≡ header.now ++ over (replicate 228 0) (blocks_bytes (one_block start sectors)) }
{
    lay(descriptor, 0, header);
    if sectors == 0 {
        return;
    }
    let block = block_bytes(usize::from(start), usize::from(sectors - 1));
    lay(descriptor, 28, &block);
}

// The descriptors, from sector `first` on; the data of the first file is to be behind them, from sector `behind` on. Gives the sector behind all data.
pub(crate) fn lay_descriptors(
    layout: Layout,
    source: &[u8],
    target: &mut [u8],
    first: u16,
    behind: u16,
) -> u16
    requires { Sound layout source.now × (first ≡ 1 + length (indexes layout source.now)) × (behind ≡ first + length (files_of source.now (indexes layout source.now))) }
    ensures value { result ≡ packed_sectors (catalogues layout source.now) }
    ensures target_after { target.new ≡ splice target.old (256 * first) (packed_descriptors behind (together (catalogues layout source.now))) }
{
    // The bytes are counted beside the files: a `zip` with the places would say no more.
    let mut start = behind;
    let mut to = 256 * usize::from(first);
    for k in files_of(layout, source) {
        let descriptor = descriptor_of(source, k);
        let sectors = descriptor.sectors();
        let mut packed = [0u8; 256];
        packed_descriptor(&mut packed, part(descriptor.bytes, 0, 28), start, sectors);
        lay(target, to, &packed);
        start += sectors;
        to += 256;
    }
    start
}

// The sectors of a chain, from byte `at` of the target on; gives the place after them.
fn lay_sectors(source: &[u8], chain: &[u8], target: &mut [u8], at: usize) -> usize
    requires { at + length (joined (map (sector_of source.now) (places chain.now))) ≤ 409600 }
    ensures value { result ≡ at + length (joined (map (sector_of source.now) (places chain.now))) }
    ensures target_after { target.new ≡ splice target.old at (joined (map (sector_of source.now) (places chain.now))) }
{
    let mut to = at;
    for place in places_of(chain) {
        let sector = sector_of(source, place);
        lay(target, to, sector);
        to += sector.len();
    }
    to
}

// The data of all files, from sector `behind` on, which is behind the descriptors.
pub(crate) fn lay_data(layout: Layout, source: &[u8], target: &mut [u8], behind: u16)
    requires { Sound layout source.now × (behind ≡ 1 + length (indexes layout source.now) + length (files_of source.now (indexes layout source.now))) }
    ensures { target.new ≡ splice target.old (256 * behind) (packed_data (together (catalogues layout source.now))) }
{
    let mut to = 256 * usize::from(behind);
    for k in files_of(layout, source) {
        to = lay_sectors(source, descriptor_of(source, k).chain(), target, to);
    }
}
