// The descriptors: test 4.
ghost use Rattle.std.specs.Prelude.{◌≡◌, true, [], ◌*◌, ◌<◌, length};
ghost use Rattle.rules.specs.Chain.{chain_rule};
ghost use Rattle.rules.specs.Descriptor.{descriptor_rule};
ghost use Rattle.rules.specs.Index.{range_rule, index_rule};
ghost use Rattle.rules.specs.Kind.{kind_rule};
ghost use Rattle.rules.specs.Sectors.{sector_of};
ghost use Rattle.rules.specs.Verdict.{descriptors_rule};
ghost use Rattle.rules.specs.Volume.{indexes, every, files_in};
ghost use Rattle.judge.specs.Claim.{Below};

use descriptor::chain::blocks_of;
use descriptor::fields::Descriptor;
use descriptor::kind::status_rule;
use descriptor::name::{name_rule, precedes};
use rules::{Kind, Layout};
use sector::bytes::{all_are, part, sector_in};
use sector::directories::indexes_of;
use sector::numbers::numbers_of;

// The chain decoder: it receives the part of the descriptor that starts at byte 28. Past the last block c sectors are covered, and the rest is zero: the bytes
// of the blocks are counted on the way, so that the chain is read once.
fn chain_rule(n: usize, c: usize, chain: &[u8]) -> bool
    ensures { result ≡ chain_rule n c chain.now }
{
    let mut at = 0;
    let mut next = 0;
    for block in blocks_of(chain) {
        if block.start < 2 {
            return false;
        }
        if block.last < next {
            return false;
        }
        if block.start + (block.last - next) >= n {
            return false;
        }
        at += 3;
        next = block.last + 1;
    }
    if next != c {
        return false;
    }
    all_are(0, chain, at)
}

fn kind_rule(kind: Kind, c: u16, end_offset: u8) -> bool
    ensures { result ≡ kind_rule kind c end_offset }
{
    match kind {
        Kind::Program { .. } => c != 0 || end_offset == 0,
        Kind::Fixed { .. } => true,
        Kind::Variable { .. } => true,
    }
}

pub fn descriptor_rule(layout: Layout, n: usize, descriptor: &[u8]) -> bool
    ensures { result ≡ descriptor_rule layout n descriptor.now }
{
    let fields = Descriptor { bytes: descriptor };
    if !name_rule(fields.name()) {
        return false;
    }
    if !status_rule(layout, usize::from(fields.status())) {
        return false;
    }
    let c = fields.sectors();
    if !kind_rule(fields.kind(), c, fields.end_offset()) {
        return false;
    }
    chain_rule(n, usize::from(c), part(descriptor, 28, 228))
}

// The descriptors that the index in sector i leads to.
fn descriptors_rule(layout: Layout, n: usize, image: &[u8], i: usize) -> bool
    requires { (i < n) × (length image.now ≡ 256 * n) × (range_rule n (files_in image.now i) ≡ true) }
    ensures { result ≡ descriptors_rule layout n image.now [] (files_in image.now i) }
{
    let mut previous = part(image, 0, 0);
    for k in numbers_of(sector_in(image, i)) {
        let descriptor = sector_in(image, usize::from(k));
        if !descriptor_rule(layout, n, descriptor) {
            return false;
        }
        let name = part(descriptor, 0, 10);
        if !precedes(previous, name) {
            return false;
        }
        previous = name;
    }
    true
}

// Those of every index that is there.
pub(crate) fn catalogues_rule(layout: Layout, n: usize, image: &[u8]) -> bool
    requires { (length image.now ≡ 256 * n) × Below n (indexes layout image.now) × (every (λ i. index_rule n (sector_of image.now i)) (indexes layout image.now) ≡ true) }
    ensures { result ≡ every (λ i. descriptors_rule layout n image.now [] (files_in image.now i)) (indexes layout image.now) }
{
    for i in indexes_of(layout, image) {
        if !descriptors_rule(layout, n, image, usize::from(i)) {
            return false;
        }
    }
    true
}
