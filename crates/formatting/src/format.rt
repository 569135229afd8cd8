// Formatting: label and map are laid into sector 0, sector 1 is filled with zeros, and every other byte is E5 hex.
ghost use Rattle.std.specs.Prelude.{◌≡◌, [], ◌∷◌, ◌++◌, ◌*◌, ◌≤◌, length};
ghost use Rattle.rules.specs.Name.{wrong_place};
ghost use Rattle.rules.specs.Map.{map_of};
ghost use Rattle.rules.specs.Outcome.{NamedSays};
ghost use Rattle.rules.specs.Refusal.{named_answered};
ghost use Rattle.rules.specs.Calls.Format.{new_label, formatted, format_number, after_format};
ghost use Rattle.formatting.specs.Geometry.{geometry_of};

use descriptor::name::wrong_place;
use map::laid::lay_map;
use rules::{Fault, Refusal};
use sector::buffer::lay;

// What the label says of the drive.
#[derive(Clone, Copy, Debug, PartialEq, Eq)]
pub struct Geometry {
    pub sectors_per_track: u8,
    pub tracks: u8,
    pub sides: u8,
    pub density: u8,
}

// Bytes 0 to 55 of sector 0: the name, the ten bytes behind it, and zeros.
fn new_label(n: usize, name: &[u8], geometry: Geometry) -> [u8; 56]
    requires { (n ≤ 1600) × (length name.now ≡ 10) }
    ensures { result ≡ new_label n name.now (geometry_of geometry) }
{
    let [high, low] = (n as u16).to_be_bytes();
    let behind = [
        high,
        low,
        geometry.sectors_per_track,
        b'D',
        b'S',
        b'K',
        b' ',
        geometry.tracks,
        geometry.sides,
        geometry.density,
    ];
    let mut label = [0u8; 56];
    lay(&mut label, 0, name);
    lay(&mut label, 10, &behind);
    label
}

// Sector 0: the label, and the map, in which sectors 0 and 1 are held.
fn lay_sector0(sector0: &mut [u8], n: usize, name: &[u8], geometry: Geometry)
    requires { (3 ≤ n) × (n ≤ 1600) × (length name.now ≡ 10) × (length sector0.old ≡ 256) }
    ensures { sector0.new ≡ new_label n name.now (geometry_of geometry) ++ map_of n (0 ∷ (1 ∷ [])) }
{
    let label = new_label(n, name, geometry);
    lay(sector0, 0, &label);
    lay_map(&mut sector0[56..256], n, 2);
}

// Every byte of an image of n sectors.
fn write_volume(image: &mut [u8], n: usize, name: &[u8], geometry: Geometry)
    requires { (3 ≤ n) × (n ≤ 1600) × (length image.old ≡ 256 * n) × (length name.now ≡ 10) }
    ensures { image.new ≡ formatted n name.now (geometry_of geometry) }
{
    lay_sector0(&mut image[0..256], n, name, geometry);
    image[256..512].fill(0);
    image[512..].fill(0xE5);
}

// Makes the image an empty volume of n sectors. Nothing of the image is read but its length: 1 where that is not n sectors,
// n from 3 to 1,600, and 7 for a name that breaks the rule, with the place where it does.
pub fn format(image: &mut [u8], n: usize, name: &[u8], geometry: Geometry) -> Result<(), Refusal>
    ensures named_says { NamedSays (wrong_place name.now) (named_answered result) (format_number image.old n name.now) }
    ensures image_after { image.new ≡ after_format image.old n name.now (geometry_of geometry) }
{
    if image.len() % 256 != 0 {
        return Err(Refusal::Unsound(Fault::Length));
    }
    let sectors = image.len() / 256;
    if sectors < 3 {
        return Err(Refusal::Unsound(Fault::Length));
    }
    if sectors > 1600 {
        return Err(Refusal::Unsound(Fault::Length));
    }
    if n != sectors {
        return Err(Refusal::Unsound(Fault::Length));
    }
    if let Some(place) = wrong_place(name) {
        return Err(Refusal::Misnamed(place));
    }
    write_volume(image, n, name, geometry);
    Ok(())
}
