// A descriptor read by its fields.
ghost use Rattle.std.specs.Prelude.{◌≡◌};
ghost use Rattle.rules.specs.Descriptor.{name_of, status_of, sectors_of, chain_of, file_kind};
ghost use Rattle.rules.specs.Kind.{is_program, is_protected, is_marked};
ghost use Rattle.rules.specs.Bytes.{byte_at};
ghost use Rattle.rules.specs.Sectors.{sector_of};

use crate::kind::kind_of;
use rules::Kind;
use sector::bytes::{byte, part, sector_of, word};

// The bytes of a descriptor. Each field is read where it stands, of any bytes.
#[derive(Clone, Copy, Debug)]
pub struct Descriptor<'a> {
    pub bytes: &'a [u8],
}

// The descriptor in sector k.
pub fn descriptor_of(image: &[u8], k: u16) -> Descriptor<'_>
    ensures { result.bytes.now ≡ sector_of image.now k }
{
    Descriptor {
        bytes: sector_of(image, k),
    }
}

impl<'a> Descriptor<'a> {
    pub fn name(&self) -> &'a [u8]
        ensures { result.now ≡ name_of self.now.bytes.now }
    {
        part(self.bytes, 0, 10)
    }

    pub fn status(&self) -> u8
        ensures { result ≡ status_of self.now.bytes.now }
    {
        byte(self.bytes, 12)
    }

    pub fn is_program(&self) -> bool
        ensures { result ≡ is_program (status_of self.now.bytes.now) }
    {
        self.status() % 2 == 1
    }

    pub fn is_protected(&self) -> bool
        ensures { result ≡ is_protected (status_of self.now.bytes.now) }
    {
        self.status() / 8 % 2 == 1
    }

    pub fn is_marked(&self) -> bool
        ensures { result ≡ is_marked (status_of self.now.bytes.now) }
    {
        self.status() / 16 % 2 == 1
    }

    // How many sectors its file has.
    pub fn sectors(&self) -> u16
        ensures { result ≡ sectors_of self.now.bytes.now }
    {
        word(self.bytes, 14)
    }

    pub fn end_offset(&self) -> u8
        ensures { result ≡ byte_at self.now.bytes.now 16 }
    {
        byte(self.bytes, 16)
    }

    pub fn kind(&self) -> Kind
        ensures { result ≡ file_kind self.now.bytes.now }
    {
        kind_of(
            usize::from(self.status()),
            self.sectors(),
            self.end_offset(),
            usize::from(byte(self.bytes, 17)),
        )
    }

    pub fn chain(&self) -> &'a [u8]
        ensures { result.now ≡ chain_of self.now.bytes.now }
    {
        part(self.bytes, 28, 228)
    }
}
