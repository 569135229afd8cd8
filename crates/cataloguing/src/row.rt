// A row of the catalogue, from a descriptor.
ghost use Rattle.std.specs.Prelude.{◌≡◌, length};
ghost use Rattle.rules.specs.Calls.Entry.{row_of};

use descriptor::fields::Descriptor;
use rules::Row;

pub(crate) fn row_of(descriptor: &Descriptor<'_>) -> Row
    requires { length descriptor.now.bytes.now ≡ 256 }
    ensures { result ≡ row_of descriptor.now.bytes.now }
{
    let mut name = [0u8; 10];
    name.copy_from_slice(descriptor.name());
    Row {
        name,
        kind: descriptor.kind(),
        sectors: usize::from(descriptor.sectors()),
        protected: descriptor.is_protected(),
    }
}
