// The catalogue program: the listing of the image on standard input, by the rule of document 01.
#![tactic(auto)]

use printing::print;
use rules::Layout;

fn main(rt: HostRuntime) {
    print(
        rt,
        Layout {
            marks: false,
            directories: false,
        },
        b"usage: catalogue < IMAGE
Lists the image of a disk, of at most 65,536 bytes: its name, size and free count, then a line a
file. REFUSED and its number for one that is no sound volume.
  -h, --help  this text
",
    );
}
