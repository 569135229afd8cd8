// The catalogue program by the rule with marks: the lines of the first one, each file's with a last field, M for one that has
// changed since its backup or else a hyphen.
#![tactic(auto)]

use printing::print;
use rules::Layout;

fn main(rt: HostRuntime) {
    print(
        rt,
        Layout {
            marks: true,
            directories: false,
        },
        b"usage: catalogue_marks < IMAGE
Lists the image of a disk, of at most 65,536 bytes, by the rule with marks: its name, size and free
count, then a line a file, which ends with M where status bit 10 hex, changed since backup, is set, or
else with a hyphen. REFUSED and its number for one that is no sound volume.
  -h, --help  this text
",
    );
}
