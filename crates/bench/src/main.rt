// The bench cases of document 01 that are run and compared: a line for each, with the case's number in
// the document, what is done, and what came of it: the number that the library gives, a sector, or yes or
// no. `stdout` has the lines that the document wants, and case M's catalogue; then cases for requests of
// document 02, named by them.
//
// A case is a function that makes its volume in an array of its own, so no case leans on another; the
// order of the writes goes to another one, and is not looked at. Its answer is whether its lines could be
// written.
#![tactic(auto)]

use appending::append;
use console::options::{ARGUMENT_ROOM, count_arguments, read_options, usage};
use console::reason::fail;
use creating::create;
use deleting::delete;
use descriptor::chain::place_at;
use descriptor::fields::descriptor_of;
use formatting::format::{Geometry, format};
use judge::judge;
use listing::listing;
use packing::pack;
use protecting::clear_mark;
use renaming::rename;
use rules::{Layout, Refusal, RenameRefusal};
use sector::bytes::{all_are, part};
use std::io;
use storing::store;

fn write_line(rt: HostRuntime, words: &[u8], unit: &[u8], number: u64) -> io::Result<()> {
    let output = rt.stdout();
    output.write_all(words)?;
    output.write_all(unit)?;
    output.println(number)
}

// The number that a call gives back.
fn write_number(rt: HostRuntime, words: &[u8], answer: Result<(), Refusal>) -> io::Result<()> {
    write_line(rt, words, b": number ", u64::from(number_of(answer)))
}

// A sector, 0 for none.
fn write_sector(rt: HostRuntime, words: &[u8], sector: Option<u16>) -> io::Result<()> {
    write_line(rt, words, b": sector ", u64::from(sector.unwrap_or(0)))
}

fn write_answer(rt: HostRuntime, words: &[u8], yes: bool) -> io::Result<()> {
    let output = rt.stdout();
    output.write_all(words)?;
    if yes {
        return output.write_all(b": yes\n");
    }
    output.write_all(b": no\n")
}

// What a case does not say of the layout: the rule of document 01, and its edition.
const OLD_RULE: Layout = Layout {
    marks: false,
    directories: false,
};

const WITH_MARKS: Layout = Layout {
    marks: true,
    directories: false,
};

// The directory of every file: that edition has no other.
const ROOT: usize = 0;

// One side in single density: what a case does not say of the drive.
fn one_side(sectors_per_track: u8, tracks: u8) -> Geometry {
    Geometry {
        sectors_per_track,
        tracks,
        sides: 1,
        density: 1,
    }
}

fn number_of(answer: Result<(), Refusal>) -> u32 {
    match answer {
        Ok(()) => 0,
        Err(refusal) => u32::from(refusal),
    }
}

fn judged(image: &[u8]) -> Result<(), Refusal> {
    Ok(judge(OLD_RULE, image)?)
}

// A call's refusal, or else the judge's of the image that it left.
fn after(answer: Result<(), Refusal>, image: &[u8]) -> Result<(), Refusal> {
    answer?;
    judged(image)
}

fn case_10_two_sectors(rt: HostRuntime) -> io::Result<()> {
    let image = [0u8; 512];
    write_number(rt, b"10 512 bytes", judged(&image))
}

fn case_10_three_sectors(rt: HostRuntime) -> io::Result<()> {
    let mut image = [0u8; 768];
    let answer = format(&mut image, 3, b"BENCH     ", one_side(3, 1));
    write_number(rt, b"10 768 bytes, formatted", after(answer, &image))
}

// The place of a sector of the file whose descriptor is in sector 2.
fn place_in_file(image: &[u8], offset: usize) -> Option<u16> {
    place_at(descriptor_of(image, 2).chain(), offset)
}

fn case_11(rt: HostRuntime) -> io::Result<()> {
    let mut image = [0u8; 8960];
    let mut changes = [0u32; 133];
    let formatted = format(&mut image, 35, b"BENCH     ", one_side(5, 7));
    let bytes = [0x41u8; 300];
    let stored = store(
        OLD_RULE,
        &mut image,
        ROOT,
        b"TWO       ",
        &bytes,
        &mut changes,
    );
    write_number(rt, b"11 35 sectors, formatted", formatted)?;
    write_number(rt, b"11 two sectors stored", after(stored, &image))?;
    write_sector(rt, b"11 the first lies in", place_in_file(&image, 0))?;
    write_sector(rt, b"11 the second lies in", place_in_file(&image, 1))
}

fn digit(i: usize) -> u8 {
    b'0' + (i % 10) as u8
}

// The first refusal of creating 127 files.
fn create_files(image: &mut [u8], changes: &mut [u32; 133]) -> Result<(), Refusal> {
    for i in 0..127 {
        let name = [
            b'F',
            digit(i / 100),
            digit(i / 10),
            digit(i),
            b' ',
            b' ',
            b' ',
            b' ',
            b' ',
            b' ',
        ];
        create(OLD_RULE, image, ROOT, &name, 0x80, 80, 3, changes)?;
    }
    judged(image)
}

// With 127 files and one free sector: the next create, that sector appended, another one, and the next create on the full disk.
fn full_disk(rt: HostRuntime, image: &mut [u8; 33280], changes: &mut [u32; 133]) -> io::Result<()> {
    let next = create(OLD_RULE, image, ROOT, b"NEXT      ", 0x80, 80, 3, changes);
    let bytes = [0x42u8; 256];
    let last = append(OLD_RULE, image, ROOT, b"F000      ", &bytes, changes);
    let full = append(OLD_RULE, image, ROOT, b"F001      ", &bytes, changes);
    let after = create(OLD_RULE, image, ROOT, b"NEXT      ", 0x80, 80, 3, changes);
    write_number(rt, b"12 the next create", next)?;
    write_number(rt, b"12 the last free sector appended", last)?;
    write_number(rt, b"12 another one", full)?;
    write_number(rt, b"12 the next create on the full disk", after)
}

// 130 sectors: two of the system, 127 descriptors, and one that is free until it is appended.
fn case_12(rt: HostRuntime) -> io::Result<()> {
    let mut image = [0u8; 33280];
    let mut changes = [0u32; 133];
    let formatted = format(&mut image, 130, b"BENCH     ", one_side(10, 13));
    let made = create_files(&mut image, &mut changes);
    write_number(rt, b"12 130 sectors, formatted", formatted)?;
    write_number(rt, b"12 127 files created", made)?;
    full_disk(rt, &mut image, &mut changes)
}

fn case_13(rt: HostRuntime) -> io::Result<()> {
    let mut image = [0u8; 51200];
    let mut changes = [0u32; 133];
    let formatted = format(&mut image, 200, b"BENCH     ", one_side(10, 20));
    let bytes = [0x43u8; 32769];
    let stored = store(
        OLD_RULE,
        &mut image,
        ROOT,
        b"LONG      ",
        &bytes[0..32768],
        &mut changes,
    );
    let refused = store(
        OLD_RULE,
        &mut image,
        ROOT,
        b"LONGER    ",
        &bytes,
        &mut changes,
    );
    write_number(rt, b"13 200 sectors, formatted", formatted)?;
    write_number(rt, b"13 32768 bytes stored", after(stored, &image))?;
    write_number(rt, b"13 32769 bytes stored", refused)
}

fn case_14(rt: HostRuntime) -> io::Result<()> {
    let mut image = [0u8; 8960];
    let mut changes = [0u32; 133];
    let formatted = format(&mut image, 35, b"BENCH     ", one_side(5, 7));
    let bytes = [0x44u8; 300];
    let stored = store(
        OLD_RULE,
        &mut image,
        ROOT,
        b"GONE      ",
        &bytes,
        &mut changes,
    );
    let deleted = delete(OLD_RULE, &mut image, ROOT, b"GONE      ", &mut changes);
    let mut target = [0u8; 8960];
    let packed = pack(OLD_RULE, &image, &mut target);
    write_number(rt, b"14 35 sectors, formatted", formatted)?;
    write_number(rt, b"14 a program stored", stored)?;
    write_number(rt, b"14 and deleted", after(deleted, &image))?;
    write_answer(
        rt,
        b"14 all E5 from sector 2 on",
        all_are(0xE5, &image, 512),
    )?;
    write_number(rt, b"14 packed", after(packed, &target))?;
    write_answer(
        rt,
        b"14 all E5 from sector 2 on, packed",
        all_are(0xE5, &target, 512),
    )
}

// The listing of an image, or its number.
fn write_listing(rt: HostRuntime, layout: Layout, image: &[u8]) -> io::Result<()> {
    let mut text = [0u8; 4466];
    let listed = listing(layout, image, ROOT, &mut text);
    match listed {
        Ok(size) => rt.stdout().write_all(part(&text, 0, size)),
        Err(refusal) => write_number(rt, b"M refused", Err(refusal)),
    }
}

fn case_m(rt: HostRuntime) -> io::Result<()> {
    let mut image = [0u8; 16384];
    let mut changes = [0u32; 133];
    let formatted = format(&mut image, 64, b"SHELF     ", one_side(8, 8));
    let program = [0x41u8; 300];
    let stored = store(
        OLD_RULE,
        &mut image,
        ROOT,
        b"ALPHA     ",
        &program,
        &mut changes,
    );
    let created = create(
        OLD_RULE,
        &mut image,
        ROOT,
        b"NOTES     ",
        0x80,
        80,
        3,
        &mut changes,
    );
    let bytes = [0x42u8; 256];
    let appended = append(
        OLD_RULE,
        &mut image,
        ROOT,
        b"NOTES     ",
        &bytes,
        &mut changes,
    );
    write_number(rt, b"M formatted", formatted)?;
    write_number(rt, b"M ALPHA stored", stored)?;
    write_number(rt, b"M NOTES created", created)?;
    write_number(rt, b"M a sector appended", after(appended, &image))?;
    write_listing(rt, OLD_RULE, &image)
}

// Programs that end on a full sector, and one of no bytes; their sectors and lengths are in the listing of the volume packed.
fn ask_2(rt: HostRuntime) -> io::Result<()> {
    let mut image = [0u8; 51200];
    let mut changes = [0u32; 133];
    let formatted = format(&mut image, 200, b"BENCH     ", one_side(10, 20));
    let bytes = [0x45u8; 32768];
    let full = store(
        OLD_RULE,
        &mut image,
        ROOT,
        b"FULL      ",
        &bytes[0..512],
        &mut changes,
    );
    let none = store(
        OLD_RULE,
        &mut image,
        ROOT,
        b"NONE      ",
        &bytes[0..0],
        &mut changes,
    );
    let long = store(
        OLD_RULE,
        &mut image,
        ROOT,
        b"LONG      ",
        &bytes,
        &mut changes,
    );
    let mut target = [0u8; 51200];
    let packed = pack(OLD_RULE, &image, &mut target);
    write_number(rt, b"Ask 2 200 sectors, formatted", formatted)?;
    write_number(rt, b"Ask 2 512 bytes stored", full)?;
    write_number(rt, b"Ask 2 no bytes stored", none)?;
    write_number(rt, b"Ask 2 32768 bytes stored", after(long, &image))?;
    write_number(rt, b"Ask 2 packed", after(packed, &target))?;
    write_listing(rt, OLD_RULE, &target)
}

// What a call that takes a name says: where the name is wrong, or its number.
fn write_named(rt: HostRuntime, words: &[u8], answer: Result<(), Refusal>) -> io::Result<()> {
    match answer {
        Err(Refusal::Misnamed(place)) => write_line(rt, words, b": wrong at ", place as u64),
        other => write_number(rt, words, other),
    }
}

fn write_renamed(
    rt: HostRuntime,
    words: &[u8],
    answer: Result<(), RenameRefusal>,
) -> io::Result<()> {
    match answer {
        Ok(()) => write_number(rt, words, Ok(())),
        Err(RenameRefusal::OldMisnamed(place)) => {
            write_line(rt, words, b": the old name wrong at ", place as u64)
        }
        Err(RenameRefusal::NewMisnamed(place)) => {
            write_line(rt, words, b": the new name wrong at ", place as u64)
        }
        Err(RenameRefusal::Other(refusal)) => write_number(rt, words, Err(refusal)),
    }
}

// Names that break the rule, by formatting, and by a rename, which tests its old name wholly before the new one.
fn ask_4(rt: HostRuntime) -> io::Result<()> {
    let mut image = [0u8; 768];
    let mut changes = [0u32; 133];
    let led = format(&mut image, 3, b" A        ", one_side(3, 1));
    let dotted = format(&mut image, 3, b"A .       ", one_side(3, 1));
    let blank = format(&mut image, 3, b"          ", one_side(3, 1));
    let short = format(&mut image, 3, b"BENCH", one_side(3, 1));
    let formatted = format(&mut image, 3, b"BENCH     ", one_side(3, 1));
    let both = rename(
        OLD_RULE,
        &mut image,
        ROOT,
        b"OLD.      ",
        b"NEW NAME  ",
        &mut changes,
    );
    let new = rename(
        OLD_RULE,
        &mut image,
        ROOT,
        b"OLD       ",
        b"NEW NAME  ",
        &mut changes,
    );
    let absent = rename(
        OLD_RULE,
        &mut image,
        ROOT,
        b"OLD       ",
        b"NEW       ",
        &mut changes,
    );
    write_named(rt, b"Ask 4 a space and A", led)?;
    write_named(rt, b"Ask 4 A, a space and a dot", dotted)?;
    write_named(rt, b"Ask 4 ten spaces", blank)?;
    write_named(rt, b"Ask 4 five bytes", short)?;
    write_named(rt, b"Ask 4 a name", formatted)?;
    write_renamed(rt, b"Ask 4 OLD. to NEW NAME", both)?;
    write_renamed(rt, b"Ask 4 OLD to NEW NAME", new)?;
    write_renamed(rt, b"Ask 4 OLD to NEW", absent)
}

// By the rule with marks: a program stored and a file created are marked, and the first one's mark is cleared. The rule of document 01
// refuses what the other allows.
fn ask_11(rt: HostRuntime) -> io::Result<()> {
    let mut image = [0u8; 16384];
    let mut changes = [0u32; 133];
    let formatted = format(&mut image, 64, b"SHELF     ", one_side(8, 8));
    let program = [0x41u8; 300];
    let stored = store(
        WITH_MARKS,
        &mut image,
        ROOT,
        b"ALPHA     ",
        &program,
        &mut changes,
    );
    let created = create(
        WITH_MARKS,
        &mut image,
        ROOT,
        b"NOTES     ",
        0x80,
        80,
        3,
        &mut changes,
    );
    let cleared = clear_mark(OLD_RULE, &mut image, ROOT, b"ALPHA     ", &mut changes);
    write_number(rt, b"Ask 11 formatted", formatted)?;
    write_number(rt, b"Ask 11 ALPHA stored", stored)?;
    write_number(rt, b"Ask 11 NOTES created", created)?;
    write_number(rt, b"Ask 11 the mark of ALPHA cleared", cleared)?;
    write_number(rt, b"Ask 11 by the old rule", judged(&image))?;
    write_listing(rt, WITH_MARKS, &image)
}

fn write_cases(rt: HostRuntime) -> io::Result<()> {
    case_10_two_sectors(rt)?;
    case_10_three_sectors(rt)?;
    case_11(rt)?;
    case_12(rt)?;
    case_13(rt)?;
    case_14(rt)?;
    case_m(rt)?;
    ask_2(rt)?;
    ask_4(rt)?;
    ask_11(rt)
}

// Whether the cases are to be run: no argument is one.
fn begins(rt: HostRuntime, argument: &mut [u8; ARGUMENT_ROOM]) -> bool {
    let end = count_arguments(rt);
    let options = read_options(rt, end, argument);
    !usage(
        rt,
        options.help,
        end > 1,
        b"usage: bench
Runs the bench cases of the paper that are run and compared, a line for each: the number that a call
gives back, a sector, or yes or no.
  -h, --help  this text
",
    )
}

// A line that cannot be written ends the run: no later one would do better.
fn main(rt: HostRuntime) {
    let mut argument = [0u8; ARGUMENT_ROOM];
    if begins(rt, &mut argument) {
        if let Err(error) = write_cases(rt) {
            fail(rt, b"standard output", error);
        }
    }
}
