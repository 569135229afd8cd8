// The C interface, documented in include/pnoelithe.h: thin functions over the calls, each with the promise of the call below it.
// Each gives its number, 0 where it was done; what a call gives beside it is written behind the pointers lent for it: with number 0 its
// values, with 7 where a name is wrong, and with any other nothing; but in `changes` a call that was refused says that it wrote no sector.
#![tactic(auto)]

ghost use Rattle.std.specs.Prelude.{◌≡◌, length};
ghost use Rattle.rules.specs.Sectors.{sector_of, sector_count};
ghost use Rattle.rules.specs.Name.{wrong_place};
ghost use Rattle.rules.specs.Descriptor.{status_of, sectors_of, file_kind};
ghost use Rattle.rules.specs.Map.{free_count};
ghost use Rattle.rules.specs.Volume.{indexes, files_of};
ghost use Rattle.rules.specs.Verdict.{verdict};
ghost use Rattle.rules.specs.Outcome.{behind};
ghost use Rattle.rules.specs.Calls.Format.{format_number, after_format};
ghost use Rattle.rules.specs.Calls.Summary.{free_count_of, summary_of};
ghost use Rattle.rules.specs.Kind.{is_protected as has_protection};
ghost use Rattle.rules.specs.Calls.Entry.{entry_at, entry_of};
ghost use Rattle.rules.specs.Calls.Read.{read_of};
ghost use Rattle.rules.specs.Calls.Load.{load_of};
ghost use Rattle.rules.specs.Calls.Listing.{kind_length, listing_of};
ghost use Rattle.rules.specs.Calls.Create.{create_of};
ghost use Rattle.rules.specs.Calls.Append.{append_of};
ghost use Rattle.rules.specs.Calls.Overwrite.{overwrite_of};
ghost use Rattle.rules.specs.Calls.Protect.{protect_of, unprotect_of, clear_of};
ghost use Rattle.rules.specs.Calls.Store.{store_of};
ghost use Rattle.rules.specs.Calls.Delete.{delete_of};
ghost use Rattle.rules.specs.Calls.Rename.{rename_of};
ghost use Rattle.rules.specs.Calls.Repair.{repair_of};
ghost use Rattle.rules.specs.Calls.Pack.{pack_number, after_pack};
ghost use Rattle.pnoelithe.specs.Crossing.{layout_of, kind_number, flag, place_behind, first_wrong, which_behind, changes_of, Crosses, ReportCrosses, AmountCrosses};

mod crossing;

use crossing::{
    amount_number, answer_number, judged_number, kind_number, layout_of, named_amount_number,
    named_number, rename_number,
};
use descriptor::kind::kind_length;
use formatting::format::Geometry;
use sector::order::list_none;

// The number 0 to 6 of an image.
#[unsafe(no_mangle)]
pub extern "C" fn pno_judge(image: &[u8], layout: u32) -> u32
    ensures { result ≡ verdict (layout_of layout) image.now }
{
    judged_number(judge::judge(layout_of(layout), image))
}

// An empty volume of n sectors.
#[unsafe(no_mangle)]
pub extern "C" fn pno_format(
    image: &mut [u8],
    n: usize,
    name: &[u8],
    sectors_per_track: u8,
    tracks: u8,
    sides: u8,
    density: u8,
    wrong: &mut usize,
) -> u32
    ensures image { (result ≡ format_number image.old n name.now) × (image.new ≡ after_format image.old n name.now (record { sectors_per_track = sectors_per_track; tracks = tracks; sides = sides; density = density })) }
    ensures wrong { wrong.new ≡ place_behind result (wrong_place name.now) wrong.old }
{
    let geometry = Geometry {
        sectors_per_track,
        tracks,
        sides,
        density,
    };
    named_number(formatting::format::format(image, n, name, geometry), wrong)
}

// The number of free sectors.
#[unsafe(no_mangle)]
pub extern "C" fn pno_free_count(image: &[u8], layout: u32, free: &mut usize) -> u32
    ensures { AmountCrosses (free_count_of (layout_of layout) image.now) result free.old free.new }
{
    amount_number(summarizing::free_count(layout_of(layout), image), free)
}

// Disk name, number of sectors, of files in all directories, and of free sectors.
#[unsafe(no_mangle)]
pub extern "C" fn pno_summary(
    image: &[u8],
    layout: u32,
    name: &mut [u8; 10],
    sectors: &mut usize,
    count: &mut usize,
    free: &mut usize,
) -> u32
    ensures name { ReportCrosses (summary_of (layout_of layout) image.now) result name.old name.new }
    ensures sectors { sectors.new ≡ behind result (sector_count image.now) sectors.old }
    ensures count { count.new ≡ behind result (length (files_of image.now (indexes (layout_of layout) image.now))) count.old }
    ensures free { free.new ≡ behind result (free_count (sector_of image.now 0)) free.old }
{
    match summarizing::summary(layout_of(layout), image, name) {
        Ok(totals) => {
            *sectors = totals.sectors;
            *count = totals.files;
            *free = totals.free;
            0
        }
        Err(refusal) => u32::from(refusal),
    }
}

// A catalogue entry of a directory: the 28 header bytes, and the row's numbers.
#[unsafe(no_mangle)]
pub extern "C" fn pno_entry(
    image: &[u8],
    layout: u32,
    directory: usize,
    place: usize,
    header: &mut [u8],
    kind: &mut usize,
    size: &mut usize,
    sectors: &mut usize,
    is_protected: &mut usize,
) -> u32
    ensures header { ReportCrosses (entry_of (layout_of layout) image.now directory place (length header.old)) result header.old header.new }
    ensures kind { kind.new ≡ behind result (kind_number (file_kind (sector_of image.now (entry_at (layout_of layout) image.now directory place)))) kind.old }
    ensures size { size.new ≡ behind result (kind_length (file_kind (sector_of image.now (entry_at (layout_of layout) image.now directory place)))) size.old }
    ensures sectors { sectors.new ≡ behind result (sectors_of (sector_of image.now (entry_at (layout_of layout) image.now directory place))) sectors.old }
    ensures protection { is_protected.new ≡ behind result (flag (has_protection (status_of (sector_of image.now (entry_at (layout_of layout) image.now directory place))))) is_protected.old }
{
    match cataloguing::entry(layout_of(layout), image, directory, place, header) {
        Ok(row) => {
            *kind = kind_number(row.kind);
            *size = kind_length(row.kind);
            *sectors = row.sectors;
            *is_protected = usize::from(row.protected);
            0
        }
        Err(refusal) => u32::from(refusal),
    }
}

// A sector of a file.
#[unsafe(no_mangle)]
pub extern "C" fn pno_read(
    image: &[u8],
    layout: u32,
    directory: usize,
    name: &[u8],
    offset: usize,
    out: &mut [u8],
    wrong: &mut usize,
) -> u32
    ensures bytes { ReportCrosses (read_of (layout_of layout) image.now directory name.now offset (length out.old)) result out.old out.new }
    ensures wrong { wrong.new ≡ place_behind result (wrong_place name.now) wrong.old }
{
    named_number(
        reading::read(layout_of(layout), image, directory, name, offset, out),
        wrong,
    )
}

// A program's bytes and their number.
#[unsafe(no_mangle)]
pub extern "C" fn pno_load(
    image: &[u8],
    layout: u32,
    directory: usize,
    name: &[u8],
    out: &mut [u8],
    size: &mut usize,
    wrong: &mut usize,
) -> u32
    ensures bytes { ReportCrosses (load_of (layout_of layout) image.now directory name.now (length out.old)) result out.old out.new }
    ensures size { AmountCrosses (load_of (layout_of layout) image.now directory name.now (length out.old)) result size.old size.new }
    ensures wrong { wrong.new ≡ place_behind result (wrong_place name.now) wrong.old }
{
    named_amount_number(
        loading::load(layout_of(layout), image, directory, name, out),
        size,
        wrong,
    )
}

// The catalogue program's text of a directory, and its length.
#[unsafe(no_mangle)]
pub extern "C" fn pno_listing(
    image: &[u8],
    layout: u32,
    directory: usize,
    out: &mut [u8],
    size: &mut usize,
) -> u32
    ensures bytes { ReportCrosses (listing_of (layout_of layout) image.now directory (length out.old)) result out.old out.new }
    ensures size { AmountCrosses (listing_of (layout_of layout) image.now directory (length out.old)) result size.old size.new }
{
    amount_number(
        listing::listing(layout_of(layout), image, directory, out),
        size,
    )
}

// A file without sectors.
#[unsafe(no_mangle)]
pub extern "C" fn pno_create(
    image: &mut [u8],
    layout: u32,
    directory: usize,
    name: &[u8],
    status: u8,
    record_length: u8,
    records_per_sector: u8,
    wrong: &mut usize,
    changes: &mut [u32; 133],
) -> u32
    ensures image { Crosses (create_of (layout_of layout) image.old directory name.now status record_length records_per_sector) result image.old image.new }
    ensures wrong { wrong.new ≡ place_behind result (wrong_place name.now) wrong.old }
    ensures changes { changes.new ≡ changes_of (create_of (layout_of layout) image.old directory name.now status record_length records_per_sector) changes.old }
{
    list_none(changes);
    named_number(
        creating::create(
            layout_of(layout),
            image,
            directory,
            name,
            status,
            record_length,
            records_per_sector,
            changes,
        ),
        wrong,
    )
}

// One sector more of a file.
#[unsafe(no_mangle)]
pub extern "C" fn pno_append(
    image: &mut [u8],
    layout: u32,
    directory: usize,
    name: &[u8],
    bytes: &[u8],
    wrong: &mut usize,
    changes: &mut [u32; 133],
) -> u32
    ensures image { Crosses (append_of (layout_of layout) image.old directory name.now bytes.now) result image.old image.new }
    ensures wrong { wrong.new ≡ place_behind result (wrong_place name.now) wrong.old }
    ensures changes { changes.new ≡ changes_of (append_of (layout_of layout) image.old directory name.now bytes.now) changes.old }
{
    list_none(changes);
    named_number(
        appending::append(layout_of(layout), image, directory, name, bytes, changes),
        wrong,
    )
}

// Another 256 bytes in a sector of a file.
#[unsafe(no_mangle)]
pub extern "C" fn pno_overwrite(
    image: &mut [u8],
    layout: u32,
    directory: usize,
    name: &[u8],
    offset: usize,
    bytes: &[u8],
    wrong: &mut usize,
    changes: &mut [u32; 133],
) -> u32
    ensures image { Crosses (overwrite_of (layout_of layout) image.old directory name.now offset bytes.now) result image.old image.new }
    ensures wrong { wrong.new ≡ place_behind result (wrong_place name.now) wrong.old }
    ensures changes { changes.new ≡ changes_of (overwrite_of (layout_of layout) image.old directory name.now offset bytes.now) changes.old }
{
    list_none(changes);
    named_number(
        overwriting::overwrite(
            layout_of(layout),
            image,
            directory,
            name,
            offset,
            bytes,
            changes,
        ),
        wrong,
    )
}

// The protection of a file.
#[unsafe(no_mangle)]
pub extern "C" fn pno_protect(
    image: &mut [u8],
    layout: u32,
    directory: usize,
    name: &[u8],
    wrong: &mut usize,
    changes: &mut [u32; 133],
) -> u32
    ensures image { Crosses (protect_of (layout_of layout) image.old directory name.now) result image.old image.new }
    ensures wrong { wrong.new ≡ place_behind result (wrong_place name.now) wrong.old }
    ensures changes { changes.new ≡ changes_of (protect_of (layout_of layout) image.old directory name.now) changes.old }
{
    list_none(changes);
    named_number(
        protecting::protect(layout_of(layout), image, directory, name, changes),
        wrong,
    )
}

// And its end.
#[unsafe(no_mangle)]
pub extern "C" fn pno_unprotect(
    image: &mut [u8],
    layout: u32,
    directory: usize,
    name: &[u8],
    wrong: &mut usize,
    changes: &mut [u32; 133],
) -> u32
    ensures image { Crosses (unprotect_of (layout_of layout) image.old directory name.now) result image.old image.new }
    ensures wrong { wrong.new ≡ place_behind result (wrong_place name.now) wrong.old }
    ensures changes { changes.new ≡ changes_of (unprotect_of (layout_of layout) image.old directory name.now) changes.old }
{
    list_none(changes);
    named_number(
        protecting::unprotect(layout_of(layout), image, directory, name, changes),
        wrong,
    )
}

// The backup mark of a file, cleared.
#[unsafe(no_mangle)]
pub extern "C" fn pno_clear_mark(
    image: &mut [u8],
    layout: u32,
    directory: usize,
    name: &[u8],
    wrong: &mut usize,
    changes: &mut [u32; 133],
) -> u32
    ensures image { Crosses (clear_of (layout_of layout) image.old directory name.now) result image.old image.new }
    ensures wrong { wrong.new ≡ place_behind result (wrong_place name.now) wrong.old }
    ensures changes { changes.new ≡ changes_of (clear_of (layout_of layout) image.old directory name.now) changes.old }
{
    list_none(changes);
    named_number(
        protecting::clear_mark(layout_of(layout), image, directory, name, changes),
        wrong,
    )
}

// A program, of these bytes.
#[unsafe(no_mangle)]
pub extern "C" fn pno_store(
    image: &mut [u8],
    layout: u32,
    directory: usize,
    name: &[u8],
    bytes: &[u8],
    wrong: &mut usize,
    changes: &mut [u32; 133],
) -> u32
    ensures image { Crosses (store_of (layout_of layout) image.old directory name.now bytes.now) result image.old image.new }
    ensures wrong { wrong.new ≡ place_behind result (wrong_place name.now) wrong.old }
    ensures changes { changes.new ≡ changes_of (store_of (layout_of layout) image.old directory name.now bytes.now) changes.old }
{
    list_none(changes);
    named_number(
        storing::store(layout_of(layout), image, directory, name, bytes, changes),
        wrong,
    )
}

// A file less.
#[unsafe(no_mangle)]
pub extern "C" fn pno_delete(
    image: &mut [u8],
    layout: u32,
    directory: usize,
    name: &[u8],
    wrong: &mut usize,
    changes: &mut [u32; 133],
) -> u32
    ensures image { Crosses (delete_of (layout_of layout) image.old directory name.now) result image.old image.new }
    ensures wrong { wrong.new ≡ place_behind result (wrong_place name.now) wrong.old }
    ensures changes { changes.new ≡ changes_of (delete_of (layout_of layout) image.old directory name.now) changes.old }
{
    list_none(changes);
    named_number(
        deleting::delete(layout_of(layout), image, directory, name, changes),
        wrong,
    )
}

// A file under another name.
#[unsafe(no_mangle)]
pub extern "C" fn pno_rename(
    image: &mut [u8],
    layout: u32,
    directory: usize,
    old: &[u8],
    new: &[u8],
    which: &mut usize,
    wrong: &mut usize,
    changes: &mut [u32; 133],
) -> u32
    ensures image { Crosses (rename_of (layout_of layout) image.old directory old.now new.now) result image.old image.new }
    ensures which { which.new ≡ which_behind result (wrong_place old.now) which.old }
    ensures wrong { wrong.new ≡ place_behind result (first_wrong (wrong_place old.now) (wrong_place new.now)) wrong.old }
    ensures changes { changes.new ≡ changes_of (rename_of (layout_of layout) image.old directory old.now new.now) changes.old }
{
    list_none(changes);
    rename_number(
        renaming::rename(layout_of(layout), image, directory, old, new, changes),
        which,
        wrong,
    )
}

// Every index ordered by name, and the map made anew.
#[unsafe(no_mangle)]
pub extern "C" fn pno_repair(image: &mut [u8], layout: u32, changes: &mut [u32; 133]) -> u32
    ensures image { Crosses (repair_of (layout_of layout) image.old) result image.old image.new }
    ensures changes { changes.new ≡ changes_of (repair_of (layout_of layout) image.old) changes.old }
{
    list_none(changes);
    answer_number(repairing::repair(layout_of(layout), image, changes))
}

// The packed form of the source, in the target.
#[unsafe(no_mangle)]
pub extern "C" fn pno_pack(source: &[u8], layout: u32, target: &mut [u8]) -> u32
    ensures { (result ≡ pack_number (layout_of layout) source.now target.old) × (target.new ≡ after_pack (layout_of layout) source.now target.old) }
{
    answer_number(packing::pack(layout_of(layout), source, target))
}
