// The marks: a bit for each of 1,600 sectors, 200 bytes in the map's own order: sector k is bit k mod 8, lowest bit first, of byte k/8. One means taken.
ghost use Rattle.std.specs.Prelude.{◌≡◌, cond, ◌+◌, ◌-◌, ◌%◌, ◌^◌, ◌<◌, length};
ghost use Rattle.rules.specs.Chain.{run};
ghost use Rattle.rules.specs.Map.{marked_all};
ghost use Rattle.judge.specs.Claim.{as_map, all_free};

// One to eight bits from the lowest up: a table is fewer instructions than two shifts.
const ONES: [u8; 8] = [1, 3, 7, 15, 31, 63, 127, 255];

fn ones(more: usize) -> u8
    requires { more < 8 }
    ensures { result ≡ 2 ^ (more + 1) - 1 }
{
    ONES[more]
}

// Marks sector k and the `more` behind it, which share its byte, and answers whether all were free; where one was not, nothing is marked.
pub(crate) fn take(marks: &mut [u8; 200], k: usize, more: usize) -> bool
    requires { (k < 1600) × (k % 8 + more < 8) }
    ensures { (result ≡ all_free (as_map marks.old) (run k (more + 1))) × (as_map marks.new ≡ cond result (marked_all 1 (as_map marks.old) (run k (more + 1))) (as_map marks.old)) }
{
    let i = k / 8;
    let byte = marks[i];
    let bits = ones(more) << (k % 8);
    if byte & bits != 0 {
        return false;
    }
    marks[i] = byte | bits;
    true
}
