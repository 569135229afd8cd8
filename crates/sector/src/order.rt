// The order of a call's writes, as a host is given it: 133 words, of which the second says how many sectors were written, and those behind it
// which, in the order of the writes. The first word is not looked at.
ghost use Rattle.std.specs.Prelude.{◌≡◌, [], ◌∷◌, ◌+◌, ◌≤◌, length};
ghost use Rattle.rules.specs.Bytes.{splice};

// Nothing was written.
pub fn list_none(changes: &mut [u32; 133])
    ensures { changes.new ≡ splice changes.old 1 (0 ∷ []) }
{
    changes[1] = 0;
}

// These sectors behind the first `before`, which stand there already; and their number with those.
pub fn list(changes: &mut [u32; 133], before: usize, sectors: &[u32])
    requires { before + length sectors.now ≤ 131 }
    ensures { changes.new ≡ splice (splice changes.old (2 + before) sectors.now) 1 ((before + length sectors.now) ∷ []) }
{
    let count = before + sectors.len();
    changes[2 + before..2 + count].copy_from_slice(sectors);
    changes[1] = count as u32;
}
