// A table of places by their sums, in three arrays that the caller lends. Places count from 1 and are entered in ascending order.
//
// The places under a sum are met one by one, the latest first. That ends for any arrays, since a link that does not lead to a lower
// place leads nowhere. `enter`, `first_under` and `next_under` take the arrays one by one, and only `enter` takes them to be written;
// a `Table` holds all three, and gives the places as an iterator.
ghost use Rattle.std.specs.Prelude.{◌≡◌, ◌∷◌, ℕ, ◌%◌, ◌<◌, ◌≤◌, get_or, unwrap_or, length};
ghost use Rattle.std.specs.Option.{ForSome, SomeIff};
ghost use Rattle.sums.specs.Table.{link_of, chain, under, walk, Table as Entries, Entered};

// The bucket of a sum; with no buckets there is none.
fn bucket_of(sum: u64, buckets: usize) -> Option<usize>
    ensures { SomeIff result (0 < buckets) (sum % buckets) }
{
    let bucket = sum.checked_rem(buckets as u64)?;
    Some(bucket as usize)
}

// Enters a place under a sum. The answer is whether it fits; where it does not, nothing is changed.
#[tactic(auto, using(crate::proofs::Entering::not_entered), unfolding(crate::specs::Table::fits))]
pub fn enter(
    place: usize,
    sum: u64,
    last: &mut [u32],
    earlier: &mut [u32],
    sums: &mut [u64],
) -> bool
    requires { Entries last.old place }
    ensures { Entered place sum result last.old earlier.old sums.old last.new earlier.new sums.new }
{
    let (Ok(kept), Some(bucket)) = (u32::try_from(place), bucket_of(sum, last.len())) else {
        return false;
    };
    if place >= earlier.len() || place >= sums.len() {
        return false;
    }
    earlier[place] = last[bucket];
    sums[place] = sum;
    last[bucket] = kept;
    true
}

// The sum of a place; past the end stand zeros.
fn sum_at(sums: &[u64], place: usize) -> u64
    ensures { result ≡ get_or sums.now place 0 }
{
    sums.get(place).copied().unwrap_or(0)
}

// The place before this one in its bucket.
#[tactic(auto, unfolding(crate::specs::Table::link_of))]
fn link_at(earlier: &[u32], place: usize) -> Option<usize>
    ensures value { unwrap_or result 0 ≡ link_of earlier.now place }
    ensures lower { ForSome result (λ link. (0 < link) × (link < place)) }
{
    let link = *earlier.get(place)? as usize;
    (link > 0 && link < place).then_some(link)
}

// The place that was entered last in the bucket of a sum.
fn top_of(sum: u64, last: &[u32]) -> Option<usize>
    ensures value { unwrap_or result 0 ≡ get_or last.now (sum % length last.now) 0 }
    ensures placed { ForSome result (λ place. 0 < place) }
{
    let bucket = bucket_of(sum, last.len())?;
    let top = last[bucket] as usize;
    (top > 0).then_some(top)
}

// The first place with this sum, from `start` on by the links.
#[tactic(auto, using(crate::proofs::ChainSteps::chain_end, crate::proofs::ChainSteps::chain_here, crate::proofs::ChainSteps::chain_on))]
fn first_from(start: Option<usize>, sum: u64, earlier: &[u32], sums: &[u64]) -> Option<usize>
    requires { ForSome start (λ place. 0 < place) }
    ensures value { chain sum earlier.now sums.now (unwrap_or start 0) (unwrap_or start 0) ≡ walk (unwrap_or result 0) sum earlier.now sums.now }
    ensures lower { ForSome result (λ place. (0 < place) × (place ≤ unwrap_or start 0)) }
{
    let mut next = start;
    while let Some(place) = next {
        if sum_at(sums, place) == sum {
            return Some(place);
        }
        next = link_at(earlier, place);
    }
    None
}

// The place that was entered last under a sum, or 0 for none: where the walk over all places under it begins.
#[tactic(auto, unfolding(crate::specs::Table::under))]
pub fn first_under(sum: u64, last: &[u32], earlier: &[u32], sums: &[u64]) -> usize
    ensures sums_value { under sum last.now earlier.now sums.now ≡ walk result sum earlier.now sums.now }
    ensures by_index { (next : ℕ) → Entries last.now next → result < next }
{
    first_from(top_of(sum, last), sum, earlier, sums).unwrap_or(0)
}

// Where the walk goes on from a place under a sum; 0 is its end.
#[tactic(auto, using(crate::proofs::ChainSteps::walk_on))]
pub fn next_under(place: usize, sum: u64, earlier: &[u32], sums: &[u64]) -> usize
    requires { 0 < place }
    ensures { (walk place sum earlier.now sums.now ≡ place ∷ walk result sum earlier.now sums.now) × (result < place) }
{
    first_from(link_at(earlier, place), sum, earlier, sums).unwrap_or(0)
}

// With zeros in `last` nothing is entered, whatever the other two hold. `earlier` and `sums` are two arrays and not one of pairs, in
// which each place would take four bytes more.
#[derive(Drop)]
pub struct Table<'a> {
    // for each bucket the place that was entered last there, 0 for none
    pub last: &'a mut [u32],
    // for each place the one that was entered before it in its bucket, 0 for none
    pub earlier: &'a mut [u32],
    // for each place its sum
    pub sums: &'a mut [u64],
}

// The places under a sum that are still to be met, the latest first. Each is looked for when it is asked for: where a walk ends at
// one, those behind it are not looked at.
#[derive(Drop)]
pub struct Places<'a, 'b> {
    table: &'a Table<'b>,
    sum: u64,
    // where the walk goes on, whatever its sum
    from: Option<usize>,
    ghost placed: { ForSome from (λ place. 0 < place) },
}

impl<'a> Table<'a> {
    ghost use Rattle.sums.specs.Lent.{AllBelow, EnteredInto, SameArrays, places_of, places_on, places_from, places_left};

    // Enters a place under a sum. The answer is whether it fits; where it does not, nothing is changed.
    pub fn enter(&mut self, place: usize, sum: u64) -> bool
        requires { AllBelow self.old place }
        ensures entered { EnteredInto self.old self.new place sum result }
        ensures same_arrays { SameArrays self.old self.new }
    {
        enter(place, sum, self.last, self.earlier, self.sums)
    }

    // The first place with this sum, from `start` on by the links.
    fn first_from(&self, start: Option<usize>, sum: u64) -> Option<usize>
        requires { ForSome start (λ place. 0 < place) }
        ensures value { places_on self.now sum start ≡ places_from self.now sum result }
        ensures lower { ForSome result (λ place. (0 < place) × (place ≤ unwrap_or start 0)) }
    {
        first_from(start, sum, self.earlier, self.sums)
    }

    // The place before this one in its bucket.
    fn link_at(&self, place: usize) -> Option<usize>
        ensures value { unwrap_or result 0 ≡ link_of self.now.earlier.now place }
        ensures lower { ForSome result (λ link. (0 < link) × (link < place)) }
    {
        link_at(self.earlier, place)
    }

    // The place that was entered last under a sum.
    pub fn first_under(&self, sum: u64) -> Option<usize>
        ensures value { places_of self.now sum ≡ places_from self.now sum result }
        ensures placed { ForSome result (λ place. 0 < place) }
        ensures by_index { (next : ℕ) → AllBelow self.now next → ForSome result (λ place. place < next) }
    {
        let place = first_under(sum, self.last, self.earlier, self.sums);
        (place > 0).then_some(place)
    }

    // The place that was entered before this one under a sum.
    pub fn next_under(&self, place: usize, sum: u64) -> Option<usize>
        requires { 0 < place }
        ensures rest { places_from self.now sum (Some place) ≡ place ∷ places_from self.now sum result }
        ensures lower { ForSome result (λ next. (0 < next) × (next < place)) }
    {
        let next = next_under(place, sum, self.earlier, self.sums);
        (next > 0).then_some(next)
    }

    // The places that were entered under a sum, the latest first.
    #[tactic(auto, unfolding(crate::specs::Table::under))]
    pub fn places_under(&self, sum: u64) -> Places<'_, 'a>
        ensures { places_left result ≡ places_of self.now sum }
    {
        Places {
            table: self,
            sum,
            from: top_of(sum, self.last),
        }
    }
}

impl Iterator for Places<'_, '_> {
    type Item = usize;

    ghost use Rattle.std.specs.Iterator.{YieldsFirst, item_count};
    ghost use Rattle.sums.specs.Lent.{places_left};

    ghost next_gives = { YieldsFirst places_left };

    ghost remaining = { item_count places_left };

    #[tactic(auto, using(crate::proofs::ChainSteps::walk_on), unfolding(crate::specs::Table::walk))]
    fn next(&mut self) -> Option<usize> {
        let place = self.table.first_from(self.from, self.sum)?;
        self.from = self.table.link_at(place);
        Some(place)
    }
}
