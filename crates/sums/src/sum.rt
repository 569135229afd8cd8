// The sum of bytes: equal bytes have equal sums.
ghost use Rattle.std.specs.Prelude.{◌≡◌, ◌<◌};
ghost use Rattle.sums.specs.Sum.{prime, sum_of};

// The largest prime below 72,000,000,000,000,000: 256 times a remainder and a byte fit into 64 bits.
const PRIME: u64 = 71999999999999857;

// The bytes as one number, high byte first and a one in front of them, modulo the prime.
#[tactic(auto, using(crate::proofs::SumSteps::sum_step, crate::proofs::SumSteps::sum_end, crate::proofs::SumSteps::part_whole))]
pub fn sum_of(bytes: &[u8]) -> u64
    ensures { (result ≡ sum_of bytes.now) × (result < prime) }
{
    let mut sum = 1;
    for byte in bytes {
        sum = (sum * 256 + u64::from(*byte)) % PRIME;
    }
    sum
}
