// The 64-bit FNV-1a hash.
ghost use Rattle.std.specs.Prelude.{◌≡◌};
ghost use Rattle.digests.specs.Digests.{fnv};

const BASIS: u64 = 0xcbf2_9ce4_8422_2325;

const PRIME: u64 = 0x100_0000_01b3;

// The hash of some bytes.
#[tactic(auto, unfolding(crate::specs::Digests::fnv))]
pub fn fnv1a(bytes: &[u8]) -> u64
    ensures { result ≡ fnv bytes.now }
{
    bytes.iter().fold(BASIS, |hash, byte| {
        (hash ^ u64::from(*byte)).wrapping_mul(PRIME)
    })
}
