// The CRC-32 of IEEE 802.3.
ghost use Rattle.std.specs.Prelude.{◌≡◌};
ghost use Rattle.digests.specs.Digests.{shifted, crc_step, crc};

// The polynomial, its highest power left out and the lowest bit for the highest power.
const POLYNOMIAL: u32 = 0xedb8_8320;

// How many bits a byte has.
const BITS: u8 = 8;

// One step of the register: the lowest bit goes out.
fn shift(register: u32) -> u32
    ensures { result ≡ shifted register }
{
    let half = register / 2;
    if register % 2 == 1 {
        half ^ POLYNOMIAL
    } else {
        half
    }
}

// The register after a byte.
fn after(register: u32, byte: u8) -> u32
    ensures { result ≡ crc_step register byte }
{
    (0..BITS).fold(register ^ u32::from(byte), |register, _| shift(register))
}

// The CRC-32 of some bytes.
#[tactic(auto, unfolding(crate::specs::Digests::crc))]
pub fn crc32(bytes: &[u8]) -> u32
    ensures { result ≡ crc bytes.now }
{
    let register = bytes
        .iter()
        .fold(u32::MAX, |register, byte| after(register, *byte));
    register ^ u32::MAX
}
