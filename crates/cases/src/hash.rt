// The hash by which a line tells of many bytes.
ghost use Rattle.std.specs.Prelude.{◌≡◌};
ghost use Rattle.cases.specs.Hash.{hash_from};

// 2^32.
const MODULUS: u64 = 4294967296;

// The hash of all the bytes.
#[tactic(auto, using(crate::proofs::Numbers::hash_more, crate::proofs::Numbers::hash_end))]
pub fn hash(bytes: &[u8]) -> u64
    ensures { result ≡ hash_from 0 bytes.now }
{
    let mut h: u64 = 0;
    for byte in bytes {
        h = (h * 31 + *byte as u64) % MODULUS;
    }
    h
}
