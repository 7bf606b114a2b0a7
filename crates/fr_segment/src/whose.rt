//! The first record of a file: whose it is.
ghost use Rattle.std.specs.Prelude.{◌≡◌, ◌<◌, ◌^◌, List, ℕ, length, drop, None, IfOk, IfSome};
ghost use Rattle.fr_segment.specs.Header.{header, identity};

use std::alloc::{AllocError, Global};

/// `fdbrec`, and the format.
const MAGIC: [u8; 7] = [0x66, 0x64, 0x62, 0x72, 0x65, 0x63, 2];

/// Whose a file is: a cluster, a node of it, and the shape of the cluster that the node is of. Names are any bytes; of
/// two nodes or shapes that differ, the identities differ.
pub fn identity(
    alloc: Global,
    cluster: &[u8; 16],
    node: &[u8],
    shape: &[u8],
) -> Result<Vec<u8>, AllocError>
    requires { length node.now < 2 ^ 32 }
    ensures { IfOk result (λ bytes. bytes.items ≡ identity cluster.now node.now shape.now) }
{
    let mut bytes = Vec::new(alloc);
    bytes.extend_from_slice(cluster)?;
    // A length before the name: otherwise two names and shapes could run together into the same bytes.
    bytes.extend_from_slice(&(node.len() as u32).to_be_bytes())?;
    bytes.extend_from_slice(node)?;
    bytes.extend_from_slice(shape)?;
    Ok(bytes)
}

/// The first record of the file of this number.
pub fn header(alloc: Global, number: u64, identity: &[u8]) -> Result<Vec<u8>, AllocError>
    ensures { IfOk result (λ bytes. bytes.items ≡ header number identity.now) }
{
    let mut bytes = Vec::new(alloc);
    bytes.extend_from_slice(&MAGIC)?;
    bytes.extend_from_slice(&number.to_be_bytes())?;
    bytes.extend_from_slice(identity)?;
    Ok(bytes)
}

/// The number of the file whose first record this is; its identity are the bytes from place 15 on. None if it is the
/// first record of no file.
pub fn header_number(first: &[u8]) -> Option<u64>
    ensures some { IfSome result (λ n. first.now ≡ header n (drop 15 first.now)) }
    ensures none { (result ≡ None) → (n : ℕ) (whose : List ℕ) → first.now ≡ header n whose → ⊥ }
{
    // The format is a part of the magic, so that a later one is refused and not read as this one.
    if first.len() < 15 || first[..7] != MAGIC[..] {
        return None;
    }
    Some(u64::from_be_bytes([
        first[7], first[8], first[9], first[10], first[11], first[12], first[13], first[14],
    ]))
}
