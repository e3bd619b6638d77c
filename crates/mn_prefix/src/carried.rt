// Prefixes as protocols carry them: only the bytes that hold the network's bits.
ghost use Rattle.std.specs.Prelude.{◌≡◌, ◌≤◌, length};
ghost use Rattle.mn_prefix.specs.Octets.{octets, address_of};

/// How many bytes hold so many bits: 0 to 32.
pub fn octets(bits: u8) -> usize
    ensures { result ≡ octets bits }
{
    usize::from(bits).div_ceil(8)
}

/// The address that begins with these bytes, at most four (RFC 5036, section 3.4.1; RFC 4271, section 4.3). A byte that
/// isn't there is zero.
pub fn address_of(first_bytes: &[u8]) -> u32
    requires { length first_bytes.now ≤ 4 }
    ensures { result ≡ address_of first_bytes.now }
{
    let mut address = [0; 4];
    address[..first_bytes.len()].copy_from_slice(first_bytes);
    u32::from_be_bytes(address)
}
