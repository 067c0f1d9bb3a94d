// Bytes copied from one slice to another.
ghost use Rattle.std.specs.Prelude.{◌≡◌, length};

// The bytes of one slice go to another of the same length. `copy_from_slice` would ask C for memmove, a name that the archive can do without.
pub fn copy_bytes(to: &mut [u8], from: &[u8])
    requires { length to.old ≡ length from.now }
    ensures { to.new ≡ from.now }
{
    for i in 0..from.len() {
        to[i] = from[i];
    }
}
