// The bytes of the numbers in a message.
ghost use Rattle.std.specs.Prelude.{◌≡◌, ◌+◌, ◌≤◌, List, [], ◌∷◌, length, slice_index};

// The four bytes at `at`.
pub(crate) fn four_bytes(bytes: &[u8], at: usize) -> [u8; 4]
    requires { at + 4 ≤ length bytes.now }
    ensures { result ≡ slice_index bytes.now at ∷ slice_index bytes.now (at + 1) ∷ slice_index bytes.now (at + 2) ∷ slice_index bytes.now (at + 3) ∷ [] }
{
    *bytes[at..].first_chunk().unwrap()
}
