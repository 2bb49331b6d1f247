//! The bytes of a block, copied in steps of fixed numbers.
ghost use Rattle.std.specs.Prelude.{◌≡◌, ◌+◌, ◌≤◌, length};

/// Copies the bytes of a block over as many. Most blocks have 10 to 64: of these the first so many are copied, and the last so many, which may
/// be in part the same. A copy of any length first finds out how long it is, in a call, which takes longer than that.
#[inline(always)]
pub fn copy_block(to: &mut [u8], from: &[u8])
    requires { length from.now ≡ length to.old }
    ensures { to.new ≡ from.now }
{
    let len = from.len();
    // So it is known that both are as long.
    let to = &mut to[..len];
    if len > 64 {
        to.copy_from_slice(from);
    } else if len > 32 {
        copy_ends::<32>(to, from);
    } else if len >= 16 {
        copy_ends::<16>(to, from);
    } else if len >= 8 {
        copy_ends::<8>(to, from);
    } else {
        to.copy_from_slice(from);
    }
}

/// Copies so many of the first bytes, and so many of the last ones: that is all of them.
#[inline(always)]
fn copy_ends<const N: usize>(to: &mut [u8], from: &[u8])
    requires same { length from.now ≡ length to.old }
    requires least { N ≤ length from.now }
    requires most { length from.now ≤ N + N }
    ensures { to.new ≡ from.now }
{
    if let Some(first) = from.first_chunk::<N>() {
        if let Some(place) = to.first_chunk_mut::<N>() {
            *place = *first;
        }
    }
    if let Some(last) = from.last_chunk::<N>() {
        if let Some(place) = to.last_chunk_mut::<N>() {
            *place = *last;
        }
    }
}
