// Copying the front of a piece.
ghost use Rattle.std.specs.Prelude.{◌≡◌, ◌≤◌, ◌+◌, ◌-◌, ◌++◌, length, drop, take, min};

/// Copies at most `most` bytes of one list over the front of another, as many as fit.
pub fn copy_front(from: &[u8], into: &mut [u8], most: usize) -> usize
    ensures count { result ≡ min (min most (length into.old)) (length from.now) }
    ensures copied { take result into.new ≡ take result from.now }
    ensures kept { drop result into.new ≡ drop result into.old }
    ensures same { length into.new ≡ length into.old }
{
    let count = most.min(into.len()).min(from.len());
    let (front, _) = into.split_at_mut(count);
    front.copy_from_slice(&from[..count]);
    count
}

/// Copies the bytes from an offset on, as many as fit.
pub(crate) fn copy_from(bytes: &[u8], at: u64, into: &mut [u8]) -> usize
    ensures count { result ≡ min (length into.new) (length bytes.now - at) }
    ensures copied { take result into.new ≡ take result (drop at bytes.now) }
    ensures kept { drop result into.new ≡ drop result into.old }
    ensures same { length into.new ≡ length into.old }
{
    if at >= bytes.len() as u64 {
        return 0;
    }
    copy_front(&bytes[at as usize..], into, usize::MAX)
}

/// Writes at most `most` bytes of a piece over a list from a place on, as many as fit.
pub(crate) fn write_over(room: &mut [u8], at: usize, from: &[u8], most: usize) -> usize
    requires { at ≤ length room.old }
    ensures count { result ≡ min (min most (length room.old - at)) (length from.now) }
    ensures written { take (at + result) room.new ≡ take at room.old ++ take result from.now }
    ensures same { length room.new ≡ length room.old }
{
    copy_front(from, &mut room[at..], most)
}
