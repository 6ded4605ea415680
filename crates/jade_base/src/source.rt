ghost use Rattle.std.specs.Prelude.{◌≡◌, ℕ, ◌<◌, ◌≤◌, min, List, ◌++◌, length, take, drop, Option, IfOk, OnErr};
ghost use Rattle.std.specs.Option.{ForSome};
ghost use Rattle.jade_base.specs.Bytes.{Rose, left_after, Gives};

use crate::Failed;

/// Where the bytes of a text come from.
pub trait Source {
    // The bytes left, where the source tells them.
    ghost left: { Self → Option (List ℕ) };

    // The count of faults so far.
    ghost faults: { Self → ℕ };

    /// Puts the next bytes at the head of the buffer, which is not empty, and answers how many;
    /// 0 is the end. After `Failed` nothing was taken out of the source.
    fn read(&mut self, buffer: &mut [u8]) -> Result<usize, Failed>
        requires { 0 < length buffer.old }
        ensures within { IfOk result (λ n. n ≤ length buffer.new) }
        ensures gives { IfOk result (λ n. ForSome (left self.old) (λ b. Gives b buffer.new n)) }
        ensures after { IfOk result (λ n. left self.new ≡ left_after n (left self.old)) }
        ensures failed { OnErr result (left self.new ≡ left self.old) }
        ensures fault { OnErr result (Rose (faults self.old) (faults self.new)) }
        ensures count { faults self.old ≤ faults self.new };
}

// Puts bytes at the head of the buffer, as many as there are and fit, at most `most` of them.
pub(crate) fn give(bytes: &[u8], most: usize, buffer: &mut [u8]) -> usize
    requires most { 0 < most }
    requires buffer { 0 < length buffer.old }
    ensures gives { Gives bytes.now buffer.new result }
    ensures number { result ≡ min most (min (length buffer.old) (length bytes.now)) }
    ensures buffer { buffer.new ≡ take result bytes.now ++ drop result buffer.old }
{
    let count = most.min(buffer.len().min(bytes.len()));
    buffer[..count].copy_from_slice(&bytes[..count]);
    count
}
