//! Where bytes come from and where they go.
ghost use Rattle.std.specs.Prelude.{◌≡◌, ◌<◌, ◌≤◌, ℕ, List, Option, length, take, IfOk, OnErr};
ghost use Rattle.src_sink.specs.Outside.{NeverFalls, Rose, Consumes, Appends, Keeps, IsAtEnd};

/// The outside failed in this call.
#[derive(Clone, Copy, Debug, PartialEq, Eq)]
pub struct Failed;

/// Where bytes come from. Each read is one step: nothing else reads at the same time.
pub trait Source {
    // The bytes that are left, where the source tells them.
    ghost left: { Self → Option (List ℕ) };

    // How many calls failed.
    ghost faults: { Self → ℕ };

    /// Puts the next bytes at the front of `buf`, and answers how many they are. What follows them
    /// in `buf` may be anything. For a `buf` that is not empty, 0 is the end of input.
    fn read(&mut self, buf: &mut [u8]) -> Result<usize, Failed>
        ensures count { NeverFalls (faults self.old) (faults self.new) }

        ensures within { IfOk result (λ k. k ≤ length buf.new) }
        ensures taken { IfOk result
            (λ k. Consumes (left self.old) (left self.new) (take k buf.new)) }
        ensures end { IfOk result (λ k. k ≡ 0 → 0 < length buf.old → IsAtEnd (left self.new)) }

        ensures rose { OnErr result (Rose (faults self.old) (faults self.new)) }
        ensures kept { OnErr result (Keeps (left self.old) (left self.new)) };
}

/// Where bytes go. Each write is one step: nothing else writes at the same time.
pub trait Sink {
    // The bytes that the sink holds, where it tells them.
    ghost held: { Self → Option (List ℕ) };

    // How many calls failed.
    ghost faults: { Self → ℕ };

    /// Appends a front of `bytes`, and answers how many they are: at least one, unless `bytes` is
    /// empty.
    fn write(&mut self, bytes: &[u8]) -> Result<usize, Failed>
        ensures count { NeverFalls (faults self.old) (faults self.new) }

        ensures within { IfOk result (λ k. k ≤ length bytes.now) }
        ensures some { IfOk result (λ k. 0 < length bytes.now → 0 < k) }
        ensures appended { IfOk result
            (λ k. Appends (held self.old) (held self.new) (take k bytes.now)) }

        ensures rose { OnErr result (Rose (faults self.old) (faults self.new)) }
        ensures kept { OnErr result (Keeps (held self.old) (held self.new)) };
}
