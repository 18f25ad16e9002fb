//! The world outside: what bytes come from, and what they go to.

ghost use Rattle.std.specs.Prelude.{◌≡◌, ◌≢◌, ℕ, ◌≤◌, List, [], Option, length, take, OnOk, OnErr, IfOk};
ghost use Rattle.ow_base.specs.Outside.{Rose, appended, IsFront, OnTold, Takes};

/// A read or a write that did not happen, or not in whole, because the outside failed.
#[derive(Clone, Copy, Debug, PartialEq, Eq)]
pub struct Failed;

/// Where bytes come from.
///
/// Contracts see the bytes that are left, where the source tells them, and how often it has failed.
pub trait Source {
    /// The bytes that were not read yet, or `None` where the source does not tell.
    ghost left: { Self → Option (List ℕ) };
    /// How often the source has failed. It never falls.
    ghost faults: { Self → ℕ };

    /// Reads bytes to the front of a buffer and answers how many. 0 for a buffer that is not empty is
    /// the end. `Failed` comes only where the source itself failed.
    fn read(&mut self, buf: &mut [u8]) -> Result<usize, Failed>
        ensures count { IfOk result (λ n. n ≤ length buf.old) }
        ensures taken { IfOk result (λ n. Takes (left self.old) (left self.new) (take n buf.new)) }
        ensures end { IfOk result (λ n. n ≡ 0 → length buf.old ≢ 0 → OnTold (left self.old) (λ bytes. bytes ≡ [])) }
        ensures failed { OnErr result (Rose (faults self.old) (faults self.new)) }
        ensures never_falls { faults self.old ≤ faults self.new };
}

/// Where bytes go.
///
/// Contracts see the bytes that were written, where the sink tells them, and how often it has failed.
pub trait Sink {
    /// The bytes that were written so far, or `None` where the sink does not tell.
    ghost written: { Self → Option (List ℕ) };
    /// How often the sink has failed. It never falls.
    ghost faults: { Self → ℕ };

    /// Writes a front of the bytes and answers how many. It is 0 only where there are none. After
    /// `Failed`, which comes only where the sink itself failed, a front is written too.
    fn write(&mut self, bytes: &[u8]) -> Result<usize, Failed>
        ensures count { IfOk result (λ n. n ≤ length bytes.now) }
        ensures some { IfOk result (λ n. length bytes.now ≢ 0 → n ≢ 0) }
        ensures written { IfOk result (λ n. written self.new ≡ appended (written self.old) (take n bytes.now)) }
        ensures front { OnErr result (IsFront bytes.now (written self.old) (written self.new)) }
        ensures failed { OnErr result (Rose (faults self.old) (faults self.new)) }
        ensures never_falls { faults self.old ≤ faults self.new };
}
