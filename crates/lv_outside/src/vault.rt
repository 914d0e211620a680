ghost use Rattle.std.specs.Prelude.{◌≡◌, ◌≢◌, ◌≤◌, List, ℕ, IsTrue, [], length};
ghost use Rattle.lv_outside.specs.Count.{Counted};
ghost use Rattle.lv_outside.specs.Files.{ReadGives, Holds};
ghost use Rattle.lv_outside.specs.World.{VaultState};

use crate::{Fetch, Put};
use lv_base::Bytes;

/// Files that are read and written by their paths.
///
/// Where a vault's contents are known, its answers are determined but for failures and want of memory. Its counts never
/// fall, and a count that rises stands still at 2^64 - 1.
pub trait Vault {
    /// What is known of it: its contents, and how often the outside failed, a read found no file, and a read found one that
    /// was too long.
    ghost state: { Self → VaultState };

    /// Reads the whole file at a path, if it has at most `most` bytes. An answer other than `Got` leaves `into` empty.
    fn read(&mut self, path: &[u8], most: u64, into: &mut Bytes) -> Fetch
        // With known contents, `Got` brings the file, `Absent` says that there is none, and `TooLong` that it is longer.
        ensures gives { IsTrue (state self.old).tells → ReadGives ((state self.old).file path.now) most result into.new }
        ensures within { result ≡ Fetch.Got → length into.new ≤ most }
        ensures empty { result ≢ Fetch.Got → into.new ≡ [] }

        ensures known { IsTrue (state self.old).tells → IsTrue (state self.new).tells }
        ensures same { IsTrue (state self.old).tells → (q : List ℕ) → (state self.new).file q ≡ (state self.old).file q }

        ensures failed { Counted (state self.old).faults (state self.new).faults (result ≡ Fetch.Failed) }
        ensures absent { Counted (state self.old).absences (state self.new).absences (result ≡ Fetch.Absent) }
        ensures long { Counted (state self.old).longs (state self.new).longs (result ≡ Fetch.TooLong) };

    /// Makes these bytes the file at a path. A failure leaves that file, and only that, unknown.
    fn write(&mut self, path: &[u8], bytes: &[u8]) -> Put
        ensures done { IsTrue (state self.old).tells → result ≡ Put.Done
            → Holds (state self.old).file (state self.new).file path.now bytes.now }
        ensures others { IsTrue (state self.old).tells → (q : List ℕ) → q ≢ path.now → (state self.new).file q ≡ (state self.old).file q }
        ensures known { IsTrue (state self.old).tells → IsTrue (state self.new).tells }

        ensures failed { Counted (state self.old).faults (state self.new).faults (result ≡ Put.Failed) }
        ensures absent { (state self.new).absences ≡ (state self.old).absences }
        ensures long { (state self.new).longs ≡ (state self.old).longs };

    /// A seed for tables of strangers' texts, the same at each call. Nothing else is promised of it.
    fn seed(&self) -> u128;
}
