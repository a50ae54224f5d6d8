//! Sets as bytes, and bytes as sets: Roaring's portable format.
ghost use Rattle.std.specs.Prelude.{◌≡◌, ◌^◌, Bool, List, ℕ, IfErr, IfOk, Ok};
ghost use Rattle.bit_blocks.specs.Numbers.{AscendsIn};
ghost use Rattle.bit_portable.specs.Faults.{FailsBy, Tells};
ghost use Rattle.bit_portable.specs.Portable.{IsFormOf};
ghost use Rattle.bit_portable.specs.Reading.{Fails, Gives, all_of};
ghost use Rattle.bit_roaring.specs.Bytes.{blocks_of, set_bytes};

use crate::set::RoaringSet;
use bit_portable::{ReadError, read, write};
use std::alloc::{AllocError, Global};

impl RoaringSet {
    /// The bytes of the set in Roaring's portable format: with runs where they take fewer bytes, or without runs. Equal
    /// sets have equal bytes.
    #[tactic(auto, using(crate::proofs::Bytes::are_blocks, crate::proofs::Bytes::set_written, crate::proofs::Sets::set_ascends))]
    pub fn to_bytes(&self, with_runs: bool) -> Result<Vec<u8>, AllocError>
        ensures bytes { IfOk result (λ bytes. bytes.items ≡ set_bytes with_runs self.now) }
        ensures ascends { AscendsIn 0 (2 ^ 32) self.now }
    {
        write(*self.blocks.allocator(), &self.blocks, with_runs)
    }

    /// The set of which all bytes are a form, in Roaring's portable format. What `to_bytes` made is read back, and so is
    /// each other form of a set, unless memory runs out. A fault is the first that reading comes to.
    #[tactic(auto, using(crate::proofs::Bytes::are_keyed, crate::proofs::Bytes::set_read, crate::proofs::Sets::set_ascends))]
    pub fn from_bytes(alloc: Global, bytes: &[u8]) -> Result<Self, ReadError>
        ensures found { IfOk result (λ set. IsFormOf bytes.now (blocks_of set)) }
        ensures ascends { IfOk result (λ set. AscendsIn 0 (2 ^ 32) set) }
        ensures only { (numbers : List ℕ) → AscendsIn 0 (2 ^ 32) numbers → IsFormOf bytes.now (blocks_of numbers) → Gives (λ set. set) result (Ok numbers) }
        ensures back { (with_runs : Bool) (numbers : List ℕ) → AscendsIn 0 (2 ^ 32) numbers → bytes.now ≡ set_bytes with_runs numbers → Gives (λ set. set) result (Ok numbers) }
        ensures exact { IfErr result (λ e. Fails e (all_of bytes.now)) }
        ensures fault { FailsBy result (Tells bytes.now) }
    {
        let blocks = read(alloc, bytes)?;
        Ok(RoaringSet { blocks })
    }
}
