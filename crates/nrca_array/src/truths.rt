ghost use Rattle.std.specs.Prelude.{◌≡◌, ◌<◌, [], ◌∷◌, ◌++◌, length, map, IfOk, slice_get, Some};
ghost use Rattle.nrca_array.specs.Packing.{truth_byte};

use aql_value::Memory;
use std::alloc::Global;
use std::marker::Model;

/// Truth values, a byte 0 or 1 for each. Contracts see the list.
#[derive(Drop)]
pub(crate) struct Truths {
    bytes: Vec<u8>,
}

impl Model for Truths {
    ghost use Rattle.std.specs.Prelude.{List, Bool, map};
    ghost use Rattle.nrca_array.specs.Kept.{byte_truth, AreTruths};

    ghost Value = { List Bool };

    ghost view = { λ a. map byte_truth a.bytes.items };

    ghost invariant = { λ a. AreTruths a.bytes.items };
}

impl Truths {
    /// No truth values.
    pub(crate) fn new(alloc: Global) -> Truths
        ensures { result ≡ [] }
    {
        Truths {
            bytes: Vec::new(alloc),
        }
    }

    /// How many truth values.
    pub(crate) fn len(&self) -> usize
        ensures { result ≡ length self.now }
    {
        self.bytes.len()
    }

    /// A truth value by its place.
    pub(crate) fn get(&self, at: usize) -> bool
        requires { at < length self.now }
        ensures { slice_get self.now at ≡ Some result }
    {
        self.bytes[at] == 1
    }

    /// One truth value more.
    pub(crate) fn push(self, b: bool) -> Result<Truths, Memory>
        ensures { IfOk result (λ bs. bs ≡ self ++ b ∷ []) }
    {
        let Truths { mut bytes } = self;
        bytes.push(u8::from(b))?;
        Ok(Truths { bytes })
    }

    /// These truth values, and then the others.
    pub(crate) fn append(self, others: Truths) -> Result<Truths, Memory>
        ensures { IfOk result (λ bs. bs ≡ self ++ others) }
    {
        let Truths { mut bytes } = self;
        bytes.extend_from_slice(&others.bytes)?;
        Ok(Truths { bytes })
    }

    /// The bytes.
    pub(crate) fn lend(&self) -> &[u8]
        ensures { result.now ≡ map truth_byte self.now }
    {
        &self.bytes
    }

    /// Equal truth values.
    pub(crate) fn copy(&self, alloc: Global) -> Result<Truths, Memory>
        ensures { IfOk result (λ bs. bs ≡ self.now) }
    {
        let bytes = Vec::from_slice(alloc, &self.bytes)?;
        Ok(Truths { bytes })
    }
}
