//! Names of modules and of drivers.
ghost use Rattle.std.specs.Prelude.{◌≡◌, is_some, length, nat_le, IfSome};
ghost use Rattle.strm_module.specs.declared.shape.TheConstants.{LONGEST_NAME};
ghost use Rattle.std.specs.Str.{bytes_eq};
ghost use Rattle.std.specs.Cmp.Rules.{comparing};
ghost use Rattle.std.proofs.Common.{rules};

use arrayvec::ArrayVec;
use std::fmt;
use std::marker::Model;
use strm_module::LONGEST_NAME;

/// The name of a module, which contracts see as the name that a module's shape has.
///
/// It takes nine bytes, so that a reply with the names of all modules is small.
#[derive(Drop)]
pub struct Name {
    len: u8,
    bytes: [u8; LONGEST_NAME],
}

impl Model for Name {
    ghost use Rattle.std.specs.Prelude.{ℕ, ◌≤◌, take};
    ghost use Rattle.arrayvec.specs.ArrayVec.{ArrayVec};
    ghost use Rattle.strm_module.specs.declared.shape.TheConstants.{LONGEST_NAME};

    ghost Value = { ArrayVec ℕ };

    ghost view = { λ name. record { items = take name.len name.bytes } };

    ghost invariant = { λ name. name.len ≤ LONGEST_NAME };
}

/// Printed as a byte string is written, as `b"ldterm"`.
impl fmt::Debug for Name {
    fn fmt<W: fmt::Write>(&self, f: &mut fmt::Formatter<W>) -> fmt::Result {
        write!(f, "b\"{}\"", self.as_slice().escape_ascii())
    }
}

/// Equal where the bytes are equal.
impl PartialEq for Name {
    ghost eq = { λ one other. bytes_eq one.items other.items };

    ghost laws = { Prim.search (comparing, rules) };

    fn eq(&self, other: &Name) -> bool {
        self.as_slice() == other.as_slice()
    }
}

impl Eq for Name {
    ghost laws = { Prim.search (comparing, rules) };
}

/// No name: no bytes.
impl Default for Name {
    fn default() -> Name {
        Name {
            len: 0,
            bytes: [0; LONGEST_NAME],
        }
    }
}

impl Name {
    /// The name that a module's shape has.
    pub fn new(name: &ArrayVec<u8, LONGEST_NAME>) -> Name
        ensures { result ≡ name.now }
    {
        let len = name.len();
        let mut bytes = [0; LONGEST_NAME];
        bytes[..len].copy_from_slice(name.as_slice());
        Name {
            len: len as u8,
            bytes,
        }
    }

    /// The name of these bytes; nothing where they are more than `LONGEST_NAME`.
    pub fn of(bytes: &[u8]) -> Option<Name>
        ensures some { IfSome result (λ name. name.items ≡ bytes.now) }
        ensures variant { is_some result ≡ nat_le (length bytes.now) LONGEST_NAME }
    {
        if bytes.len() > LONGEST_NAME {
            return None;
        }
        let mut name = [0; LONGEST_NAME];
        name[..bytes.len()].copy_from_slice(bytes);
        Some(Name {
            len: bytes.len() as u8,
            bytes: name,
        })
    }

    /// An equal one.
    pub fn copy(&self) -> Name
        ensures { result ≡ self.now }
    {
        Name {
            len: self.len,
            bytes: self.bytes,
        }
    }

    /// Its bytes.
    pub fn as_slice(&self) -> &[u8]
        ensures { result.now ≡ self.now.items }
    {
        &self.bytes[..usize::from(self.len)]
    }
}
